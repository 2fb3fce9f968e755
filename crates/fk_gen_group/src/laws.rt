//! Laws of the blocks of groups.

ghost use Rattle.fk_gen_group.specs.Meeting.{HartsArrive, HartsMove};
ghost use Rattle.fk_gen_group.specs.Together.{TurnsAreMoves, MembersLeaveTogether};
ghost use Rattle.fk_gen_group.specs.Together.{MembersLeaveInTen};
ghost use Rattle.fk_gen_group.specs.Events.{BlocksAreMarked};
ghost use Rattle.fk_gen_group.specs.Chains.{MeetersHaveChains};
ghost use Rattle.fk_gen_group.specs.InNode.{LoneBlocksStayInNode, JumpsStayInNode};
ghost use Rattle.fk_gen_group.specs.Laws.{BlocksMeet, GroupsAgree, GroupsEnd, GroupsSendOne};
ghost use Rattle.fk_gen_group.specs.Laws.{GroupsSetFree, GroupsStart, GroupsTakeFrames};
ghost use Rattle.fk_gen_group.specs.Laws.{GroupsTakeBlocks, PartsEnd, PartsShrink, GroupsDivide};
ghost use Rattle.fk_gen_group.specs.Laws.{GroupsLackRoom};

/// A hart that comes to the lines of a meeting, in whatever cycle, arrives after 5 or 6 cycles, in
/// an even one.
pub fn harts_arrive()
    ensures { HartsArrive }
{}

/// A hart in the lines of a meeting goes through its phases. Each turn touches the arrival word
/// alone: one that arrives adds 1, and one that leaves stores 0. Leaving is the operation, if the
/// meeting says so.
pub fn harts_move()
    ensures { HartsMove }
{}

/// The turns of a cycle are moves of all who meet at an arrival word, whatever others do that leave
/// that word as it is. The laws of `fk_sim_nodes` therefore say when all leave, and that nobody
/// leaves before all have arrived.
pub fn turns_are_moves()
    ensures { TurnsAreMoves }
{}

/// The aligned barrier: members who are all in the lines leave in one and the same cycle, within
/// those for which they have time.
pub fn members_leave_together()
    ensures { MembersLeaveTogether }
{}

/// Members in lockstep that come to the block of an agreement in one cycle commit together in the
/// third. Then the last value of each is that of the highest, and one cycle later each is at the
/// next block. Of the node's words only that of the agreed value has changed.
pub fn groups_agree()
    ensures { GroupsAgree }
{}

/// A hart that comes to the block of a `barrier`, of the end of a `farm` or `seq`, or of the end of
/// a part arrives at its node's word for it after at most 7 cycles. When all members have arrived,
/// and it leaves with them, it stands for its processor at the next block.
pub fn blocks_meet()
    ensures { BlocksMeet }
{}

/// Members in lockstep that come to the block of `farm` commit in that cycle, and are then at the
/// body. Each knows how many run it.
pub fn groups_set_free()
    ensures { GroupsSetFree }
{}

/// Members in lockstep that come to the block of `seq` commit together in the fourth cycle. Two
/// cycles later the lowest is at the body, which it runs by itself, and the others are at the end
/// of the body.
pub fn groups_send_one()
    ensures { GroupsSendOne }
{}

/// Members of the group of `start` that come to its end commit in that cycle. Six cycles later they
/// are in the root, where those wait who were not in the group, with the root's `@`, `$`, size and
/// control words.
pub fn groups_end()
    ensures { GroupsEnd }
{}

/// At the beginning of `start` each processor comes to a meeting of all in the root, after at most
/// 9 cycles. Two cycles after the one in which they leave it they commit, and the value of the
/// highest is known. Those with numbers below it all come in one cycle to the body, in the group of
/// `start`, which has that many members. The others come to where they wait.
pub fn groups_start()
    ensures { GroupsStart }
{}

/// Members in lockstep that come to the block of a group frame commit together: if the frame has
/// room, it is behind the others of the group, and the header of the call has its address. Else the
/// lowest member faults at the site.
pub fn groups_take_frames()
    ensures { GroupsTakeFrames }
{}

/// Members in lockstep that come to the block of `shalloc` commit in that cycle. Twelve cycles
/// later each has the address of the words in place of their size, or 0, and is at the next block.
pub fn groups_take_blocks()
    ensures { GroupsTakeBlocks }
{}

/// Members in lockstep that come to the block of a split commit together, if their space has room
/// for the parts. Then each comes by itself to its part, with as many others as enter it, or to
/// where it waits.
pub fn groups_divide()
    ensures { GroupsDivide }
{}

/// Without room for the parts the lowest member faults at the site.
pub fn groups_lack_room()
    ensures { GroupsLackRoom }
{}

/// Members of a part that come to the block of a shrink commit together in the fifth cycle. Then
/// each comes by itself to the next block, in a group of those who stay, or to where those wait who
/// are around the part.
pub fn parts_shrink()
    ensures { PartsShrink }
{}

/// Members of a part that come to its end commit in that cycle. After it all take equally many
/// cycles, four or at most ten if a `fork` made the part. Then each is where those wait who are
/// around the part, with their `@`, `$`, size, control words and space.
pub fn parts_end()
    ensures { PartsEnd }
{}

/// The block of an operation that a processor does alone keeps its hart in its node, in as many
/// cycles. It must keep `a0` to `a3` and the words of frames, except values and what it writes, and
/// the levels in the frame of its call must have room beside these. For a call the new frame must
/// have no levels, and for an end the frame that is given up.
pub fn lone_blocks_stay_in_node()
    ensures { LoneBlocksStayInNode }
{}

/// The block of a jump keeps its hart in its node.
pub fn jumps_stay_in_node()
    ensures { JumpsStayInNode }
{}

/// Members that meet leave at most 10 cycles after the last of them has come to its block.
pub fn members_leave_in_ten()
    ensures { MembersLeaveInTen }
{}

/// A node some of whose members meet, while the others go on by themselves and leave the arrival
/// word as it is, has a chain. The turns of those who meet are moves, and each takes part with the
/// count of its phase.
pub fn meeters_have_chains<S, P, D>()
    ensures { MeetersHaveChains S P D }
{}

/// Each commit in the block of an operation is the event that the operation is, or no event if it
/// is none. The code that beginnings of `start` share commits a split, and so does that of splits.
pub fn blocks_are_marked()
    ensures { BlocksAreMarked }
{}
