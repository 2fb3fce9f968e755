//! Laws of the plan that matches each node of the tree with the stages of its harts. They hold for
//! every form of stores `S`, of processors `P`, and of what a processor's part in a round makes of
//! it, `D`. Conditions on blocks are stated by predicates.

ghost use Rattle.fk_sim_match.specs.Cycle.{CyclesArePlanned, StagesAreChains, CyclesLeave};
ghost use Rattle.fk_sim_match.specs.Cycle.{MeetingsAreKept};
ghost use Rattle.fk_sim_match.specs.Words.{WordsOfNobodyStay};
ghost use Rattle.fk_sim_match.specs.Change.{PlansGoOn, RunsLeadToStages};
ghost use Rattle.fk_sim_match.specs.Pace.{WhoIsNearActs, WhoMeetsActs};
ghost use Rattle.fk_sim_match.specs.Rounds.{RoundsAreAllowed};
ghost use Rattle.fk_sim_match.specs.Uniting.{CyclesLeaveApart};
ghost use Rattle.fk_sim_match.specs.Standing.{MembersStandAtStages, MembersHaltAtStages};
ghost use Rattle.fk_sim_match.specs.Standing.{MeetersSetOut, StartersSetOut, GroupsActTogether};
ghost use Rattle.fk_sim_match.specs.Standing.{GroupsStepTogether, GroupsEndTogether};
ghost use Rattle.fk_sim_match.specs.Standing.{GroupsDivideTogether, GroupsShrinkTogether};
ghost use Rattle.fk_sim_match.specs.Standing.{GroupsStartTogether};
ghost use Rattle.fk_sim_match.specs.Laws.{NodesOwnApart, WordsTellMeeters};
ghost use Rattle.fk_sim_match.specs.Laws.{MeetersTurn, CyclesAreRounds, UnownedWordsStay};

/// Where a plan binds all nodes, a cycle of the machine is a whole round, or a round up to its
/// first fault. The harts' stages tell who acts in the round: those at distance 0. Each node has
/// done what binds it, so a hart that doesn't commit is one cycle nearer to its commit.
pub fn cycles_are_planned<S, P, D>()
    ensures { CyclesArePlanned S P D }
{}

/// A cycle without a fault leaves the control words that no node owns as they are.
pub fn words_of_nobody_stay<S, P, D>()
    ensures { WordsOfNobodyStay S P D }
{}

/// Members of a node may each be at a stage of their own, some between joint operations and some in
/// the blocks of different ones. They have a chain in which they move at each arrival word as
/// phases do.
pub fn stages_are_chains<S, P, D>()
    ensures { StagesAreChains S P D }
{}

/// What nodes have done in a whole cycle, hart by hart: a hart that hasn't committed keeps a stage,
/// one cycle nearer to its commit where it has a distance; and all harts have moved towards each
/// arrival word.
pub fn cycles_leave<S, P, D>()
    ensures { CyclesLeave S P D }
{}

/// The law of meetings holds for each arrival word: where one of its members commits, all do, and
/// all had arrived; and once all have entered, each cycle brings them nearer to it.
pub fn meetings_are_kept<S, P, D>()
    ensures { MeetingsAreKept S P D }
{}

/// After a cycle the tree changes. Where it changes no more than a tree may (`TreeChanges`), the
/// new plan binds all nodes: groups and members that did nothing go on, those who have committed
/// are at their new stages, and each arrival word counts those who are there.
pub fn plans_go_on<S, P, D>()
    ensures { PlansGoOn S P D }
{}

/// A hart that comes in some number of private instructions to a place at a distance from a commit
/// is now as far from it as both together. A hart that has committed is therefore at a stage as
/// soon as its next block is known.
pub fn runs_lead_to_stages<S, P, D>()
    ensures { RunsLeadToStages S P D }
{}

/// A hart at a distance acts in the round that comes that many rounds later, whatever becomes of
/// others and of the tree.
pub fn who_is_near_acts()
    ensures { WhoIsNearActs }
{}

/// Once all members of a node have entered a joint operation, and some number of cycles leaves them
/// time for it, all act in one round within that number.
pub fn who_meets_acts()
    ensures { WhoMeetsActs }
{}

/// No control word belongs to two nodes.
pub fn nodes_own_apart()
    ensures { NodesOwnApart }
{}

/// The plan of a tree tells for each arrival word of a node who meets there, and how many they are.
pub fn words_tell_meeters()
    ensures { WordsTellMeeters }
{}

/// A member that meets others turns as its phase does: one that leaves commits its operation, or
/// unites with all others.
pub fn meeters_turn()
    ensures { MeetersTurn }
{}

/// Where the plan of a tree binds all harts, a cycle is a round of core runs, up to its first
/// fault, of those whose stages commit.
pub fn cycles_are_rounds()
    ensures { CyclesAreRounds }
{}

/// Where a plan binds all harts, a cycle without a fault leaves the control words that no node owns
/// as they were, but for the word that counts the words asked for.
pub fn unowned_words_stay()
    ensures { UnownedWordsStay }
{}

/// In a cycle in which nobody unites with others, a hart that leaves its stage has committed.
pub fn cycles_leave_apart()
    ensures { CyclesLeaveApart }
{}

/// The round that a cycle is where a plan binds all harts is allowed: a group in lockstep acts as a
/// whole, and where one of those who meet commits, all do, the same operation.
pub fn rounds_are_allowed()
    ensures { RoundsAreAllowed }
{}

/// A member at the block of a local operation or a request is at the distance of its commit.
pub fn members_stand_at_stages()
    ensures { MembersStandAtStages }
{}

/// A member at the block of a halt is at the distance of its commit.
pub fn members_halt_at_stages()
    ensures { MembersHaltAtStages }
{}

/// A member at the block of a joint operation is on its way to the arrival word of that operation.
pub fn meeters_set_out()
    ensures { MeetersSetOut }
{}

/// A member at the block of the beginning of `start`, in the root, is on its way to meet all others
/// there.
pub fn starters_set_out()
    ensures { StartersSetOut }
{}

/// A group at the block of a local operation or a request, whose members take the same branch, is
/// in lockstep.
pub fn groups_act_together()
    ensures { GroupsActTogether }
{}

/// A group is in lockstep at a step of the tree in which its members keep their node.
pub fn groups_step_together()
    ensures { GroupsStepTogether }
{}

/// A group is in lockstep at its end, be it that of `start` or a part, which leaves nobody at the
/// words of its node.
pub fn groups_end_together()
    ensures { GroupsEndTogether }
{}

/// A group is in lockstep at a split. It commits, or it faults, where there is no room for the
/// parts.
pub fn groups_divide_together()
    ensures { GroupsDivideTogether }
{}

/// The members of a part are in lockstep at a turn of a loop in which they may leave it.
pub fn groups_shrink_together()
    ensures { GroupsShrinkTogether }
{}

/// All who have met in the root at the beginning of `start` are in lockstep up to its commit.
pub fn groups_start_together()
    ensures { GroupsStartTogether }
{}
