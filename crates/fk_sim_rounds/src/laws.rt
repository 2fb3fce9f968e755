//! Laws of rounds: after each round the plan of the tree binds all harts again.

ghost use Rattle.fk_sim_rounds.specs.InRange.{ListsStayInRange};
ghost use Rattle.fk_sim_rounds.specs.Programs.{ProgramsAreFollowed};
ghost use Rattle.fk_sim_rounds.specs.Comes.{MembersComeToStages, GroupsComeToCommits};
ghost use Rattle.fk_sim_rounds.specs.Cycle.{CyclesBindAgain};
ghost use Rattle.fk_sim_rounds.specs.Program.{GroupsHaveNext};
ghost use Rattle.fk_sim_rounds.specs.Start.{CyclesComeToStart, RoundsStart};
ghost use Rattle.fk_sim_rounds.specs.Unite.{CyclesUnite};
ghost use Rattle.fk_sim_rounds.specs.Rest.{KnownRoundsKeepGroups, EndedGroupsRest};
ghost use Rattle.fk_sim_rounds.specs.Rounds.{RoundsBindAgain};
ghost use Rattle.fk_sim_rounds.specs.Beside.{LandedRunsAreRuns};
ghost use Rattle.fk_sim_rounds.specs.Results.{CyclesAreResults, CutsAreFaults};
ghost use Rattle.fk_sim_rounds.specs.Homes.{HomesStay, HomesGoOn, HomesBegin};
ghost use Rattle.fk_sim_rounds.specs.Machines.{MachinesFollowRounds, MachinesFollowStarts};
ghost use Rattle.fk_sim_rounds.specs.Transport.{OtherSpacesDontMatter, UnitedSpacesDontMatter};
ghost use Rattle.fk_sim_rounds.specs.RestInRuns.{OpeningsAreReady, CyclesStayReady};
ghost use Rattle.fk_sim_rounds.specs.RestInRuns.{StartsStayReady};
ghost use Rattle.fk_sim_rounds.specs.Starts.{CyclesFollowStarts};
ghost use Rattle.fk_sim_rounds.specs.Follow.{CyclesFollowRounds, HartsEndWithProcessors};

/// A machine that follows the core runs of a list follows the runs of a program whose code is in
/// the list.
pub fn programs_are_followed()
    ensures { ProgramsAreFollowed }
{
    fk_core::laws::flat_lists_keep_runs();
}

/// In every run of a list, one with groups included, the values and variables of each processor are
/// words, it has taken no more of its private heap than there is, and it is in fewer than 256
/// calls.
///
/// This holds after every schedule of 1,024 processors at most, whose globals, first values and
/// input are words, with room for globals and input in one half of shared data.
pub fn lists_stay_in_range()
    ensures { ListsStayInRange }
{}

/// A member by itself that has committed comes to the stage of its next operation, by a jump or
/// straight: at a distance of at most 254 from its commit, of 251 from the word where it meets
/// others, or of 211 from the one where it unites with them.
pub fn members_come_to_stages()
    ensures { MembersComeToStages }
{}

/// Members in lockstep that have committed come together to their next common commit.
pub fn groups_come_to_commits()
    ensures { GroupsComeToCommits }
{}

/// Members of a group that have one program (`fk_lockstep`) are about to do one operation, and take
/// the same branch.
pub fn groups_have_next()
    ensures { GroupsHaveNext }
{}

/// Where the plan of a tree binds all harts before the cycle in which the last of all processors
/// leaves the word where they meet at the beginning of `start`, nobody acts in that round, and
/// after it all are in the root, in lockstep.
pub fn cycles_unite()
    ensures { CyclesUnite }
{}

/// Where the plan binds those who have met for a `start` in the root, in lockstep, before a cycle,
/// the cycle is a round of the counts that the stages tell, up to its first fault. Either nobody
/// acts in it, and all are one cycle nearer to their commit, or all act.
pub fn cycles_come_to_start()
    ensures { CyclesComeToStart }
{}

/// After the round in which the group of `start` begins the plan binds all harts again.
pub fn rounds_start()
    ensures { RoundsStart }
{}

/// Where the plan of a tree binds all harts before a cycle that is a known round, the plan of the
/// next tree binds them after it. In such a round each node of the tree takes one step or none,
/// whatever the others do.
pub fn rounds_bind_again()
    ensures { RoundsBindAgain }
{}

/// After a known round there are groups still, unless the round ends one.
pub fn known_rounds_keep_groups()
    ensures { KnownRoundsKeepGroups }
{}

/// Nobody is left at the control words of a group that ends: they are 0.
pub fn ended_groups_rest()
    ensures { EndedGroupsRest }
{}

/// The invariant holds from one cycle of the machine to the next, where nobody unites with others.
/// The cycle is a round of the counts that the stages tell, up to its first fault. If that is a
/// known round, the plan binds all harts again.
pub fn cycles_bind_again()
    ensures { CyclesBindAgain }
{}

/// It doesn't matter whether processors are at jumps or at the operations that these lead to: a
/// round leaves the same.
pub fn landed_runs_are_runs()
    ensures { LandedRunsAreRuns }
{}

/// Where all parts of a round pass, one after another, the state of the run after that round
/// matches what they leave: it has their tree, their stores, and their processors after the steps
/// of the tree.
pub fn cycles_are_results()
    ensures { CyclesAreResults }
{}

/// Where one part of a round faults, that is the fault of the round, and of the round without the
/// processors above it.
pub fn cuts_are_faults()
    ensures { CutsAreFaults }
{}

/// After a known round each processor has the size and space of its group, and of the groups around
/// it, that the tree has at its node and at that node's parents, if it had them before.
pub fn homes_stay()
    ensures { HomesStay }
{}

/// After the round in which the group of `start` begins each processor has the sizes and spaces
/// that the tree has, if it had them before. That group has the root's space.
pub fn homes_begin()
    ensures { HomesBegin }
{}

/// Of processors that have the sizes and spaces of the tree, and go on, only their next operations
/// have to be known.
pub fn homes_go_on()
    ensures { HomesGoOn }
{}

/// From one cycle to the next a machine follows a run. Where the plan of a state's tree binds the
/// harts of the processors that match it, the cycle is the round of those whose stages commit. That
/// round is possible, or a stopped one. If it is a known one, and the processors go on, the machine
/// follows the next state too. Otherwise nobody acts in the round, because all processors have met
/// at the beginning of `start`, and after it they are in lockstep there.
pub fn cycles_follow_rounds()
    ensures { CyclesFollowRounds }
{}

/// Where all have met at the beginning of `start`, they come nearer to their commit by rounds in
/// which nobody acts, and then to the one in which the group begins. The machine follows the state
/// after that round.
pub fn cycles_follow_starts()
    ensures { CyclesFollowStarts }
{}

/// All harts of a machine that follows a state have ended exactly where all its processors have
/// nothing left to do.
pub fn harts_end_with_processors()
    ensures { HartsEndWithProcessors }
{}

/// A machine follows a run cycle by cycle. The round that is read off a cycle is possible, and the
/// machine has finished after it exactly where the run has; or it is stopped, and its fault ends
/// the machine; or all have met at the beginning of `start`.
pub fn machines_follow_rounds()
    ensures { MachinesFollowRounds }
{}

/// Where all processors have met at the beginning of `start`, the machine goes on to the round in
/// which the group begins, and follows the state after it.
pub fn machines_follow_starts()
    ensures { MachinesFollowStarts }
{}

/// What a machine follows depends on the spaces of nodes that are there alone: it follows the state
/// as well where other numbers have other spaces.
pub fn other_spaces_dont_matter()
    ensures { OtherSpacesDontMatter }
{}

/// The same holds where all processors have met at the beginning of `start`.
pub fn united_spaces_dont_matter()
    ensures { UnitedSpacesDontMatter }
{}

/// At the beginning nobody is at the control words of the group to come.
pub fn openings_are_ready()
    ensures { OpeningsAreReady }
{}

/// As long as there is no group, nobody comes to the control words of the one to come; and nobody
/// is left there when a group ends. Each cycle of a machine that follows a state therefore leaves
/// them ready, where groups come one at a time and have one header.
pub fn cycles_stay_ready()
    ensures { CyclesStayReady }
{}

/// Nobody is at the control words of a group in the cycle in which `start` begins it.
pub fn starts_stay_ready()
    ensures { StartsStayReady }
{}
