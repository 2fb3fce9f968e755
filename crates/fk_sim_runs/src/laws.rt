//! Laws of lists whose processors go through groups, parts and bodies, and of machines that follow
//! their core runs.

ghost use Rattle.fk_sim_runs.specs.Reached.{RunsReach};
ghost use Rattle.fk_sim_runs.specs.Begins.{UnitersBegin, ReachedBeginnersAreInRoot};
ghost use Rattle.fk_sim_runs.specs.Begins.{ReachedBeginnersLandAtOneIndex, ReachedWaitersResume};
ghost use Rattle.fk_sim_runs.specs.Behind.{UnitedHadNext, RunsReachRounds, ReachedRoundsGoOn};
ghost use Rattle.fk_sim_runs.specs.Behind.{ReachedStagesGoOn};
ghost use Rattle.fk_sim_runs.specs.Facts.{ReachedTreesHaveSpaces, ReachedProcessorsHaveNext};
ghost use Rattle.fk_sim_runs.specs.Facts.{ReachedStatesHaveNests, ReachedGroupsHaveNext};
ghost use Rattle.fk_sim_runs.specs.Facts.{ReachedRoundsAreKnown, ReachedRangesStay};
ghost use Rattle.fk_sim_runs.specs.Levels.{LevelsAreTold};
ghost use Rattle.fk_sim_runs.specs.Ready.{ReachedCyclesStayReady, ReachedStartsFindHeaders};
ghost use Rattle.fk_sim_runs.specs.Opening.{OpeningsAreFollowed};
ghost use Rattle.fk_sim_runs.specs.Pace.{PacesGoOn, PacesAreKept};
ghost use Rattle.fk_sim_runs.specs.Turning.{PlansTurn, UnionsTurn, UnitedTurn};
ghost use Rattle.fk_sim_runs.specs.Able.{WhoCouldActWill, WhoHasUnitedWill};
ghost use Rattle.fk_sim_runs.specs.Runs.{MachinesFollowGroupRuns, OrderlyRoundsGoFurther};
ghost use Rattle.fk_sim_runs.specs.Runs.{UnionsGoFurther, StartsGoFurther};
ghost use Rattle.fk_sim_runs.specs.Follow.{MachinesFollowTrees};

/// After every schedule of possible rounds in which each processor does one operation at most, each
/// processor is at an index of the list or at its end, may do its next operation, and its values
/// and variables are words.
pub fn runs_reach()
    ensures { RunsReach }
{
    fk_sim_rounds::laws::lists_stay_in_range();
}

/// The tree of a reached state is sound, and its nodes own words apart: those that their lowest
/// members tell.
pub fn reached_trees_have_spaces()
    ensures { ReachedTreesHaveSpaces }
{}

/// The words of a node are the same after a round, if it is still there.
pub fn reached_ranges_stay()
    ensures { ReachedRangesStay }
{}

/// In every run of a list in which only groups split a processor has as many levels around its own
/// as its calls are in parts.
pub fn levels_are_told()
    ensures { LevelsAreTold }
{}

/// In every run each processor has the nests that its position tells, where the list tells them.
/// The words of its groups are spaces, and the frames of its calls begin where the nests say.
pub fn reached_states_have_nests()
    ensures { ReachedStatesHaveNests }
{}

/// A processor that isn't at its end in a reached state is about to do an operation by itself, with
/// those whom it meets at a word of its node, or with its group in lockstep.
pub fn reached_processors_have_next()
    ensures { ReachedProcessorsHaveNext }
{}

/// The members of a group in lockstep are about to do one operation, and take the same branch.
pub fn reached_groups_have_next()
    ensures { ReachedGroupsHaveNext }
{}

/// In a round of a machine all begin the group of a `start`; or at each node nobody changes the
/// tree, or all members do one step: they go on after the parts for which they wait, come to a
/// body, end it, divide, leave a loop or stay in it, or end.
pub fn reached_rounds_are_known()
    ensures { ReachedRoundsAreKnown }
{}

/// A hart at a stage in which it is to unite with others is about to begin the group of a `start`.
pub fn uniters_begin()
    ensures { UnitersBegin }
{}

/// Where all have united at the beginning of a `start`, all have something left to do.
pub fn united_had_next()
    ensures { UnitedHadNext }
{}

/// A processor that is about to begin the group of a `start` in a reached state is in the root,
/// with its level and the whole group space.
pub fn reached_beginners_are_in_root()
    ensures { ReachedBeginnersAreInRoot }
{}

/// Where all are about to begin the group of a `start`, jumps lead all to one index.
pub fn reached_beginners_land_at_one_index()
    ensures { ReachedBeginnersLandAtOneIndex }
{}

/// A processor that waits for parts is about to go on after them.
pub fn reached_waiters_resume()
    ensures { ReachedWaitersResume }
{}

/// In a run both states of its last round are reached states.
pub fn runs_reach_rounds()
    ensures { RunsReachRounds }
{
    runs_reach();
}

/// After a round of a machine the tree is sound and its nodes own words apart, who enters a part
/// has those of its node, and a processor that has committed goes on, by itself and in its group.
pub fn reached_rounds_go_on()
    ensures { ReachedRoundsGoOn }
{}

/// Where stages tell what each processor is about to do, the tree is sound after the round, those
/// who have committed go on, and nobody begins the group of a `start`.
pub fn reached_stages_go_on()
    ensures { ReachedStagesGoOn }
{}

/// In a state without a group nobody is at the control words of the one to come, which begin with
/// the group space, and a cycle of a machine that follows such a state keeps this.
pub fn reached_cycles_stay_ready()
    ensures { ReachedCyclesStayReady }
{}

/// Where all have met at the beginning of `start`, the group that is to begin finds its words at 0,
/// and has all of the group space.
pub fn reached_starts_find_headers()
    ensures { ReachedStartsFindHeaders }
{}

/// A machine of an image that has the law of blocks of groups follows the core run from its first
/// cycle on: each of its harts is at most 254 private instructions before its first commit, 251
/// before it arrives where it meets others, or 211 at `start`. No word of the global heap has been
/// asked for.
pub fn openings_are_followed()
    ensures { OpeningsAreFollowed }
{}

/// A processor that could act since some round is in one of the rounds since, or is to commit, with
/// all whom it meets, within 254 cycles of that round. One round more keeps this, if its cycle goes
/// from one view of the harts to the next, and each processor that could act after it is to commit
/// within 254 cycles.
pub fn paces_go_on()
    ensures { PacesGoOn }
{}

/// A processor that could act before each of 256 rounds acts in one of them, also where a fault
/// ends the last of these.
pub fn paces_are_kept()
    ensures { PacesAreKept }
{}

/// Where a plan goes on after a cycle, and all who have committed are at stages in time, all are: a
/// hart at a distance from its commit is one cycle nearer, and those who meet at a word have moved.
pub fn plans_turn<S, P, D>()
    ensures { PlansTurn S P D }
{}

/// After the cycle in which all leave the word where they meet at the beginning of `start` they are
/// in time, fewer than 40 cycles from their common commit, and nobody meets others.
pub fn unions_turn()
    ensures { UnionsTurn }
{}

/// From the cycle in which all leave the word where they meet at the beginning of `start`, to their
/// commit, nobody meets others.
pub fn united_turn()
    ensures { UnitedTurn }
{}

/// Where the plan of a state's tree binds all harts, at stages in time, a processor that could act
/// in that state is to commit within 254 cycles: it is near its commit, or all whom it meets have
/// entered, and have time to leave.
pub fn who_could_act_will()
    ensures { WhoCouldActWill }
{}

/// A processor that could act is to commit within 254 cycles also where all have met at the
/// beginning of `start`, and are in lockstep in the root.
pub fn who_has_united_will()
    ensures { WhoHasUnitedWill }
{}

/// A machine of an image that has the law of blocks of groups follows a lawful schedule of the
/// list's core runs, one round for each cycle, in which a processor that could act acts within any
/// 256 rounds. Its output, shared data and status, a fault at a site included, are those of that
/// core run. This holds where each cycle goes further (`AlwaysGoesFurther`), as it does in runs of
/// lists whose processors go through groups.
pub fn machines_follow_group_runs()
    ensures { MachinesFollowGroupRuns }
{}

/// A cycle goes further where its round is a known one, the tree after it is sound, its processors
/// go on (`IsBehind`), and its harts are in time: they are in time after it, and those who meet
/// have moved.
pub fn orderly_rounds_go_further()
    ensures { OrderlyRoundsGoFurther }
{}

/// The cycle in which all have met at the beginning of `start` goes further, if jumps lead all to
/// one index.
pub fn unions_go_further()
    ensures { UnionsGoFurther }
{}

/// Each cycle, from the one in which all have met at the beginning of `start` to the one in which
/// the group begins, goes further, if nobody is at the group's words, and the group has the whole
/// group space.
pub fn starts_go_further()
    ensures { StartsGoFurther }
{}

/// A machine of an image that has the law of blocks of groups follows a lawful schedule of the core
/// runs of a list whose processors go through groups, parts and bodies, one round for each cycle,
/// in which a processor that could act acts within any 256 rounds. Its output, shared data and
/// status, a fault at a site included, are those of that core run.
///
/// This holds for every input, 1 to 1,024 harts and every number of cycles.
pub fn machines_follow_trees()
    ensures { MachinesFollowTrees }
{
    runs_reach();
    runs_reach_rounds();
}
