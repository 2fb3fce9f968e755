//! Laws of nodes and of members who meet at an arrival word. Those that tell what turns stand for
//! hold for every form of stores `S`, of processors `P`, and of what a processor's part in a round
//! makes of it, `D`.

ghost use Rattle.fk_sim_nodes.specs.Whole.{ChainsAreTheCycle};
ghost use Rattle.fk_sim_nodes.specs.Alone.{PrivateRunsAreNodeRuns, NodeRunsJoin};
ghost use Rattle.fk_sim_nodes.specs.Together.{NodeCyclesAreCommits, MembersComeNearer};
ghost use Rattle.fk_sim_nodes.specs.Together.{RunsLeadToCommits, MembersRestOnOwnWords};
ghost use Rattle.fk_sim_nodes.specs.Together.{MovesAreChains, LowestFaultsForAll};
ghost use Rattle.fk_sim_nodes.specs.OneHart.{MembersDoAsEach};
ghost use Rattle.fk_sim_nodes.specs.OnePlace.{PrivateOfAll, LoadsOfAll, StoresOfAll, AddsOfAll};
ghost use Rattle.fk_sim_nodes.specs.Meeting.{CyclesKeepArrivals, MembersLeaveTogether};
ghost use Rattle.fk_sim_nodes.specs.Meeting.{LastArrivalFreesAll, MembersMaySetOut};
ghost use Rattle.fk_sim_nodes.specs.Meeting.{WordsOpenAtZero};

/// The chains of all nodes together are the whole cycle: all processors take part in ascending
/// number, and each node comes to what its own chain says; or the cycle ends with the first fault
/// of a part, and no hart above is served.
///
/// A chain tells what the members of a node do from its own words alone, whatever the harts of
/// other nodes do in between. No word belongs to two nodes.
pub fn chains_are_the_cycle<S, P, D>()
    ensures { ChainsAreTheCycle S P D }
{}

/// Members at any places that each have equally many private instructions to go run them together,
/// in as many cycles, and leave their node's words as they are. What an instruction does may depend
/// on the number of the hart and on the cycle.
pub fn private_runs_are_node_runs()
    ensures { PrivateRunsAreNodeRuns }
{}

/// Two runs of a node, one from where the other ends, are one.
pub fn node_runs_join()
    ensures { NodeRunsJoin }
{}

/// A cycle in which members touch their node's words alone is a commit with its count, where their
/// processors' parts with this count make no request.
pub fn node_cycles_are_commits<S, P, D>()
    ensures { NodeCyclesAreCommits S P D }
{}

/// Members some cycles before their common commit are not in the round of this cycle, and are one
/// cycle nearer to the commit in the next.
pub fn members_come_nearer<S, P, D>()
    ensures { MembersComeNearer S P D }
{}

/// A run of a node leads its members to their commit. Where they go on for some cycles after one
/// commit, and are then some cycles before the next, they are now as far from it as both together.
pub fn runs_lead_to_commits<S, P, D>()
    ensures { RunsLeadToCommits S P D }
{}

/// What members do depends on their node's own words alone. A node goes on as it was when other
/// words are put beside its own.
pub fn members_rest_on_own_words<S, P, D>()
    ensures { MembersRestOnOwnWords S P D }
{}

/// Members whose turns are of some kind, on whatever words of the node they find, have a chain of
/// such turns.
pub fn moves_are_chains<S, P, D>()
    ensures { MovesAreChains S P D }
{}

/// Where the lowest member of a group faults, the cycle is cut there for the whole group.
pub fn lowest_faults_for_all<S, P, D>()
    ensures { LowestFaultsForAll S P D }
{}

/// Members that each do an operation by themselves, with equally many private instructions before
/// the commit and equally many after it, do it together. What is proved of one hart therefore holds
/// of a group. Their requests come in ascending number, and the node's words stay.
pub fn members_do_as_each<S, P, D>()
    ensures { MembersDoAsEach S P D }
{}

/// What members make of their harts and of their node's words in a cycle in which they are all at
/// one instruction: one that touches only its hart; a load (`lw`), a store (`sw`) or an addition
/// (`amoadd.w`) at words that the node owns, which may differ.
pub fn members_at_one_place()
    ensures private { PrivateOfAll }
    ensures loads { LoadsOfAll }
    ensures stores { StoresOfAll }
    ensures adds { AddsOfAll }
{}

/// A cycle keeps the count of those who have arrived. Where one member leaves, all do, and all had
/// arrived. Once all have entered, each cycle brings them one cycle nearer to it.
pub fn cycles_keep_arrivals()
    ensures { CyclesKeepArrivals }
{}

/// Members that have all entered, and have time for it in k cycles, all leave in one of these, in
/// the same, and none before.
pub fn members_leave_together()
    ensures { MembersLeaveTogether }
{}

/// All members leave in the same cycle, and none before. It is at most two cycles, and the steps
/// from poll to leaving, after that in which the last of them arrives.
pub fn last_arrival_frees_all()
    ensures { LastArrivalFreesAll }
{}

/// Members may set out between two cycles.
pub fn members_may_set_out()
    ensures { MembersMaySetOut }
{}

/// A word of 0 may get members, none of whom has arrived.
pub fn words_open_at_zero()
    ensures { WordsOpenAtZero }
{}
