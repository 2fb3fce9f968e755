//! Who becomes able when processors come to their next operations.

ghost use Rattle.std.specs.Prelude.{◌≡◌, ℕ, ◌<◌, List, [], ◌∷◌, length, Option};
ghost use Rattle.fk_tree.specs.declared.node.Kind.{Kind};
ghost use Rattle.fk_tree.specs.Tree.{below};
ghost use Rattle.fk_tree.specs.View.{tree_of, processors};
ghost use Rattle.fk_replay_rounds.specs.Modes.{mode_of};
ghost use Rattle.fk_replay_phases.specs.Modes.{HaveModes};
ghost use Rattle.fk_replay_phases.specs.Present.{numbers_of, AreBelow};
ghost use Rattle.fk_replay_able.specs.Able as able;
ghost use Rattle.fk_replay_arrivals.specs.Arrived.{HaveBegun, BecomesKnown, KnowsBehind};

use crate::arrived::{Arrived, one_more};
use fk_core::CoreOp;
use fk_meaning_operation::Joint;
use fk_replay_phases::{Acting, Actor, acting_in, joint_of};
use fk_replay_rounds::Mode;
use fk_replay_steps::Pace;
use fk_tree::Tree;

/// Whether a processor acts without waiting for other members of its node, or as one of a group.
fn waits_for_none(mode: Mode, joint: Joint) -> bool
    ensures { (kind : Option Kind) → mode ≡ mode_of kind
        → result ≡ able.waits_for_none kind joint }
{
    match mode {
        Mode::Group => true,
        Mode::Alone => joint == Joint::Alone || joint == Joint::AtBarrier,
        Mode::Apart => joint == Joint::Alone,
    }
}

/// All these could act from a round on.
fn begin_all(members: &[u32], round: u32, pace: &mut Pace)
    requires { AreBelow (length pace.old) members.now }
    ensures { HaveBegun members.now round pace.old pace.new }
{
    for member in members {
        pace.begin(*member, round);
    }
}

/// A processor comes to its next operation, before a round. All its members could act from this
/// round on if it is the last of those who meet for a joint operation.
fn arrive(
    ops: &[CoreOp],
    tree: &Tree,
    actors: &[Actor],
    number: u32,
    round: u32,
    pace: &mut Pace,
    arrived: &mut Vec<Arrived>,
)
    requires number { number < processors tree.now }
    requires actors { length actors.now ≡ processors tree.now }
    requires pace { length pace.old ≡ processors tree.now }
    requires arrived { length arrived.old.items ≡ processors tree.now }
    requires modes { HaveModes (tree_of tree.now) actors.now }
    ensures begun { BecomesKnown round pace.old pace.new }
    ensures many { length arrived.new.items ≡ length arrived.old.items }
    ensures known { (coming : List ℕ) → KnowsBehind ops.now (tree_of tree.now) actors.now
        (number ∷ coming) coming pace.old pace.new arrived.old.items arrived.new.items }
{
    let actor = &actors[number as usize];
    let Some(due) = actor.runner.due(ops) else {
        return;
    };
    let joint = joint_of(due.operation);
    if waits_for_none(actor.mode, joint) {
        pace.begin(number, round);
        return;
    }
    let place = acting_in(tree, number);
    let members = tree.members(place.node);
    if joint == Joint::Resuming {
        if tree.ready(place.node) && !pace.is_able(number) {
            begin_all(members, round, pace);
        }
        return;
    }
    let come = one_more(joint, &mut arrived[place.lowest as usize]);
    if come as usize == members.len() {
        begin_all(members, round, pace);
    }
}

/// All processors come to their first operations, before the first round.
pub fn tell_first(
    ops: &[CoreOp],
    tree: &Tree,
    actors: &[Actor],
    pace: &mut Pace,
    arrived: &mut Vec<Arrived>,
)
    requires actors { length actors.now ≡ processors tree.now }
    requires pace { length pace.old ≡ processors tree.now }
    requires arrived { length arrived.old.items ≡ processors tree.now }
    requires modes { HaveModes (tree_of tree.now) actors.now }
    ensures begun { BecomesKnown 1 pace.old pace.new }
    ensures many { length arrived.new.items ≡ length arrived.old.items }
    ensures known { KnowsBehind ops.now (tree_of tree.now) actors.now
        (below (processors tree.now) []) [] pace.old pace.new arrived.old.items arrived.new.items }
{
    for number in 0..actors.len() as u32 {
        arrive(ops, tree, actors, number, 1, pace, arrived);
    }
}

/// Those who were in a round come to their next operations.
pub fn tell(
    ops: &[CoreOp],
    acting: &[Acting],
    tree: &Tree,
    actors: &[Actor],
    round: u32,
    pace: &mut Pace,
    arrived: &mut Vec<Arrived>,
)
    requires acting { AreBelow (processors tree.now) (numbers_of acting.now) }
    requires actors { length actors.now ≡ processors tree.now }
    requires pace { length pace.old ≡ processors tree.now }
    requires arrived { length arrived.old.items ≡ processors tree.now }
    requires modes { HaveModes (tree_of tree.now) actors.now }
    ensures begun { BecomesKnown round pace.old pace.new }
    ensures many { length arrived.new.items ≡ length arrived.old.items }
    ensures known { KnowsBehind ops.now (tree_of tree.now) actors.now
        (numbers_of acting.now) [] pace.old pace.new arrived.old.items arrived.new.items }
{
    for member in acting {
        arrive(ops, tree, actors, member.number, round, pace, arrived);
    }
}
