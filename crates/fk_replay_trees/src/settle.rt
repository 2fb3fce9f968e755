//! What the steps of a round do to the members of their nodes.

ghost use Rattle.std.specs.Prelude.{◌≡◌, ◌^◌, ◌<◌, ◌==◌, length, vec_len, Some, OnOk};
ghost use Rattle.fk_tree.specs.Tree as t;
ghost use Rattle.fk_tree.specs.Sound.{IsSound};
ghost use Rattle.fk_tree.specs.View.{tree_of, processors};
ghost use Rattle.fk_replay_rounds.specs.Own.{AreOwn};
ghost use Rattle.fk_replay_phases.specs.Present.{AreHighBelow, all_acting, numbers_of};
ghost use Rattle.fk_replay_phases.specs.Actors.{AreInRound, AreReady, IsReady, runners_of};
ghost use Rattle.fk_replay_trees.specs.Changes.{ModesFollow};
ghost use Rattle.fk_replay_trees.specs.Settled.{HasSettled, HaveSettled};

use crate::change::last_of;
use crate::modes::mode_after;
use fk_core::CoreOp;
use fk_replay_phases::{Acting, Actor};
use fk_replay_steps::{Due, does, goes_onward};
use fk_tree::Tree;
use std::alloc::AllocError;

/// A member does its own part of the step that it took.
fn settle(
    ops: &[CoreOp],
    acting: Acting,
    due: Due,
    highest: u32,
    size: u32,
    actor: &mut Actor,
) -> Result<(), AllocError>
    requires few { length ops.now < 2 ^ 32 }
    requires taken { actor.old.taken ≡ Some due }
    requires ready { IsReady ops.now actor.old }
    ensures settled { OnOk result (HasSettled ops.now highest acting.lowest size
        (acting.node == 0) actor.old actor.new) }
{
    let operation = due.operation;
    let onward = goes_onward(operation, highest, acting.lowest, &actor.runner.processor);
    does(operation, highest, size, &mut actor.runner.processor)?;
    actor.mode = mode_after(operation, onward, acting.node == 0, actor.mode);
    actor.runner.pass(ops, due, onward)?;
    actor.taken = None;
    Ok(())
}

/// Each member does its own part of a step, in the group that it has in the new tree. The
/// processors in the round are given by the tree before it.
pub fn settle_all(
    ops: &[CoreOp],
    acting: &[Acting],
    tree: &Tree,
    actors: &mut Vec<Actor>,
) -> Result<(), AllocError>
    requires few { length ops.now < 2 ^ 32 }
    requires many { vec_len actors.old ≡ processors tree.now }
    requires in_round { AreInRound acting.now actors.old.items }
    requires high { AreHighBelow (vec_len actors.old) acting.now }
    requires own { AreOwn (runners_of actors.old.items) }
    requires ready { AreReady ops.now actors.old.items }
    // This holds for the tree before the round.
    ensures settled { (old : t.Tree) → IsSound (vec_len actors.old) old
        → acting.now ≡ all_acting old (numbers_of acting.now)
        → ModesFollow old (tree_of tree.now) actors.old.items
        → OnOk result (HaveSettled ops.now old (tree_of tree.now)
        actors.old.items actors.new.items) }
{
    for member in acting {
        let number = member.number as usize;
        if let Some(due) = actors[number].taken {
            let highest = last_of(actors, member.highest);
            let size = tree.members(tree.node_of(member.number)).len() as u32;
            settle(ops, *member, due, highest, size, &mut actors[number])?;
        }
    }
    Ok(())
}
