//! Which processors fit together in a round.
//!
//! Those above a last one act wherever they are needed.

ghost use Rattle.std.specs.Prelude.{◌≡◌, ℕ, ◌<◌, ◌≤◌, length};
ghost use Rattle.fk_tree.specs.Tree as t;
ghost use Rattle.fk_tree.specs.Sound.{IsSound};
ghost use Rattle.fk_tree.specs.View.{tree_of, processors};
ghost use Rattle.fk_replay_rounds.specs.Modes.{mode_of};
ghost use Rattle.fk_replay_rounds.specs.Fits.{one_joins, all_join, all_have, joins_lowest};
ghost use Rattle.fk_replay_rounds.specs.Fits.{joins_by, fits_by, all_fit_below, AreThere};
ghost use Rattle.fk_replay_rounds.specs.declared.mode.Mode.TheVariants.{Group};
ghost use Rattle.fk_meaning_operation.specs.declared.kinds.Joint as kinds;
ghost use Rattle.fk_replay_phases.specs.Present.{AreBelow, present, acting_at, all_acting};
ghost use Rattle.fk_replay_phases.specs.Joints.{joint_at};
ghost use Rattle.fk_replay_phases.specs.Modes.{HaveModes};

use crate::acting::Acting;
use crate::actor::Actor;
use crate::joint::{is_same, joint_in};
use fk_core::CoreOp;
use fk_meaning_operation::Joint;
use fk_replay_rounds::Mode;
use fk_tree::Tree;

/// Whether a processor does a joint operation with count 1.
fn joins(
    ops: &[CoreOp],
    counts: &[u32],
    actors: &[Actor],
    last: u32,
    joint: Joint,
    number: u32,
) -> bool
    requires actor { number < length actors.now }
    requires count { number < length counts.now }
    ensures { result
        ≡ one_joins counts.now last (joint_at ops.now actors.now last) joint number }
{
    let above = number > last;
    let joined = joint_in(ops, &actors[number as usize], above);
    (above || counts[number as usize] == 1) && is_same(joint, joined)
}

/// Whether all of some members do a joint operation with count 1.
fn all_join(
    ops: &[CoreOp],
    counts: &[u32],
    actors: &[Actor],
    last: u32,
    joint: Joint,
    members: &[u32],
) -> bool
    requires actors { AreBelow (length actors.now) members.now }
    requires counts { AreBelow (length counts.now) members.now }
    ensures { result
        ≡ all_join counts.now last (joint_at ops.now actors.now last) joint members.now }
{
    for member in members {
        if !joins(ops, counts, actors, last, joint, *member) {
            return false;
        }
    }
    true
}

/// Whether all of some members have one count.
fn all_have(counts: &[u32], last: u32, count: u32, members: &[u32]) -> bool
    requires counts { AreBelow (length counts.now) members.now }
    ensures { result ≡ all_have counts.now last count members.now }
{
    for member in members {
        if *member <= last && counts[*member as usize] != count {
            return false;
        }
    }
    true
}

/// Whether a member of a group fits to its lowest member, and the lowest member to all.
fn fits_group(tree: &Tree, counts: &[u32], last: u32, acting: Acting) -> bool
    requires sound { IsSound (processors tree.now) (tree_of tree.now) }
    requires counts { length counts.now ≡ processors tree.now }
    requires number { acting.number < processors tree.now }
    requires acting { acting ≡ acting_at (tree_of tree.now) acting.number }
    // This holds whatever joint operations they do.
    ensures { (joint : ℕ → kinds.Joint) → result ≡ fits_by counts.now last joint
        (tree_of tree.now) acting.number acting.node Group }
{
    let count = counts[acting.number as usize];
    if acting.number == acting.lowest {
        all_have(counts, last, count, tree.members(acting.node))
    } else {
        counts[acting.lowest as usize] == count
    }
}

/// Whether a processor joins the lowest member of its node in an operation, and the lowest member
/// joins all.
fn joins_lowest(
    ops: &[CoreOp],
    tree: &Tree,
    counts: &[u32],
    actors: &[Actor],
    last: u32,
    joint: Joint,
    acting: Acting,
) -> bool
    requires sound { IsSound (processors tree.now) (tree_of tree.now) }
    requires counts { length counts.now ≡ processors tree.now }
    requires actors { length actors.now ≡ processors tree.now }
    requires number { acting.number < processors tree.now }
    requires acting { acting ≡ acting_at (tree_of tree.now) acting.number }
    ensures { result ≡ joins_lowest counts.now last (joint_at ops.now actors.now last)
        (tree_of tree.now) acting.number acting.node joint }
{
    if acting.number == acting.lowest {
        all_join(ops, counts, actors, last, joint, tree.members(acting.node))
    } else {
        joins(ops, counts, actors, last, joint, acting.lowest)
    }
}

/// Whether a processor that isn't in a group fits to the lowest member of its node, and the lowest
/// member to all. In the body of a `seq` the lowest member alone comes to barriers.
fn fits_apart(
    ops: &[CoreOp],
    tree: &Tree,
    counts: &[u32],
    actors: &[Actor],
    last: u32,
    is_alone: bool,
    acting: Acting,
) -> bool
    requires sound { IsSound (processors tree.now) (tree_of tree.now) }
    requires counts { length counts.now ≡ processors tree.now }
    requires actors { length actors.now ≡ processors tree.now }
    requires number { acting.number < processors tree.now }
    requires low { acting.number ≤ last }
    requires acting { acting ≡ acting_at (tree_of tree.now) acting.number }
    ensures { result ≡ joins_by counts.now last (joint_at ops.now actors.now last)
        (tree_of tree.now) acting.number acting.node is_alone
        (joint_at ops.now actors.now last acting.number) }
{
    let joint = joint_in(ops, &actors[acting.number as usize], false);
    match joint {
        Joint::Alone => true,
        Joint::Resuming => {
            tree.ready(acting.node) && joins_lowest(ops, tree, counts, actors, last, joint, acting)
        }
        Joint::AtBarrier if is_alone => { joins(ops, counts, actors, last, joint, acting.lowest) }
        _ => joins_lowest(ops, tree, counts, actors, last, joint, acting),
    }
}

/// Whether a processor fits to the lowest member of its node, and the lowest member to all.
fn fits(
    ops: &[CoreOp],
    tree: &Tree,
    counts: &[u32],
    actors: &[Actor],
    last: u32,
    acting: Acting,
) -> bool
    requires sound { IsSound (processors tree.now) (tree_of tree.now) }
    requires counts { length counts.now ≡ processors tree.now }
    requires actors { length actors.now ≡ processors tree.now }
    requires number { acting.number < processors tree.now }
    requires low { acting.number ≤ last }
    requires acting { acting ≡ acting_at (tree_of tree.now) acting.number }
    requires modes { HaveModes (tree_of tree.now) actors.now }
    ensures { result ≡ fits_by counts.now last (joint_at ops.now actors.now last)
        (tree_of tree.now) acting.number acting.node
        (mode_of (t.kind (tree_of tree.now) acting.node)) }
{
    match actors[acting.number as usize].mode {
        Mode::Group => fits_group(tree, counts, last, acting),
        Mode::Alone => fits_apart(ops, tree, counts, actors, last, true, acting),
        Mode::Apart => fits_apart(ops, tree, counts, actors, last, false, acting),
    }
}

/// Whether all who act fit together.
pub fn all_fit(
    ops: &[CoreOp],
    tree: &Tree,
    counts: &[u32],
    actors: &[Actor],
    acting: &[Acting],
    last: u32,
) -> bool
    requires counts { length counts.now ≡ processors tree.now }
    requires actors { length actors.now ≡ processors tree.now }
    requires acting { acting.now ≡ all_acting (tree_of tree.now) (present 0 counts.now) }
    requires modes { HaveModes (tree_of tree.now) actors.now }
    requires there { AreThere counts.now last (joint_at ops.now actors.now last)
        (tree_of tree.now) (processors tree.now) }
    ensures { result ≡ all_fit_below counts.now last (joint_at ops.now actors.now last)
        (tree_of tree.now) 0 counts.now }
{
    for member in acting {
        if !fits(ops, tree, counts, actors, last, *member) {
            return false;
        }
    }
    true
}
