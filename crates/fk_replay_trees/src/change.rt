//! What the steps of a round do to the tree.

ghost use Rattle.std.specs.Prelude.{◌≡◌, ◌+◌, ◌^◌, ◌<◌, ◌≤◌, List, map, min, length, OnOk, IfOk};
ghost use Rattle.std.specs.Prelude.{Some, false};
ghost use Rattle.fk_tree.specs.Tree as t;
ghost use Rattle.fk_tree.specs.Sound.{IsSound};
ghost use Rattle.fk_tree.specs.declared.node.Kind.TheVariants.{Lockstep};
ghost use Rattle.fk_tree.specs.View.{tree_of, processors};
ghost use Rattle.fk_meaning.specs.Processor as p;
ghost use Rattle.fk_meaning.specs.Group as g;
ghost use Rattle.fk_meaning.specs.Told.{number_of};
ghost use Rattle.fk_meaning.specs.Round.{lowest, all_changes};
ghost use Rattle.fk_core.specs.declared.op.CoreOp as code;
ghost use Rattle.fk_replay_phases.specs.Present.{AreBelow, all_acting, numbers_of};
ghost use Rattle.fk_replay_rounds.specs.Own.{AreOwn};
ghost use Rattle.fk_replay_phases.specs.Actors.{AreInRound, actings_of, runners_of};
ghost use Rattle.fk_replay_trees.specs.Changes.{has_of, HaveParts, CanStep, CanChange};

use fk_meaning::laws::lists_tell_members;
use fk_meaning_operation::{Operation, SplitKind};
use fk_replay_phases::{Acting, Actor};
use fk_replay_steps::{last, not_negative, part, parts, stays};
use fk_tree::Tree;
use std::alloc::{AllocError, Global};

/// The last value of a processor.
pub(crate) fn last_of(actors: &[Actor], number: u32) -> u32
    requires { number < length actors.now }
    ensures { result ≡ p.last (p.values (has_of actors.now number)) }
{
    last(&actors[number as usize].runner.processor)
}

/// The parts into which the members of a node go. Those who wait have the number of the parts.
fn parts_of(
    alloc: Global,
    by: SplitKind,
    count: u32,
    members: &[u32],
    actors: &[Actor],
) -> Result<Vec<u32>, AllocError>
    requires members { AreBelow (length actors.now) members.now }
    ensures { IfOk result (λ of. of.items
        ≡ map (λ h. number_of count (g.part by (p.values (has_of actors.now h)))) members.now) }
{
    let mut of = Vec::new(alloc);
    for member in members {
        let part = part(by, &actors[*member as usize].runner.processor);
        of.push(part.unwrap_or(count))?;
    }
    Ok(of)
}

/// Whether each member of a node stays in a loop.
fn stays_of(alloc: Global, members: &[u32], actors: &[Actor]) -> Result<Vec<bool>, AllocError>
    requires members { AreBelow (length actors.now) members.now }
    ensures { IfOk result (λ stay. stay.items
        ≡ map (λ h. g.stays (has_of actors.now h)) members.now) }
{
    let mut stay = Vec::new(alloc);
    for member in members {
        stay.push(stays(&actors[*member as usize].runner.processor))?;
    }
    Ok(stay)
}

/// A `start` of the processors below the last value of the highest one.
fn start(alloc: Global, acting: Acting, actors: &[Actor], tree: &mut Tree) -> Result<(), AllocError>
    requires idle { t.is_waiting (t.kind (tree_of tree.old) 0) ≡ false }
    requires root { acting.node ≡ 0 }
    requires highest { acting.highest < length actors.now }
    requires given { (tree_of tree.old).given + 1 < 2 ^ 63 }
    ensures tree { OnOk result (tree_of tree.new ≡ t.begin
        (min (g.not_negative (p.last (p.values (has_of actors.now acting.highest))))
        (length (t.members (tree_of tree.old) acting.node))) (tree_of tree.old)) }
    ensures processors { processors tree.new ≡ processors tree.old }
{
    let most = tree.members(acting.node).len() as u32;
    let count = not_negative(last_of(actors, acting.highest)).min(most);
    tree.begin(alloc, count)?;
    Ok(())
}

/// The members of a group go into parts, or wait.
fn split(
    alloc: Global,
    by: SplitKind,
    acting: Acting,
    actors: &[Actor],
    tree: &mut Tree,
) -> Result<(), AllocError>
    requires lockstep { t.kind (tree_of tree.old) acting.node ≡ Some Lockstep }
    requires many { length actors.now ≡ processors tree.old }
    requires lowest { acting.lowest ≡ lowest (t.members (tree_of tree.old) acting.node) }
    requires low { acting.lowest < length actors.now }
    requires divide { HaveParts (tree_of tree.old) actors.now acting.node by }
    requires given { (tree_of tree.old).given
        + g.parts by (p.values (has_of actors.now acting.lowest)) < 2 ^ 63 }
    ensures tree { OnOk result (tree_of tree.new ≡ t.split acting.node
        (g.parts by (p.values (has_of actors.now acting.lowest)))
        (λ h. g.part by (p.values (has_of actors.now h))) (tree_of tree.old)) }
    ensures processors { processors tree.new ≡ processors tree.old }
{
    let count = parts(by, &actors[acting.lowest as usize].runner.processor);
    let of = parts_of(alloc, by, count, tree.members(acting.node), actors)?;
    // This call is a fact for the proof, and does nothing.
    lists_tell_members();
    tree.split(alloc, acting.node, count, &of)?;
    Ok(())
}

/// The members of a group who don't stay in a loop leave it.
fn shrink(
    alloc: Global,
    acting: Acting,
    actors: &[Actor],
    tree: &mut Tree,
) -> Result<(), AllocError>
    requires lockstep { t.kind (tree_of tree.old) acting.node ≡ Some Lockstep }
    requires many { length actors.now ≡ processors tree.old }
    ensures tree { OnOk result (tree_of tree.new ≡ t.shrink acting.node
        (λ h. g.stays (has_of actors.now h)) (tree_of tree.old)) }
    ensures processors { processors tree.new ≡ processors tree.old }
{
    let stay = stays_of(alloc, tree.members(acting.node), actors)?;
    // This call is a fact for the proof, and does nothing.
    lists_tell_members();
    tree.shrink(acting.node, &stay);
    Ok(())
}

/// The members of a node do an operation, which changes the tree.
fn change(
    alloc: Global,
    operation: Operation,
    acting: Acting,
    actors: &[Actor],
    tree: &mut Tree,
) -> Result<(), AllocError>
    requires can { CanStep (tree_of tree.old) actors.now acting.node operation }
    requires many { length actors.now ≡ processors tree.old }
    requires lowest { acting.lowest ≡ lowest (t.members (tree_of tree.old) acting.node) }
    requires low { acting.lowest < length actors.now }
    requires high { acting.highest < length actors.now }
    requires given { (tree_of tree.old).given + 2 ^ 18 < 2 ^ 63 }
    ensures tree { OnOk result (tree_of tree.new ≡ g.changes operation acting.node
        (has_of actors.now) (p.last (p.values (has_of actors.now acting.highest)))
        acting.lowest (tree_of tree.old)) }
    ensures processors { processors tree.new ≡ processors tree.old }
{
    let node = acting.node;
    match operation {
        Operation::Begin => start(alloc, acting, actors, tree)?,
        Operation::Split(by) => split(alloc, by, acting, actors, tree)?,
        Operation::Shrink => shrink(alloc, acting, actors, tree)?,
        Operation::End => tree.finish(node),
        Operation::Farm => tree.farm(node),
        Operation::Seq => tree.single(node),
        Operation::Meet(true) => tree.meet(node),
        Operation::Resume => tree.resume(node),
        _ => {}
    }
    Ok(())
}

/// The lowest member of each node applies their step to the tree.
pub fn change_all(
    alloc: Global,
    acting: &[Acting],
    actors: &[Actor],
    tree: &mut Tree,
) -> Result<(), AllocError>
    requires few { processors tree.old ≤ 1024 }
    requires sound { IsSound (processors tree.old) (tree_of tree.old) }
    requires many { length actors.now ≡ processors tree.old }
    requires in_round { AreInRound acting.now actors.now }
    requires acting { acting.now ≡ all_acting (tree_of tree.old) (numbers_of acting.now) }
    requires own { AreOwn (runners_of actors.now) }
    requires can { CanChange (tree_of tree.old) actors.now }
    requires given { (tree_of tree.old).given + 2 ^ 28 < 2 ^ 63 }
    // This holds whatever list the operations are from.
    ensures tree { (core : List code.CoreOp) → OnOk result (tree_of tree.new
        ≡ all_changes (actings_of core actors.now) (tree_of tree.old)
        (actings_of core actors.now) (tree_of tree.old)) }
    ensures given { OnOk result ((tree_of tree.new).given ≤ (tree_of tree.old).given + 2 ^ 28) }
    ensures processors { processors tree.new ≡ processors tree.old }
{
    for member in acting {
        if member.number == member.lowest {
            if let Some(due) = actors[member.number as usize].taken {
                change(alloc, due.operation, *member, actors, tree)?;
            }
        }
    }
    Ok(())
}
