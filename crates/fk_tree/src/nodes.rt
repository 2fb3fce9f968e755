//! Steps on the nodes that haven't ended, by their numbers.

ghost use Rattle.std.specs.Prelude.{◌≡◌, ◌≢◌, ℕ, ◌+◌, ◌^◌, ◌<◌, ◌≤◌, ◌==◌, ◌-◌, nat_lt, true};
ghost use Rattle.std.specs.Prelude.{length, vec_len, ◌↔◌, IsTrue, filter, slice_index, [], is_none};
ghost use Rattle.std.specs.Prelude.{if◌then◌else◌, OnErr, IfOk};
ghost use Rattle.fk_tree.specs.Tree.{with_node, turned, below, root, kind_after as going_on};
ghost use Rattle.fk_tree.specs.Tree.{parts_by, stays_by, is_member, members_of, parent_of, kind_of};
ghost use Rattle.fk_tree.specs.Sound.{is_ascending};
ghost use Rattle.fk_tree.specs.Seen.{nodes_seen, living_seen, living_parts, with_member, divided};
ghost use Rattle.fk_tree.specs.Seen.{placed_by, left_to};

use crate::node::{Kind, LiveNode};
use std::alloc::{AllocError, Global};
use std::collections::HashMap;

/// The nodes that haven't ended, by their numbers.
pub(crate) type Nodes = HashMap<u64, LiveNode>;

// The processors with numbers below `count`.
#[tactic(auto, using(crate::proofs::Lists::below_more))]
fn processors_below(alloc: Global, count: u32) -> Result<Vec<u32>, AllocError>
    ensures { IfOk result (λ members. members.items ≡ below count []) }
{
    let mut members = Vec::new(alloc);
    for processor in 0..count {
        members.push(processor)?;
    }
    Ok(members)
}

/// The root alone, in which the processors with numbers below `count` run by themselves.
pub(crate) fn root_alone(alloc: Global, count: u32) -> Result<Nodes, AllocError>
    requires { 1 ≤ count }
    ensures nodes { IfOk result (λ nodes. (i : ℕ) → nodes_seen nodes i ≡ (root count).nodes i) }
    ensures living { IfOk result (λ nodes. (i : ℕ) → living_seen nodes i ≡ 0) }
{
    let node = LiveNode {
        members: processors_below(alloc, count)?,
        parent: 0,
        kind: Kind::Asynchronous(false),
        living: 0,
    };
    let mut nodes = HashMap::new(alloc);
    nodes.insert(0, node)?;
    Ok(nodes)
}

/// The kind of a node after it has waited.
pub(crate) fn kind_after(number: u64) -> Kind
    ensures { result ≡ going_on number }
{
    match number {
        0 => Kind::Asynchronous(false),
        _ => Kind::Lockstep,
    }
}

/// Gives a node another kind, and the number of its parts that haven't ended.
pub(crate) fn turn(nodes: &mut Nodes, number: u64, kind: Kind, living: u32)
    requires { nodes_seen nodes.old number ≢ None }
    ensures nodes { (i : ℕ) → nodes_seen nodes.new i
        ≡ with_node number (turned kind (nodes_seen nodes.old number)) (nodes_seen nodes.old) i }
    ensures living { (i : ℕ) → living_seen nodes.new i
        ≡ (if i == number then living else living_seen nodes.old i) }
{
    if let Some(node) = nodes.get_mut(&number) {
        node.kind = kind;
        node.living = living;
    }
}

/// Lets a processor join a part, and makes the part if it doesn't exist yet. Returns whether the
/// part was made.
pub(crate) fn join(
    alloc: Global,
    nodes: &mut Nodes,
    number: u64,
    parent: u64,
    processor: u32,
) -> Result<bool, AllocError>
    ensures nodes { IfOk result (λ made. (i : ℕ) → nodes_seen nodes.new i
        ≡ with_node number (with_member parent processor (nodes_seen nodes.old number))
        (nodes_seen nodes.old) i) }
    ensures made { IfOk result (λ made. made ≡ is_none (nodes_seen nodes.old number)) }
    ensures living { (i : ℕ) → living_seen nodes.new i ≡ living_seen nodes.old i }
    ensures err { OnErr result ((i : ℕ) → i ≢ number
        → nodes_seen nodes.new i ≡ nodes_seen nodes.old i) }
{
    if let Some(node) = nodes.get_mut(&number) {
        node.members.push(processor)?;
        return Ok(false);
    }
    let node = LiveNode {
        members: vec![in alloc; processor]?,
        parent,
        kind: Kind::Lockstep,
        living: 0,
    };
    nodes.insert(number, node)?;
    Ok(true)
}

/// Copies a list of processors.
pub(crate) fn copy_of(alloc: Global, processors: &[u32]) -> Result<Vec<u32>, AllocError>
    ensures { IfOk result (λ copy. copy.items ≡ processors.now) }
{
    Vec::from_slice(alloc, processors)
}

/// Makes the parts of a node. Each member joins the part that `of` names for it, if there is such a
/// part among the `parts` ones with numbers from `first` on. Returns the number of parts that were
/// made, which are those with members.
pub(crate) fn divide(
    alloc: Global,
    nodes: &mut Nodes,
    parent: u64,
    first: u64,
    parts: u32,
    members: &[u32],
    of: &[u32],
) -> Result<u32, AllocError>
    requires length { length of.now ≡ length members.now }
    requires few { length members.now < 2 ^ 32 }
    requires ascending { is_ascending members.now ≡ true }
    requires numbers { first + parts < 2 ^ 63 }
    requires fresh { (i : ℕ) → first ≤ i → nodes_seen nodes.old i ≡ None }
    ensures nodes { IfOk result (λ living. (i : ℕ) → nodes_seen nodes.new i
        ≡ divided first parent parts (parts_by parts members.now of.now) members.now
        (nodes_seen nodes.old) i) }
    ensures count { IfOk result
        (λ living. living ≡ living_parts (nodes_seen nodes.new) first parts) }
    ensures living { (i : ℕ) → living_seen nodes.new i ≡ living_seen nodes.old i }
    ensures err { OnErr result ((i : ℕ) → i < first
        → nodes_seen nodes.new i ≡ nodes_seen nodes.old i) }
{
    let mut living = 0;
    for (index, member) in members.iter().enumerate() {
        let part = of[index];
        if part < parts {
            let made = join(alloc, nodes, first + u64::from(part), parent, *member)?;
            living += u32::from(made);
        }
    }
    Ok(living)
}

/// Removes the nodes with numbers from `first` on.
pub(crate) fn forget(nodes: &mut Nodes, first: u64)
    ensures before { (i : ℕ) → i < first → nodes_seen nodes.new i ≡ nodes_seen nodes.old i }
    ensures living { (i : ℕ) → i < first → living_seen nodes.new i ≡ living_seen nodes.old i }
    ensures after { (i : ℕ) → first ≤ i → nodes_seen nodes.new i ≡ None }
    ensures idle { (i : ℕ) → first ≤ i → living_seen nodes.new i ≡ 0 }
{
    nodes.retain(|number, _| *number < first);
}

/// Sets the place of each member that joins a part to the node of that part.
pub(crate) fn place(places: &mut [u64], first: u64, parts: u32, members: &[u32], of: &[u32])
    requires length { length of.now ≡ length members.now }
    requires ascending { is_ascending members.now ≡ true }
    requires numbers { first + parts < 2 ^ 63 }
    requires within { (h : ℕ) → is_member h members.now ≡ true → h < length places.old }
    ensures { (h : ℕ) → slice_index places.new h
        ≡ placed_by first (parts_by parts members.now of.now) members.now
        (slice_index places.old) h }
{
    for (index, member) in members.iter().enumerate() {
        let part = of[index];
        if part < parts {
            places[*member as usize] = first + u64::from(part);
        }
    }
}

/// For each processor, part 0 if its number is below `count`, else 1, which names no part.
pub(crate) fn below_count(
    alloc: Global,
    processors: u32,
    count: u32,
) -> Result<Vec<u32>, AllocError>
    ensures length { IfOk result (λ of. length of.items ≡ processors) }
    ensures each { IfOk result (λ of. (h : ℕ) → h < processors
        → slice_index of.items h ≡ (if nat_lt h count then 0 else 1)) }
{
    let mut of = Vec::new(alloc);
    for processor in 0..processors {
        of.push(if processor < count { 0 } else { 1 })?;
    }
    Ok(of)
}

/// Notes at a node that one of its parts has ended.
pub(crate) fn lose(nodes: &mut Nodes, number: u64)
    requires there { nodes_seen nodes.old number ≢ None }
    requires counted { 1 ≤ living_seen nodes.old number }
    ensures nodes { (i : ℕ) → nodes_seen nodes.new i ≡ nodes_seen nodes.old i }
    ensures living { (i : ℕ) → living_seen nodes.new i
        ≡ (if i == number then living_seen nodes.old number - 1 else living_seen nodes.old i) }
{
    if let Some(node) = nodes.get_mut(&number) {
        node.living -= 1;
    }
}

/// Lets processors wait at a node.
pub(crate) fn settle(places: &mut [u64], node: u64, processors: &[u32])
    requires { (h : ℕ) → is_member h processors.now ≡ true → h < length places.old }
    ensures { (h : ℕ) → slice_index places.new h
        ≡ (if is_member h processors.now then node else slice_index places.old h) }
{
    for processor in processors {
        places[*processor as usize] = node;
    }
}

// Removes the members that don't stay from a list, and lets them wait at a node.
fn leave(members: &mut Vec<u32>, places: &mut [u64], node: u64, stay: &[bool])
    requires length { length stay.now ≡ length members.old.items }
    requires ascending { is_ascending members.old.items ≡ true }
    requires within { (h : ℕ) → is_member h members.old.items ≡ true → h < length places.old }
    ensures members { members.new.items
        ≡ filter (stays_by members.old.items stay.now) members.old.items }
    ensures places { (h : ℕ) → slice_index places.new h
        ≡ left_to node (stays_by members.old.items stay.now) members.old.items
        (slice_index places.old) h }
{
    let mut kept = 0;
    for (index, stays) in stay.iter().enumerate() {
        let member = members[index];
        if *stays {
            members[kept] = member;
            kept += 1;
        } else {
            places[member as usize] = node;
        }
    }
    members.truncate(kept);
}

/// Lets the members of a part that don't stay wait at its parent. Returns whether any stay.
pub(crate) fn shrink(nodes: &mut Nodes, places: &mut [u64], number: u64, stay: &[bool]) -> bool
    requires length { length stay.now ≡ length (members_of (nodes_seen nodes.old number)) }
    requires ascending { is_ascending (members_of (nodes_seen nodes.old number)) ≡ true }
    requires within { (h : ℕ) → is_member h (members_of (nodes_seen nodes.old number)) ≡ true
        → h < length places.old }
    requires there { nodes_seen nodes.old number ≢ None }
    ensures members { members_of (nodes_seen nodes.new number)
        ≡ filter (stays_by (members_of (nodes_seen nodes.old number)) stay.now)
        (members_of (nodes_seen nodes.old number)) }
    ensures parent { parent_of (nodes_seen nodes.new number)
        ≡ parent_of (nodes_seen nodes.old number) }
    ensures kind { kind_of (nodes_seen nodes.new number) ≡ kind_of (nodes_seen nodes.old number) }
    ensures others { (i : ℕ) → i ≢ number → nodes_seen nodes.new i ≡ nodes_seen nodes.old i }
    ensures living { (i : ℕ) → living_seen nodes.new i ≡ living_seen nodes.old i }
    ensures places { (h : ℕ) → slice_index places.new h
        ≡ left_to (parent_of (nodes_seen nodes.old number))
        (stays_by (members_of (nodes_seen nodes.old number)) stay.now)
        (members_of (nodes_seen nodes.old number)) (slice_index places.old) h }
    ensures stay { IsTrue result ↔ (members_of (nodes_seen nodes.new number) ≢ []) }
{
    let Some(node) = nodes.get_mut(&number) else {
        return false;
    };
    leave(&mut node.members, places, node.parent, stay);
    !node.members.is_empty()
}
