//! The tree of groups.

ghost use Rattle.std.specs.Prelude.{◌≤◌, vec_len};
ghost use Rattle.fk_tree.specs.Sound.{IsSound};
ghost use Rattle.fk_tree.specs.Seen.{nodes_seen, living_seen, tree_seen, AreCounted};

use crate::node::Kind;
use crate::nodes::{
    Nodes, below_count, copy_of, divide, forget, kind_after, lose, place, root_alone, settle,
    shrink, turn,
};
use std::alloc::{AllocError, Global};

/// The tree of groups of up to 1,024 processors. A node is identified by its number; the root is 0.
///
/// Each processor is at exactly one node: the leaf in which it acts, or the node at which it waits.
#[derive(Drop)]
pub struct Tree {
    given: u64,
    places: Vec<u64>,
    nodes: Nodes,
    ghost few: { vec_len places ≤ 1024 },
    ghost sound: { IsSound (vec_len places) (tree_seen given places.items nodes) },
    ghost counted: { AreCounted (nodes_seen nodes) (living_seen nodes) },
}

impl Tree {
    ghost use Rattle.std.specs.Prelude.{◌≡◌, ◌≢◌, ℕ, ◌+◌, ◌^◌, ◌<◌, ◌⊎◌, length, Some, true, false};
    ghost use Rattle.std.specs.Prelude.{OnOk, OnErr, IfOk};
    ghost use Rattle.fk_tree.specs.Tree as t;
    ghost use Rattle.fk_tree.specs.declared.node.Kind.TheVariants.{Lockstep, Waiting, Asynchronous};
    ghost use Rattle.fk_tree.specs.View.{tree_of, processors};

    /// The tree of `p` processors at the beginning: only the root, in which each of them runs by
    /// itself.
    pub fn root(alloc: Global, p: u32) -> Result<Tree, AllocError>
        requires some { 1 ≤ p }
        requires few { p ≤ 1024 }
        ensures tree { IfOk result (λ tree. tree_of tree ≡ t.root p) }
        ensures processors { IfOk result (λ tree. processors tree ≡ p) }
    {
        Ok(Tree {
            given: 1,
            places: vec![in alloc; 0; p as usize]?,
            nodes: root_alone(alloc, p)?,
        })
    }

    /// The number of node numbers given so far.
    pub fn given(&self) -> u64
        ensures { result ≡ (tree_of self.now).given }
    {
        self.given
    }

    /// The members of a node in ascending order, with those of its parts and its body. There are
    /// none if the node has ended or was never made.
    pub fn members(&self, node: u64) -> &[u32]
        ensures members { result.now ≡ t.members (tree_of self.now) node }
        // In every tree each processor is at exactly one node.
        ensures sound { IsSound (processors self.now) (tree_of self.now) }
    {
        match self.nodes.get(&node) {
            Some(node) => &node.members,
            None => &[],
        }
    }

    /// Whether a node waits and all its parts have ended.
    pub fn ready(&self, node: u64) -> bool
        ensures { result ≡ t.ready (tree_of self.now) node }
    {
        match self.nodes.get(&node) {
            Some(node) => node.is_ready(),
            None => false,
        }
    }

    /// The leaf of which a processor is a member, or the node at which it waits.
    pub fn node_of(&self, processor: u32) -> u64
        requires { processor < processors self.now }
        ensures { result ≡ (tree_of self.now).places processor }
    {
        self.places[processor as usize]
    }

    // Makes a node without children wait for parts of its members. Returns the number of the first
    // part.
    fn make_parts(
        &mut self,
        alloc: Global,
        node: u64,
        parts: u32,
        of: &[u32],
    ) -> Result<u64, AllocError>
        requires there { (tree_of self.old).nodes node ≢ None }
        requires idle { t.is_waiting (t.kind (tree_of self.old) node) ≡ false }
        requires length { length of.now ≡ length (t.members (tree_of self.old) node) }
        requires numbers { (tree_of self.old).given + parts < 2 ^ 63 }
        ensures tree { OnOk result (tree_of self.new
            ≡ t.split node parts (t.parts_by parts (t.members (tree_of self.old) node) of.now)
            (tree_of self.old)) }
        ensures first { IfOk result (λ first. first ≡ (tree_of self.old).given) }
        ensures err { OnErr result (tree_of self.new ≡ tree_of self.old) }
        ensures processors { processors self.new ≡ processors self.old }
    {
        let copied = copy_of(alloc, self.members(node))?;
        let members = copied.as_slice();
        let first = self.given;
        match divide(alloc, &mut self.nodes, node, first, parts, members, of) {
            Ok(living) => {
                turn(&mut self.nodes, node, Kind::Waiting(first, parts), living);
                place(&mut self.places, first, parts, members, of);
                self.given += u64::from(parts);
                Ok(first)
            }
            Err(refused) => {
                forget(&mut self.nodes, first);
                Err(refused)
            }
        }
    }

    /// Makes the root wait for one group in lockstep, with the processors whose numbers are below
    /// `count`. Returns the number of the group. If `count` is 0, the group has ended at once. If
    /// there isn't enough memory, the tree is as before.
    pub fn begin(&mut self, alloc: Global, count: u32) -> Result<u64, AllocError>
        requires idle { t.is_waiting (t.kind (tree_of self.old) 0) ≡ false }
        requires count { count ≤ processors self.old }
        requires numbers { (tree_of self.old).given + 1 < 2 ^ 63 }
        ensures tree { OnOk result (tree_of self.new ≡ t.begin count (tree_of self.old)) }
        ensures first { IfOk result (λ first. first ≡ (tree_of self.old).given) }
        ensures err { OnErr result (tree_of self.new ≡ tree_of self.old) }
        ensures processors { processors self.new ≡ processors self.old }
    {
        let of = below_count(alloc, self.places.len() as u32, count)?;
        self.make_parts(alloc, 0, 1, of.as_slice())
    }

    /// Lets the members of a part that don't stay wait at its parent. `stay` has an element for
    /// each member, in their order. If no member stays, the part has ended.
    pub fn shrink(&mut self, node: u64, stay: &[bool])
        requires lockstep { t.kind (tree_of self.old) node ≡ Some Lockstep }
        requires length { length stay.now ≡ length (t.members (tree_of self.old) node) }
        ensures tree { tree_of self.new
            ≡ t.shrink node (t.stays_by (t.members (tree_of self.old) node) stay.now)
            (tree_of self.old) }
        ensures processors { processors self.new ≡ processors self.old }
    {
        if shrink(&mut self.nodes, &mut self.places, node, stay) {
            return;
        }
        if let Some(part) = self.nodes.remove(&node) {
            lose(&mut self.nodes, part.parent);
        }
    }

    /// Ends a group in lockstep: its members wait at its parent.
    pub fn finish(&mut self, node: u64)
        requires { t.kind (tree_of self.old) node ≡ Some Lockstep }
        ensures tree { tree_of self.new ≡ t.finish node (tree_of self.old) }
        ensures processors { processors self.new ≡ processors self.old }
    {
        if let Some(part) = self.nodes.remove(&node) {
            lose(&mut self.nodes, part.parent);
            settle(&mut self.places, part.parent, part.members.as_slice());
        }
    }

    /// Splits a group in lockstep into `parts` parts, and returns the node of the first part. The
    /// others have the numbers after it. `of` has a number for each member, in their order: the
    /// member joins the part with that number. A member whose number is no part waits, and a part
    /// without members has ended.
    ///
    /// If there isn't enough memory, the tree is as before.
    pub fn split(
        &mut self,
        alloc: Global,
        node: u64,
        parts: u32,
        of: &[u32],
    ) -> Result<u64, AllocError>
        requires lockstep { t.kind (tree_of self.old) node ≡ Some Lockstep }
        requires length { length of.now ≡ length (t.members (tree_of self.old) node) }
        requires numbers { (tree_of self.old).given + parts < 2 ^ 63 }
        ensures tree { OnOk result (tree_of self.new
            ≡ t.split node parts (t.parts_by parts (t.members (tree_of self.old) node) of.now)
            (tree_of self.old)) }
        ensures first { IfOk result (λ first. first ≡ (tree_of self.old).given) }
        ensures err { OnErr result (tree_of self.new ≡ tree_of self.old) }
        ensures processors { processors self.new ≡ processors self.old }
    {
        self.make_parts(alloc, node, parts, of)
    }

    /// Gives a group in lockstep a body that all its members run by themselves.
    pub fn farm(&mut self, node: u64)
        requires { t.kind (tree_of self.old) node ≡ Some Lockstep }
        ensures tree { tree_of self.new ≡ t.farm node (tree_of self.old) }
        ensures processors { processors self.new ≡ processors self.old }
    {
        turn(&mut self.nodes, node, Kind::Asynchronous(false), 0);
    }

    /// Gives a group in lockstep a body that its lowest member runs alone.
    pub fn single(&mut self, node: u64)
        requires { t.kind (tree_of self.old) node ≡ Some Lockstep }
        ensures tree { tree_of self.new ≡ t.single node (tree_of self.old) }
        ensures processors { processors self.new ≡ processors self.old }
    {
        turn(&mut self.nodes, node, Kind::Asynchronous(true), 0);
    }

    /// Ends the body of a group, which goes on in lockstep.
    pub fn meet(&mut self, node: u64)
        requires { t.HasBody (tree_of self.old) node }
        ensures tree { tree_of self.new ≡ t.meet node (tree_of self.old) }
        ensures processors { processors self.new ≡ processors self.old }
    {
        turn(&mut self.nodes, node, Kind::Lockstep, 0);
    }

    /// Lets a node go on that waits and whose parts have all ended.
    pub fn resume(&mut self, node: u64)
        requires { t.ready (tree_of self.old) node ≡ true }
        ensures tree { tree_of self.new ≡ t.resume node (tree_of self.old) }
        ensures processors { processors self.new ≡ processors self.old }
    {
        turn(&mut self.nodes, node, kind_after(node), 0);
    }
}
