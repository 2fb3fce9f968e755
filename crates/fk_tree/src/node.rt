//! The nodes of a tree.

ghost use Rattle.std.specs.Prelude.{◌≡◌};

/// What the members of a node do.
#[derive(Clone, Copy)]
pub enum Kind {
    /// A group: its members go on together.
    Lockstep,
    /// It goes on when its parts have ended. It has the number of its first part and the number of
    /// parts, which have consecutive numbers.
    Waiting(u64, u32),
    /// The root, or a body that its members run by themselves; with `true` the lowest member runs
    /// it alone.
    Asynchronous(bool),
}

/// A node that has not ended.
#[derive(Drop)]
pub(crate) struct LiveNode {
    /// The members in ascending order. Those that wait are among them.
    pub(crate) members: Vec<u32>,
    /// The node of which it is a part.
    pub(crate) parent: u64,
    pub(crate) kind: Kind,
    /// The number of its parts that haven't ended.
    pub(crate) living: u32,
}

impl LiveNode {
    ghost use Rattle.fk_tree.specs.Seen.{is_ready_node};

    /// Whether it waits and all its parts have ended.
    pub(crate) fn is_ready(&self) -> bool
        ensures { result ≡ is_ready_node self.now }
    {
        matches!(self.kind, Kind::Waiting(..)) && self.living == 0
    }
}
