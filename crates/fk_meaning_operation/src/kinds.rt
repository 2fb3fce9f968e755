//! Classes of operations, joint operations, and faults.

/// When in a round an operation is done. Definitions of runs say it; no program asks.
#[derive(Clone, Copy, PartialEq, Eq)]
pub enum Class {
    /// The operation involves its processor alone.
    Local,
    /// At most one access to what all processors share.
    Request,
    /// A step of the tree of groups.
    Tree,
}

/// What those who do a joint operation do together. Definitions of runs say it; no program asks.
#[derive(Clone, Copy, PartialEq, Eq)]
pub enum Joint {
    /// Nothing: the operation isn't joint.
    Alone,
    Starting,
    AtBarrier,
    Closing,
    Resuming,
}

/// The fault with which an operation ends a run.
#[derive(Clone, Copy, PartialEq, Eq, Debug)]
pub enum FaultKind {
    /// An address that may not be used.
    BadAddress,
    /// A call from a function at depth 256.
    CallDepth,
    /// A group frame or a split for which its group doesn't have enough words.
    GroupSpace,
}
