//! How members of a node act.

/// How the members of a processor's node act.
#[derive(Clone, Copy, PartialEq, Eq)]
pub enum Mode {
    /// As a group in lockstep.
    Group,
    /// By themselves, or they wait for parts.
    Apart,
    /// The lowest by itself, in the body of a `seq`.
    Alone,
}
