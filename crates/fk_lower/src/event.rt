//! The events that show code.

use fk_meaning_operation::Operation;

/// An event that shows code, from its beginning.
#[derive(Clone, Copy)]
pub enum CodeEvent {
    Perform(Operation),
    /// An operation that takes one of two branches. Its first branch comes next.
    Choose(Operation),
    /// The second branch of a choice comes next.
    Aside,
    /// The branches of a choice are joined.
    Joined,
    /// An operation that goes on in the loop around it, or leaves the loop.
    Quit(Operation),
    /// A call of the function of a binding. What that function does at its beginning for this call
    /// comes next.
    Call(Operation, u32),
    /// The beginning of a call has ended.
    Returned,
    /// An operation that ends the function.
    Ends(Operation),
    /// A loop that begins with its test. Its body and its step follow.
    While,
    /// A loop that begins with its body. Its test follows.
    Until,
    /// The next part of the innermost loop comes next.
    Part,
    /// The innermost loop has ended.
    Behind,
    Break,
    Continue,
}
