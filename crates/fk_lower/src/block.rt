//! Code in memory.

ghost use Rattle.std.specs.Prelude.{◌≡◌};
ghost use Rattle.fk_lower.specs.View.{part_of};

use crate::span::Spans;
use fk_meaning_operation::Operation;

/// An operation of a program.
#[derive(Clone, Copy)]
pub struct Act {
    /// The number of its site.
    pub site: u32,
    pub operation: Operation,
}

/// A piece of code. Code consists of pieces, one after another.
#[cycle(code)]
#[derive(Drop)]
pub enum Piece {
    Perform(Act),
    /// An operation that takes one of two branches, onward and aside.
    Choose(Act, Block, Block),
    /// A loop: its test, its body, and the step to the next turn.
    While(Block, Block, Block),
    /// A loop that begins with its body, and its test.
    Until(Block, Block),
    /// An operation that goes on in the loop around it, or leaves the loop.
    Quit(Act),
    Break,
    Continue,
    /// Enters the function of a binding. The block is what that function does at its beginning for
    /// this call.
    Call(Act, u32, Block),
    /// Ends the function.
    Ends(Act),
}

/// Pieces of code, and their measures.
#[cycle(code)]
#[derive(Drop)]
pub struct Block {
    pub(crate) pieces: Vec<Piece>,
    pub(crate) spans: Spans,
}

impl Block {
    pub fn spans(&self) -> Spans
        ensures { result ≡ (part_of self.now).spans }
    {
        self.spans
    }
}
