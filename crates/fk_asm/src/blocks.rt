//! Blocks of operations.

use crate::assembler::Assembler;
use std::alloc::AllocError;

/// The blocks of a kind of operations: the lines that do each operation.
pub trait Blocks<O> {
    ghost use Rattle.std.specs.Prelude.{◌≡◌, ◌+◌, ◌^◌, ◌<◌, List, All, OnOk, OnErr, length};
    ghost use Rattle.fk_asm.specs.Assembly.{AreFollowed};
    ghost use Rattle.fk_asm.specs.Block.{MarkedLine, GoesToMade, HasBegun, with_block};

    /// The operations that have a block.
    ghost has_block: { O → Type 0 };

    /// The block of an operation.
    ghost block: { O → List MarkedLine };

    /// Adds the block of an operation. Fails if there isn't enough memory; then only the first
    /// lines of the block were added, or none.
    fn emit_op(&self, op: &O, into: &mut Assembler) -> Result<(), AllocError>
        requires known { has_block op.now }
        requires labels { All (GoesToMade into.old.bound) (block op.now) }
        requires room { length into.old.lines + length (block op.now) < 2 ^ 30 }
        requires free { AreFollowed into.old }
        ensures added { OnOk result (into.new ≡ with_block into.old (block op.now)) }
        ensures begun { OnErr result (HasBegun (block op.now) into.old into.new) };
}
