//! Blocks one after another, each with its label.

ghost use Rattle.std.specs.Prelude.{◌≡◌, ◌+◌, ◌^◌, ◌<◌, ◌≤◌, ℕ, ℤ, All, IfOk, None, OnOk, Some};
ghost use Rattle.std.specs.Prelude.{flat_map, length, map, replicate, slice_index_or, vec_len};
ghost use Rattle.fk_isa.specs.Find.{row};
ghost use Rattle.fk_asm.specs.Assembly.{empty, instructions, AreFollowed, IsBound, IsFirstTooFar};
ghost use Rattle.fk_asm.specs.Commits.{IsCommitTable};
ghost use Rattle.fk_asm.specs.Block.{GoesToMade};
ghost use Rattle.fk_gen.specs.Lines.{label_of};
ghost use Rattle.fk_gen_list.specs.Layout.{AddsBlocks, all_placed};

use crate::placing::placed;
use fk_asm::{AsmFault, Assembler, Blocks, Code};
use fk_core::CoreOp;
use fk_core_liveness::Set;
use fk_gen::{Levels, Placed};
use std::alloc::AllocError;

/// The label of the block of the first operation.
pub(crate) const FIRST_LABEL: u32 = 128;

/// Makes `count` labels in an assembler without any.
pub(crate) fn make_labels(into: &mut Assembler, count: u32) -> Result<(), AllocError>
    requires new { into.old ≡ empty }
    ensures made { OnOk result (into.new ≡ record empty { bound = replicate count None }) }
{
    for _ in 0..count {
        into.label()?;
    }
    Ok(())
}

/// Adds the blocks of a list in which calls keep these words, and binds the label of each block
/// where it begins. Fails where there isn't enough memory.
pub(crate) fn emit_blocks<B: Blocks<Placed>>(
    blocks: &B,
    ops: &[CoreOp],
    kept: &[Set],
    saved: &[Levels],
    globals: u32,
    into: &mut Assembler,
) -> Result<(), AllocError>
    requires known { All B.has_block (all_placed globals kept.now saved.now ops.now) }
    requires goes { All (λ op. All (GoesToMade into.old.bound) (B.block op))
        (all_placed globals kept.now saved.now ops.now) }
    requires room { length into.old.lines
        + length (flat_map B.block (all_placed globals kept.now saved.now ops.now)) < 2 ^ 30 }
    requires followed { AreFollowed into.old }
    requires made { label_of (length ops.now) ≤ length into.old.bound }
    requires few { label_of (length ops.now) < 2 ^ 32 }
    requires free { (i : ℕ) → i < length ops.now
        → slice_index_or into.old.bound (label_of i) None ≡ None }
    ensures added { OnOk result
        (AddsBlocks B.block (all_placed globals kept.now saved.now ops.now) into.old into.new) }
    ensures followed { OnOk result (AreFollowed into.new) }
{
    for (i, op) in ops.iter().enumerate() {
        into.bind(FIRST_LABEL + i as u32)?;
        blocks.emit_op(&placed(*op, ops, kept, saved, i, globals), into)?;
    }
    Ok(())
}

/// The code of lines that all reach their labels. Fails where there isn't enough memory.
pub(crate) fn finish(laid: Assembler) -> Result<Code, AllocError>
    requires bound { All (IsBound laid.bound) laid.lines }
    requires followed { AreFollowed laid }
    requires near { (k : ℕ) (d : ℤ) → IsFirstTooFar laid.bound laid.lines k d → ⊥ }
    ensures rows { IfOk result
        (λ code. map row code.words.items ≡ map Some (instructions laid.bound laid.lines)) }
    ensures count { IfOk result (λ code. vec_len code.words ≡ length laid.lines) }
    ensures commits { IfOk result (λ code. code.commits.items ≡ laid.commits) }
    ensures table { IfOk result (λ code. IsCommitTable (vec_len code.words) code.commits.items) }
{
    match laid.finish() {
        Ok(code) => Ok(code),
        Err(AsmFault::Memory(error)) => Err(error),
        // Each line reaches its label.
        Err(AsmFault::TooFar(_, _)) => unreachable!(),
    }
}
