//! Code of a flat list.

ghost use Rattle.std.specs.Prelude.{◌≤◌, ◌^◌, IfOk, length, sum_by, vec_len};
ghost use Rattle.fk_num.specs.Limits.{most_code_words};
ghost use Rattle.fk_asm.specs.Assembly.{AreFollowed};
ghost use Rattle.fk_asm.specs.Commits.{IsCommitTable};
ghost use Rattle.fk_gen_flow.specs.Opening.{opening_lines};
ghost use Rattle.fk_gen_list.specs.Generable.{IsGenerable, DoesTheList, GivesWholeCode, most_words};
ghost use Rattle.fk_gen_list.specs.Kinds.{block_of};
ghost use Rattle.fk_gen_list.specs.Layout.{IsLaid, all_placed};

use crate::all_blocks::AllBlocks;
use crate::assemble::{FIRST_LABEL, emit_blocks, finish, make_labels};
use crate::copying::{emit_clearing, emit_copying};
use crate::hiring::emit_hiring;
use crate::splitting::{emit_forking, emit_halving, emit_parting};
use crate::starting::emit_starting;
use fk_asm::{Assembler, Code};
use fk_core::CoreOp;
use fk_core_liveness::Set;
use fk_gen::Levels;
use fk_gen_flow::emit_opening;
use std::alloc::{AllocError, Global};

/// The code of a list of operations. `kept` has the private words that calls keep at each index,
/// `saved` the levels of groups in their frames, `main` is the index where the program begins,
/// `firsts` are the first values of private variables of file scope, and the image has `globals`
/// words of globals.
///
/// The opening is at word 0. After it comes the code that all calls share, that which all
/// beginnings of `start` share, that which all blocks of `shmalloc` share, that which splits share,
/// and then the block of each operation, in their order.
pub(crate) fn assemble_list(
    alloc: Global,
    ops: &[CoreOp],
    kept: &[Set],
    saved: &[Levels],
    main: u32,
    firsts: &[u32],
    globals: u32,
) -> Result<Code, AllocError>
    requires list { IsGenerable ops.now kept.now saved.now main firsts.now }
    requires small { sum_by most_words ops.now ≤ 256000 }
    requires globals { globals ≤ 2 ^ 19 }
    ensures law { IfOk result (DoesTheList ops.now kept.now main firsts.now globals) }
    ensures stands { IfOk result
        (GivesWholeCode ops.now kept.now saved.now main firsts.now globals) }
    ensures table { IfOk result (λ code. IsCommitTable (vec_len code.words) code.commits.items) }
    ensures some { IfOk result (λ code. 1 ≤ vec_len code.words) }
    ensures few { IfOk result (λ code. vec_len code.words ≤ most_code_words) }
{
    let laid = lay(alloc, ops, kept, saved, main, firsts, globals)?;
    finish(laid)
}

// All lines of the code, each label bound.
fn lay(
    alloc: Global,
    ops: &[CoreOp],
    kept: &[Set],
    saved: &[Levels],
    main: u32,
    firsts: &[u32],
    globals: u32,
) -> Result<Assembler, AllocError>
    requires list { IsGenerable ops.now kept.now saved.now main firsts.now }
    requires small { sum_by most_words ops.now ≤ 256000 }
    requires globals { globals ≤ 2 ^ 19 }
    ensures laid { IfOk result (IsLaid block_of (opening_lines (length firsts.now) firsts.now main)
        globals (all_placed globals kept.now saved.now ops.now)) }
    ensures followed { IfOk result AreFollowed }
{
    let mut into = Assembler::new(alloc);
    make_labels(&mut into, FIRST_LABEL + ops.len() as u32)?;
    emit_opening(&mut into, firsts, main)?;
    emit_copying(&mut into)?;
    emit_clearing(&mut into)?;
    emit_starting(&mut into, globals)?;
    emit_hiring(&mut into, globals)?;
    emit_parting(&mut into)?;
    emit_halving(&mut into)?;
    emit_forking(&mut into)?;
    emit_blocks(&AllBlocks, ops, kept, saved, globals, &mut into)?;
    Ok(into)
}
