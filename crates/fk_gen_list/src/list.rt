//! Code with the law of blocks of groups.

ghost use Rattle.std.specs.Prelude.{◌≤◌, ◌^◌, IfOk, sum_by, vec_len};
ghost use Rattle.fk_num.specs.Limits.{most_code_words};
ghost use Rattle.fk_asm.specs.Commits.{IsCommitTable};
ghost use Rattle.fk_gen_list.specs.Generable.{IsGenerable, DoesTheList, GivesWholeCode};
ghost use Rattle.fk_gen_list.specs.Generable.{most_words};
ghost use Rattle.fk_gen_list.specs.Whole.{GivesGroupLaw};

use crate::code::assemble_list;
use fk_asm::Code;
use fk_core::CoreOp;
use fk_core_liveness::Set;
use fk_gen::Levels;
use std::alloc::{AllocError, Global};

/// The code of a list of operations. Each image with it has the law of blocks of groups, and each
/// commit of it tells the event of the operation whose code it is in.
///
/// `kept` has the private words that calls keep at each index, `saved` the levels of groups in
/// their frames, `main` is the index where the program begins, `firsts` are the first values of
/// private variables of file scope, and the image has `globals` words of globals. Fails where there
/// isn't enough memory.
pub fn generate(
    alloc: Global,
    ops: &[CoreOp],
    kept: &[Set],
    saved: &[Levels],
    main: u32,
    firsts: &[u32],
    globals: u32,
) -> Result<Code, AllocError>
    requires list { IsGenerable ops.now kept.now saved.now main firsts.now }
    requires small { sum_by most_words ops.now ≤ 256000 }
    requires globals { globals ≤ 2 ^ 19 }
    ensures group_law { IfOk result
        (GivesGroupLaw ops.now kept.now saved.now main firsts.now globals) }
    ensures whole { IfOk result
        (GivesWholeCode ops.now kept.now saved.now main firsts.now globals) }
    ensures law { IfOk result (DoesTheList ops.now kept.now main firsts.now globals) }
    ensures table { IfOk result (λ code. IsCommitTable (vec_len code.words) code.commits.items) }
    ensures some { IfOk result (λ code. 1 ≤ vec_len code.words) }
    ensures few { IfOk result (λ code. vec_len code.words ≤ most_code_words) }
{
    assemble_list(alloc, ops, kept, saved, main, firsts, globals)
}
