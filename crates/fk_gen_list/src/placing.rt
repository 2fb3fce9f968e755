//! An operation with what its block depends on.

ghost use Rattle.std.specs.Prelude.{◌≡◌, ◌<◌, ◌^◌, length, suc, slice_get};
ghost use Rattle.fk_core.specs.Numbers.{operation_of};
ghost use Rattle.fk_gen.specs.Levels.{levels_in};
ghost use Rattle.fk_gen_flow.specs.Calls.{most_privates};
ghost use Rattle.fk_gen_list.specs.Layout as layout;

use fk_core::CoreOp;
use fk_core_list::behind_jump;
use fk_core_liveness::Set;
use fk_gen::{Levels, Placed};
use fk_meaning_operation::Operation;

/// The number of private words that a frame has room for.
const MOST_PRIVATES: u32 = 56;

// How many private words there are up to the last one in a set.
fn up_to_last(set: Set) -> u32
    ensures { result ≡ layout.up_to_last set.mask most_privates }
{
    let mut words = MOST_PRIVATES;
    'down: while words > 0 {
        if set.has(words - 1) {
            return words;
        }
        words -= 1;
    }
    words
}

// How many words a call clears, given how many there are up to the last one that has to be 0 if it
// is no argument.
fn clears_after(arguments: u32, words: u32) -> u32
    ensures { result ≡ layout.clears_after arguments words }
{
    if words <= arguments { 0 } else { words }
}

// How many private words a call clears: those up to the last one that is kept as it begins.
fn clears(op: CoreOp, kept: &[Set], index: usize) -> u32
    requires small { index < 2 ^ 32 }
    ensures { result ≡ layout.clears_by (operation_of op.kind op.number)
        (slice_get kept.now (suc index)) }
{
    let Some(Operation::Enter(arguments)) = op.operation() else {
        return 0;
    };
    match kept.get(index + 1) {
        Some(set) => clears_after(arguments, up_to_last(*set)),
        None => 0,
    }
}

// The index where the caller of a call goes on, or 0 for other operations.
fn back(op: CoreOp, ops: &[CoreOp], index: usize) -> u32
    requires within { index < length ops.now }
    requires small { length ops.now < 2 ^ 32 }
    ensures { result ≡ layout.back_by (operation_of op.kind op.number) ops.now index }
{
    match op.operation() {
        Some(Operation::Enter(_)) => behind_jump(ops, index + 1) as u32,
        _ => 0,
    }
}

// The levels in the frame of the running call. Where nothing is told it has none.
fn levels(saved: &[Levels], index: usize) -> Levels
    ensures { result ≡ levels_in saved.now index }
{
    match saved.get(index) {
        Some(levels) => *levels,
        None => Levels {
            count: 0,
            behind: 0,
            nest: 0,
            fork: None,
        },
    }
}

/// The operation at an index of a list in which calls keep these words, and have these levels in
/// their frames, in an image with `globals` words of globals.
pub(crate) fn placed(
    op: CoreOp,
    ops: &[CoreOp],
    kept: &[Set],
    saved: &[Levels],
    index: usize,
    globals: u32,
) -> Placed
    requires within { index < length ops.now }
    requires small { length ops.now < 2 ^ 32 }
    ensures { result ≡ layout.placed ops.now globals kept.now saved.now index op }
{
    Placed {
        op,
        globals,
        clears: clears(op, kept, index),
        back: back(op, ops, index),
        levels: levels(saved, index),
    }
}
