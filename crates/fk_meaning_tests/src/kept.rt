//! A handmade list of nested loops.

use fk_core::CoreOp;
use fk_core_liveness::live_words;
use fk_meaning_operation::{Operation, OwnValue, Variable};
use std::alloc::{AllocError, Global};

const NESTED: u32 = 70;

const WORD: OwnValue = OwnValue::Value(Variable::Private(3));

// The test of the outermost loop reads a variable. Each loop begins with a branch that leaves it,
// and ends with a jump back to its beginning.
fn nested(alloc: Global) -> Result<Vec<CoreOp>, AllocError> {
    let mut ops = Vec::new(alloc);
    ops.push(CoreOp::of(Operation::Get(WORD), 0, 0, 0))?;
    for level in 0..NESTED {
        ops.push(CoreOp::of(Operation::Branch(true), 0, 2 * NESTED + 1 - level, 1))?;
    }
    for level in 0..NESTED {
        let turn = NESTED - level;
        ops.push(CoreOp::jump(if turn == 1 { 0 } else { turn }))?;
    }
    ops.push(CoreOp::of(Operation::Halt, 0, 0, 0))?;
    Ok(ops)
}

#[test]
fn a_word_is_live_in_loops_in_one_another(rt: HostRuntime) -> Result<(), AllocError> {
    let ops = nested(rt.alloc())?;
    let live = live_words(rt.alloc(), &ops)?;
    for index in 0..2 * NESTED as usize + 1 {
        if let Some(set) = live.get(index) {
            assert!(rt; set.has(3) && !set.has(2));
        }
    }
    if let Some(set) = live.last() {
        assert!(rt; set.is_empty());
    }
    Ok(())
}
