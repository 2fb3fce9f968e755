//! The private words that may be read before they are written.

ghost use Rattle.std.specs.Prelude.{◌≡◌, ◌<◌, ℕ, true, false, IfOk, IsTrue, length, slice_get};
ghost use Rattle.fk_core_liveness.specs.Frames.{kept_in};
ghost use Rattle.fk_core_liveness.specs.Live as v;
ghost use Rattle.fk_core_liveness.specs.Sets.{is_in};

use crate::set::Set;
use fk_core::CoreOp;
use fk_core_list::{behind_jump, follows, op_at};
use fk_meaning_operation::{Operation, OwnValue, Variable};
use std::alloc::{AllocError, Global};

fn set_at(sets: &[Set], index: usize) -> Set
    ensures { (word : ℕ) → is_in result.mask word ≡ v.words_in sets.now index word }
{
    match sets.get(index) {
        Some(set) => *set,
        None => Set::empty(),
    }
}

// The words that are kept where an operation goes on.
fn behind(ops: &[CoreOp], live: &[Set], operation: Operation, index: usize, target: u32) -> Set
    requires { index < length ops.now }
    ensures { (word : ℕ) → is_in result.mask word
        ≡ v.kept_behind ops.now (v.words_in live.now) operation index target word }
{
    match operation {
        Operation::Enter(_) => set_at(live, behind_jump(ops, index + 1)),
        Operation::Leave { .. } | Operation::Halt => Set::empty(),
        _ => {
            let onward = set_at(live, follows(ops, operation, index, target, true));
            let aside = set_at(live, follows(ops, operation, index, target, false));
            onward.union(aside)
        }
    }
}

// The words that are to be kept before an operation, given those that are kept after it.
fn before(operation: Operation, behind: Set) -> Set
    ensures { (word : ℕ) → is_in result.mask word
        ≡ v.needed operation (is_in behind.mask word) word }
{
    match operation {
        Operation::Get(OwnValue::Value(Variable::Private(word))) => behind.with(word),
        Operation::Set(Variable::Private(word)) => behind.without(word),
        _ => behind,
    }
}

// The words that are to be kept at an index, given those that are kept elsewhere.
fn asked(ops: &[CoreOp], live: &[Set], index: usize) -> Set
    ensures { (word : ℕ) → is_in result.mask word
        ≡ v.asked ops.now (v.words_in live.now) index word }
{
    let Some(op) = op_at(ops, index) else {
        return Set::empty();
    };
    if op.is_jump() {
        return set_at(live, op.target as usize);
    }
    match op.operation() {
        Some(operation) => before(operation, behind(ops, live, operation, index, op.target)),
        None => Set::empty(),
    }
}

// Keeps at an index what is to be kept there. Gives whether that is more than before.
fn grow(ops: &[CoreOp], live: &mut [Set], index: usize) -> bool
    requires { index < length live.old }
    ensures least { v.IsLeast ops.now (v.words_in live.old)
        → v.IsLeast ops.now (v.words_in live.new) }
    ensures found { IsTrue result → v.left_over live.new < v.left_over live.old }
    ensures same { result ≡ false → live.new ≡ live.old }
    ensures all { result ≡ false → (word : ℕ)
        → v.asked ops.now (v.words_in live.old) index word ≡ true
        → v.words_in live.old index word ≡ true }
{
    let old = live[index];
    let new = old.union(asked(ops, live, index));
    if new.mask == old.mask {
        return false;
    }
    live[index] = new;
    true
}

// Goes through the list once, from its end. Gives whether it found another word.
fn pass(ops: &[CoreOp], live: &mut [Set]) -> bool
    requires long { length live.old ≡ length ops.now }
    requires least { v.IsLeast ops.now (v.words_in live.old) }
    ensures least { v.IsLeast ops.now (v.words_in live.new) }
    ensures found { IsTrue result → v.left_over live.new < v.left_over live.old }
    ensures all { result ≡ false → v.IsLive ops.now (v.words_in live.new) }
{
    let mut found = false;
    let mut index = live.len();
    'back: while index > 0 {
        index -= 1;
        if grow(ops, live, index) {
            found = true;
        }
    }
    found
}

// Keeps at each index what is to be kept there.
fn settle(ops: &[CoreOp], live: &mut [Set])
    requires long { length live.old ≡ length ops.now }
    requires least { v.IsLeast ops.now (v.words_in live.old) }
    ensures least { v.IsLeast ops.now (v.words_in live.new) }
    ensures all { v.IsLive ops.now (v.words_in live.new) }
{
    'passes: while pass(ops, live) {}
}

/// The private words of the running call that may be read before they are written, at each index of
/// a list: the fewest that include what each operation reads, and what is kept where it goes on and
/// it doesn't write. A pass takes time linear in the list and no memory, where each jump is the
/// first after one call at most. The number of passes is one more than the depth of nested loops.
/// Fails only if there isn't enough memory.
pub fn live_words(alloc: Global, ops: &[CoreOp]) -> Result<Vec<Set>, AllocError>
    ensures live { IfOk result (λ sets. v.IsLive ops.now (v.words_in sets.items)) }
    ensures least { IfOk result (λ sets. v.IsLeast ops.now (v.words_in sets.items)) }
{
    let mut live = vec![in alloc; Set::empty(); ops.len()]?;
    settle(ops, &mut live);
    Ok(live)
}
