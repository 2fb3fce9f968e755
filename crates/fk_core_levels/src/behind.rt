//! One number for each call of a list, above all private words that it names.

ghost use Rattle.std.specs.Prelude.{◌≡◌, ◌<◌, ◌≤◌, ℕ, false, IsTrue, length, slice_get};
ghost use Rattle.fk_core.specs.Numbers.{operation_of};
ghost use Rattle.fk_gen.specs.Levels.{levels_in};
ghost use Rattle.fk_core_levels.specs.Behind as b;
ghost use Rattle.fk_core_levels.specs.Levels as l;

use fk_core::CoreOp;
use fk_core_list::{behind_jump, follows, op_at};
use fk_gen::Levels;
use fk_meaning_operation::{Operation, OwnValue, Variable};

// The number of private words up to one.
fn up_to(word: u32) -> u32
    ensures { result ≡ b.up_to word }
{
    if word < 64 { word + 1 } else { 0 }
}

/// The number of private words up to the one that an operation names.
pub(crate) fn named(op: CoreOp) -> u32
    ensures { result ≡ b.named (operation_of op.kind op.number) }
{
    match op.operation() {
        Some(Operation::Get(OwnValue::Value(Variable::Private(word)))) => up_to(word),
        Some(Operation::Set(Variable::Private(word))) => up_to(word),
        _ => 0,
    }
}

// Where the running call goes on after an operation, on one of two ways.
fn goes_on(ops: &[CoreOp], operation: Operation, index: usize, target: u32, onward: bool) -> usize
    requires { index < length ops.now }
    ensures { result ≡ b.goes_on ops.now operation index target onward }
{
    match operation {
        Operation::Leave { .. } | Operation::Halt => index,
        Operation::Enter(_) => behind_jump(ops, index + 1),
        _ => follows(ops, operation, index, target, onward),
    }
}

// Where the running call goes on after an index, on one of two ways.
fn leads(ops: &[CoreOp], index: usize, onward: bool) -> usize
    requires { index < length ops.now }
    ensures { result ≡ b.leads ops.now index onward }
{
    let Some(op) = op_at(ops, index) else {
        return index;
    };
    if op.is_jump() {
        return op.target as usize;
    }
    match op.operation() {
        Some(operation) => goes_on(ops, operation, index, op.target, onward),
        None => index,
    }
}

fn levels_at(saved: &[Levels], index: usize) -> Levels
    ensures { result ≡ levels_in saved.now index }
{
    match saved.get(index) {
        Some(levels) => *levels,
        None => Levels {
            count: 0,
            behind: 0,
            nest: 0,
            fork: None,
        },
    }
}

// Lets the levels at an index begin after so many words at least. Gives whether that is new.
fn raise(saved: &mut [Levels], index: usize, words: u32) -> bool
    requires inside { index < length saved.old }
    requires few { words ≤ 64 }
    ensures raised { saved.new ≡ l.raised saved.old index words }
    ensures same { result ≡ false → saved.new ≡ saved.old }
    ensures found { IsTrue result → l.left_over saved.new < l.left_over saved.old }
{
    let old = levels_at(saved, index);
    if old.behind >= words {
        return false;
    }
    saved[index] = Levels {
        behind: words,
        ..old
    };
    true
}

// Lets the levels at two indices begin after the same words.
fn join(saved: &mut [Levels], index: usize, other: usize) -> bool
    requires inside { index < length saved.old }
    requires there { other < length saved.old }
    requires few { l.behind_in saved.old index ≤ 64 }
    requires few_there { l.behind_in saved.old other ≤ 64 }
    ensures joined { saved.new ≡ l.joined saved.old index other }
    ensures same { result ≡ false → saved.new ≡ saved.old }
    ensures found { IsTrue result → l.left_over saved.new < l.left_over saved.old }
{
    let here = levels_at(saved, index);
    let there = levels_at(saved, other);
    let first = raise(saved, index, there.behind);
    let second = raise(saved, other, here.behind);
    first || second
}

// Joins an index and the one to which it leads on one of two ways, if that is in the list.
fn join_way(saved: &mut [Levels], ops: &[CoreOp], index: usize, onward: bool) -> bool
    requires settling { l.IsSettling ops.now saved.old }
    requires inside { index < length ops.now }
    ensures settling { l.IsSettling ops.now saved.new }
    ensures same { result ≡ false → saved.new ≡ saved.old }
    ensures found { IsTrue result → l.left_over saved.new < l.left_over saved.old }
    ensures stays { result ≡ false → l.StaysAt ops.now saved.old index onward }
{
    let other = leads(ops, index, onward);
    if other >= ops.len() {
        return false;
    }
    join(saved, index, other)
}

// Joins an index and those to which it leads.
fn join_ways(saved: &mut [Levels], ops: &[CoreOp], index: usize) -> bool
    requires settling { l.IsSettling ops.now saved.old }
    requires inside { index < length ops.now }
    ensures settling { l.IsSettling ops.now saved.new }
    ensures same { result ≡ false → saved.new ≡ saved.old }
    ensures found { IsTrue result → l.left_over saved.new < l.left_over saved.old }
    ensures stays { result ≡ false → l.StaysThere ops.now saved.old index }
{
    let first = join_way(saved, ops, index, true);
    let second = join_way(saved, ops, index, false);
    first || second
}

// Goes through the list once, from its beginning or from its end. Gives whether it found anything
// new.
fn sweep(saved: &mut [Levels], ops: &[CoreOp], back: bool) -> bool
    requires settling { l.IsSettling ops.now saved.old }
    ensures settling { l.IsSettling ops.now saved.new }
    ensures found { IsTrue result → l.left_over saved.new < l.left_over saved.old }
    ensures stays { result ≡ false → (i : ℕ) → i < length ops.now
        → l.StaysThere ops.now saved.new i }
{
    let mut found = false;
    'list: for step in 0..ops.len() {
        let index = if back { ops.len() - 1 - step } else { step };
        if join_ways(saved, ops, index) {
            found = true;
        }
    }
    found
}

/// Lets the levels of each call begin after one number of words, which is above all words that it
/// names.
pub(crate) fn settle(saved: &mut [Levels], ops: &[CoreOp])
    requires settling { l.IsSettling ops.now saved.old }
    ensures levels { l.AreLevels ops.now saved.new }
{
    let mut back = false;
    'sweeps: while sweep(saved, ops, back) {
        back = !back;
    }
}
