//! Types, as far as code generation depends on them.

ghost use Rattle.std.specs.Prelude.{◌+◌, ◌≡◌, ◌≤◌, false};
ghost use Rattle.fk_num.specs.Limits.{most_data_words};
ghost use Rattle.fk_types_structs.specs.Whole.{structs_in, IsSound};
ghost use Rattle.fk_types_rules.specs.Kinds.{IsWords, IsStep, IsValueKind, IsArrayKind};
ghost use Rattle.fk_types_rules.specs.Kinds.{IsPlainKind, IsStoredKind, IsKind};

use fk_syntax::Kind;
use fk_types_operators::{ExpressionType, Target, Value};
use fk_types_structs::{DataType, Structs};

// The words of a type, and 0 where it has no number of words.
fn words(structs: &Structs, kind: &DataType) -> u32
    requires { IsSound structs.now }
    ensures words { IsWords (structs_in structs.now) kind.now result }
    ensures few { result ≤ most_data_words + 1 }
{
    match structs.words(kind) {
        Some(words) => words,
        None => 0,
    }
}

// The size in bytes of what a pointer points to; 0 for `void *`.
fn step(structs: &Structs, target: Target) -> u32
    requires { IsSound structs.now }
    ensures { IsStep (structs_in structs.now) target result }
{
    let pointed = DataType {
        root: target.root,
        stars: target.stars,
        length: None,
    };
    4 * words(structs, &pointed)
}

// The kind of a number, or of a pointer that moves by this step.
fn word(is_unsigned: bool, step: u32) -> Kind
    ensures { result ≡ record { words = 1; unsigned = is_unsigned; array = false; step = step } }
{
    Kind {
        words: 1,
        unsigned: is_unsigned,
        array: false,
        step,
    }
}

// The kind of a value with this many words that is neither a number nor a pointer.
fn plain(words: u32) -> Kind
    ensures { result ≡ record { words = words; unsigned = false; array = false; step = 0 } }
{
    Kind {
        words,
        unsigned: false,
        array: false,
        step: 0,
    }
}

fn kind_of_value(structs: &Structs, value: Value) -> Kind
    requires { IsSound structs.now }
    ensures { IsValueKind (structs_in structs.now) value result }
{
    match value {
        Value::Int => word(false, 0),
        Value::Unsigned => word(true, 0),
        Value::Pointer(target) => word(true, step(structs, target)),
    }
}

fn kind_of_array(structs: &Structs, array: &DataType) -> Kind
    requires { IsSound structs.now }
    ensures { IsArrayKind (structs_in structs.now) array.now result }
{
    let element = Target {
        root: array.root,
        stars: array.stars,
    };
    Kind {
        words: words(structs, array),
        unsigned: false,
        array: true,
        step: step(structs, element),
    }
}

// The kind of a stored value that isn't an array, by its value type.
fn kind_of_plain(structs: &Structs, stored: &DataType, value: Option<Value>) -> Kind
    requires { IsSound structs.now }
    ensures { IsPlainKind (structs_in structs.now) stored.now value result }
{
    match value {
        Some(value) => kind_of_value(structs, value),
        None => plain(words(structs, stored)),
    }
}

fn kind_of_stored(structs: &Structs, stored: &DataType) -> Kind
    requires { IsSound structs.now }
    ensures { IsStoredKind (structs_in structs.now) stored.now stored.now.length result }
{
    match stored.length {
        Some(_) => kind_of_array(structs, stored),
        None => kind_of_plain(structs, stored, ExpressionType::Stored(*stored).value()),
    }
}

/// The kind of a type, which is what code generation needs to know of it. A pointer is unsigned,
/// and its step is the size in bytes of what it points to. The step of an array is the size of an
/// element, and that of `void *` is 0. For a struct only the words are known, and the call of a
/// `void` function has none.
pub fn kind_of(structs: &Structs, kind: &ExpressionType) -> Kind
    requires { IsSound structs.now }
    ensures { IsKind (structs_in structs.now) kind.now result }
{
    match kind {
        ExpressionType::Stored(stored) => kind_of_stored(structs, stored),
        ExpressionType::Computed(value) => kind_of_value(structs, *value),
        ExpressionType::Nothing => plain(0),
    }
}
