//! The table of signs.

ghost use Rattle.std.specs.Prelude.{◌≡◌};
ghost use Rattle.fk_types_operators.specs.Signs as t;
ghost use Rattle.fk_types_operators.specs.Signs.{is_void, is_same_target, do_convert, is_integer};
ghost use Rattle.fk_types_operators.specs.Signs.{joined, moved, summed, shifted, int_if};
ghost use Rattle.fk_types_operators.specs.Signs.{are_ordered, are_comparable, met};

use crate::values::{Operand, Target, Value};
use fk_syntax::Sign;
use fk_types_structs::Root;

fn is_same_root(left: Root, right: Root) -> bool
    ensures { result ≡ t.is_same_root left right }
{
    match (left, right) {
        (Root::Int, Root::Int) | (Root::Unsigned, Root::Unsigned) | (Root::Void, Root::Void) => {
            true
        }
        (Root::Struct(first), Root::Struct(second)) => first == second,
        _ => false,
    }
}

impl Target {
    /// Whether a pointer to this target is `void *`.
    pub fn is_void(&self) -> bool
        ensures { result ≡ is_void self.now }
    {
        matches!(self.root, Root::Void) && self.stars == 0
    }

    fn is_same(&self, other: &Target) -> bool
        ensures { result ≡ is_same_target self.now other.now }
    {
        is_same_root(self.root, other.root) && self.stars == other.stars
    }

    // Whether pointers to the two targets convert to each other.
    fn does_convert(&self, other: &Target) -> bool
        ensures { result ≡ do_convert self.now other.now }
    {
        self.is_same(other) || self.is_void() || other.is_void()
    }

    // The type of a pointer to this target after it is moved; `None` for `void *`.
    fn moved(self) -> Option<Value>
        ensures { result ≡ moved self }
    {
        if self.is_void() {
            return None;
        }
        Some(Value::Pointer(self))
    }
}

impl Value {
    /// Whether it is an integer, and not a pointer.
    pub fn is_integer(&self) -> bool
        ensures { result ≡ is_integer self.now }
    {
        match self {
            Value::Int | Value::Unsigned => true,
            Value::Pointer(_) => false,
        }
    }
}

/// Whether a value converts to a type. Integers convert to each other, pointers to those of the
/// same type, to and from `void *`, and the number 0 to every pointer.
pub fn converts(from: Operand, to: Value) -> bool
    ensures { result ≡ t.converts from to }
{
    match (from.value, to) {
        (Value::Pointer(left), Value::Pointer(right)) => left.does_convert(&right),
        (Value::Pointer(_), Value::Int | Value::Unsigned) => false,
        (Value::Int | Value::Unsigned, Value::Pointer(_)) => from.is_zero,
        (Value::Int | Value::Unsigned, Value::Int | Value::Unsigned) => true,
    }
}

// The type that two integers give, which is `unsigned` if one of them is.
fn joined(left: Value, right: Value) -> Option<Value>
    ensures { result ≡ joined left right }
{
    match (left, right) {
        (Value::Int, Value::Int) => Some(Value::Int),
        (Value::Pointer(_), _) | (_, Value::Pointer(_)) => None,
        (Value::Int | Value::Unsigned, Value::Int | Value::Unsigned) => Some(Value::Unsigned),
    }
}

// `+` and `-`
fn summed(left: Value, right: Value) -> Option<Value>
    ensures { result ≡ summed left right }
{
    match (left, right) {
        (Value::Pointer(target), Value::Int | Value::Unsigned) => target.moved(),
        _ => joined(left, right),
    }
}

// `<<` and `>>`
fn shifted(left: Value, right: Value) -> Option<Value>
    ensures { result ≡ shifted left right }
{
    match (left, right) {
        (Value::Pointer(_), _) | (_, Value::Pointer(_)) => None,
        (Value::Int | Value::Unsigned, Value::Int | Value::Unsigned) => Some(left),
    }
}

// `int` if a test holds
fn int_if(holds: bool) -> Option<Value>
    ensures { result ≡ int_if holds }
{
    if holds { Some(Value::Int) } else { None }
}

fn are_ordered(left: Value, right: Value) -> bool
    ensures { result ≡ are_ordered left right }
{
    match (left, right) {
        (Value::Pointer(first), Value::Pointer(second)) => first.does_convert(&second),
        (Value::Pointer(_), Value::Int | Value::Unsigned) => false,
        (Value::Int | Value::Unsigned, Value::Pointer(_)) => false,
        (Value::Int | Value::Unsigned, Value::Int | Value::Unsigned) => true,
    }
}

fn are_comparable(left: Operand, right: Operand) -> bool
    ensures { result ≡ are_comparable left.is_zero right.is_zero left.value right.value }
{
    match (left.value, right.value) {
        (Value::Pointer(first), Value::Pointer(second)) => first.does_convert(&second),
        (Value::Pointer(_), Value::Int | Value::Unsigned) => right.is_zero,
        (Value::Int | Value::Unsigned, Value::Pointer(_)) => left.is_zero,
        (Value::Int | Value::Unsigned, Value::Int | Value::Unsigned) => true,
    }
}

/// The type of a sign between two operands. There is none if the sign doesn't take them, or if it
/// doesn't occur between two operands. The latter includes the comma and assignments.
pub fn binary(sign: Sign, left: Operand, right: Operand) -> Option<Value>
    ensures { result ≡ t.binary sign left right }
{
    match sign {
        Sign::Star | Sign::Slash | Sign::Percent | Sign::Ampersand | Sign::Bar | Sign::Caret =>
            joined(left.value, right.value),
        Sign::Plus | Sign::Minus => summed(left.value, right.value),
        Sign::ShiftLeft | Sign::ShiftRight => shifted(left.value, right.value),
        Sign::LessThan | Sign::LessOrEqual | Sign::GreaterThan | Sign::GreaterOrEqual => {
            int_if(are_ordered(left.value, right.value))
        }
        Sign::EqualTo | Sign::NotEqualTo => int_if(are_comparable(left, right)),
        Sign::AndAnd | Sign::OrOr => Some(Value::Int),
        _ => None,
    }
}

/// The type of a sign `+`, `-`, `~` or `!` before a value. There is none if the sign doesn't take
/// the value, or for other signs.
pub fn prefixed(sign: Sign, value: Value) -> Option<Value>
    ensures { result ≡ t.prefixed sign value }
{
    match sign {
        Sign::Exclamation => Some(Value::Int),
        Sign::Plus | Sign::Minus | Sign::Tilde => match value {
            Value::Int | Value::Unsigned => Some(value),
            Value::Pointer(_) => None,
        },
        _ => None,
    }
}

/// The type of `++` or `--` on a value. There is none for a `void *`.
pub fn counted(value: Value) -> Option<Value>
    ensures { result ≡ t.counted value }
{
    match value {
        Value::Int | Value::Unsigned => Some(value),
        Value::Pointer(target) => target.moved(),
    }
}

// The common type of two pointers.
fn met(left: Target, right: Target) -> Option<Value>
    ensures { result ≡ met left right }
{
    if left.is_void() {
        return Some(Value::Pointer(left));
    }
    if right.is_void() {
        return Some(Value::Pointer(right));
    }
    if left.is_same(&right) {
        return Some(Value::Pointer(left));
    }
    None
}

// A pointer if a test holds
fn pointer_if(holds: bool, target: Target) -> Option<Value>
    ensures { result ≡ t.pointer_if holds target }
{
    if holds {
        return Some(Value::Pointer(target));
    }
    None
}

/// The type of a `?:`, by its two operands. There is none if they have no common type.
pub fn chosen(first: Operand, second: Operand) -> Option<Value>
    ensures { result ≡ t.chosen first second }
{
    match (first.value, second.value) {
        (Value::Pointer(left), Value::Pointer(right)) => met(left, right),
        (Value::Pointer(target), Value::Int | Value::Unsigned) => {
            pointer_if(second.is_zero, target)
        }
        (Value::Int | Value::Unsigned, Value::Pointer(target)) => {
            pointer_if(first.is_zero, target)
        }
        (left, right) => joined(left, right),
    }
}

/// The operator of a compound assignment such as `+=`. `=` and all other signs have none.
pub fn sign_within(sign: Sign) -> Option<Sign>
    ensures { result ≡ t.sign_within sign }
{
    match sign {
        Sign::PlusAssign => Some(Sign::Plus),
        Sign::MinusAssign => Some(Sign::Minus),
        Sign::StarAssign => Some(Sign::Star),
        Sign::SlashAssign => Some(Sign::Slash),
        Sign::PercentAssign => Some(Sign::Percent),
        Sign::AmpersandAssign => Some(Sign::Ampersand),
        Sign::BarAssign => Some(Sign::Bar),
        Sign::CaretAssign => Some(Sign::Caret),
        Sign::ShiftLeftAssign => Some(Sign::ShiftLeft),
        Sign::ShiftRightAssign => Some(Sign::ShiftRight),
        _ => None,
    }
}
