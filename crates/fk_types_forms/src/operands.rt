//! The types that operands give together, and the rules that they break.

ghost use Rattle.std.specs.Prelude.{◌≡◌, None, is_none, if◌then◌else◌};
ghost use Rattle.std.specs.Option.{option_and_then};
ghost use Rattle.fk_syntax.specs.View.{type_of};
ghost use Rattle.fk_types_operators.specs.declared.values.Value.TheVariants.{Pointer};
ghost use Rattle.fk_types_operators.specs.Values.{address_of};
ghost use Rattle.fk_types_operators.specs.Values as v;
ghost use Rattle.fk_types_operators.specs.Signs.{binary, prefixed, counted, chosen};
ghost use Rattle.fk_types_judgments.specs.Typing as y;
ghost use Rattle.fk_types_judgments.specs.Broken as b;

use fk_syntax::{Base, Sign, TypeName};
use fk_types_operators::{
    ExpressionType, Operand, Target, Value, binary, chosen, converts, counted, prefixed,
    sign_within,
};
use fk_types_structs::{DataType, Root};

/// The value type of an expression with this type.
pub(crate) fn value_in(kind: Option<ExpressionType>) -> Option<Value>
    ensures { result ≡ y.value_in kind }
{
    match kind {
        Some(kind) => kind.value(),
        None => None,
    }
}

/// The operand that an expression with this type is.
pub(crate) fn operand_in(is_zero: bool, kind: Option<ExpressionType>) -> Option<Operand>
    ensures { result ≡ y.operand_in is_zero kind }
{
    match value_in(kind) {
        Some(value) => Some(Operand { value, is_zero }),
        None => None,
    }
}

/// The type of a computed value.
pub(crate) fn computed(value: Option<Value>) -> Option<ExpressionType>
    ensures { result ≡ y.computed value }
{
    match value {
        Some(value) => Some(ExpressionType::Computed(value)),
        None => None,
    }
}

/// Whether there is a type, but it has no value.
pub(crate) fn is_no_value(kind: Option<ExpressionType>) -> bool
    ensures { result ≡ b.is_such b.is_no_value kind }
{
    match kind {
        Some(kind) => kind.value().is_none(),
        None => false,
    }
}

/// The type that a statement leaves: that of a value or of nothing, but not that of a struct.
pub(crate) fn left_of(kind: ExpressionType) -> Option<ExpressionType>
    ensures { result ≡ y.left_of kind }
{
    match kind {
        ExpressionType::Nothing => Some(ExpressionType::Nothing),
        ExpressionType::Computed(value) => Some(ExpressionType::Computed(value)),
        ExpressionType::Stored(_) => computed(kind.value()),
    }
}

/// Whether there is a type, which is a struct.
pub(crate) fn is_struct(kind: Option<ExpressionType>) -> bool
    ensures { result ≡ b.is_such b.is_struct kind }
{
    match kind {
        Some(kind) => left_of(kind).is_none(),
        None => false,
    }
}

/// Whether there is a type, which is an array.
pub(crate) fn is_array(kind: Option<ExpressionType>) -> bool
    ensures { result ≡ b.is_such v.is_array kind }
{
    match kind {
        Some(kind) => kind.is_array(),
        None => false,
    }
}

/// The type of a comma expression, by the types of its sides.
pub(crate) fn last_of(
    left: Option<ExpressionType>,
    right: Option<ExpressionType>,
) -> Option<ExpressionType>
    ensures { result ≡ y.last_of left right }
{
    match (left, right) {
        (Some(left), Some(right)) => {
            if left_of(left).is_some() {
                left_of(right)
            } else {
                None
            }
        }
        _ => None,
    }
}

/// The type of a sign before a value.
pub(crate) fn with_prefix(sign: Sign, value: Option<Value>) -> Option<Value>
    ensures { result ≡ option_and_then (prefixed sign) value }
{
    match value {
        Some(value) => prefixed(sign, value),
        None => None,
    }
}

/// Whether there is a value that the sign before it doesn't take.
pub(crate) fn is_not_prefixed(sign: Sign, value: Option<Value>) -> bool
    ensures { result ≡ b.is_such (λ v. is_none (prefixed sign v)) value }
{
    match value {
        Some(value) => prefixed(sign, value).is_none(),
        None => false,
    }
}

/// The type of a sign between two operands.
pub(crate) fn joined(sign: Sign, left: Option<Operand>, right: Option<Operand>) -> Option<Value>
    ensures { result ≡ y.of_both (binary sign) left right }
{
    match (left, right) {
        (Some(left), Some(right)) => binary(sign, left, right),
        _ => None,
    }
}

/// Whether there are two operands that the sign between them doesn't take.
pub(crate) fn are_not_joined(sign: Sign, left: Option<Operand>, right: Option<Operand>) -> bool
    ensures { result ≡ b.are_refused (binary sign) left right }
{
    match (left, right) {
        (Some(left), Some(right)) => binary(sign, left, right).is_none(),
        _ => false,
    }
}

/// The type of a `?:`, if its condition has a value.
pub(crate) fn branched(
    condition: Option<Value>,
    first: Option<Operand>,
    second: Option<Operand>,
) -> Option<ExpressionType>
    ensures { result ≡ y.branched condition first second }
{
    match (condition, first, second) {
        (Some(_), Some(first), Some(second)) => computed(chosen(first, second)),
        _ => None,
    }
}

/// Whether there are two branches, but they have no common type.
pub(crate) fn are_not_chosen(first: Option<Operand>, second: Option<Operand>) -> bool
    ensures { result ≡ b.are_refused chosen first second }
{
    match (first, second) {
        (Some(first), Some(second)) => chosen(first, second).is_none(),
        _ => false,
    }
}

// The type of what a pointer with this target points to.
fn stored_at(target: Target) -> Option<ExpressionType>
    ensures { result ≡ y.pointed (Pointer target) }
{
    if target.is_void() {
        return None;
    }
    Some(ExpressionType::Stored(DataType {
        root: target.root,
        stars: target.stars,
        length: None,
    }))
}

// The type of what a pointer points to. There is none for a `void *`.
fn pointed(value: Value) -> Option<ExpressionType>
    ensures { result ≡ y.pointed value }
{
    match value {
        Value::Pointer(target) => stored_at(target),
        Value::Int | Value::Unsigned => None,
    }
}

/// The type of what a pointer points to, if there is a pointer.
pub(crate) fn pointed_by(value: Option<Value>) -> Option<ExpressionType>
    ensures { result ≡ option_and_then y.pointed value }
{
    match value {
        Some(value) => pointed(value),
        None => None,
    }
}

/// Whether there is a value that doesn't point to a type.
pub(crate) fn is_no_pointer(value: Option<Value>) -> bool
    ensures { result ≡ b.is_such b.is_no_pointer value }
{
    match value {
        Some(value) => pointed(value).is_none(),
        None => false,
    }
}

/// Whether there is a value that isn't an integer.
pub(crate) fn is_no_integer(value: Option<Value>) -> bool
    ensures { result ≡ b.is_such b.is_no_integer value }
{
    match value {
        Some(value) => !value.is_integer(),
        None => false,
    }
}

/// The type of an element of an array.
pub(crate) fn element(whole: Option<Value>, by: Option<Value>) -> Option<ExpressionType>
    ensures { result ≡ y.element whole by }
{
    match (whole, by) {
        (Some(whole), Some(by)) => {
            if by.is_integer() {
                pointed(whole)
            } else {
                None
            }
        }
        _ => None,
    }
}

// The index of the struct that a root with this number of stars is.
fn struct_of_root(root: Root, stars: u32) -> Option<usize>
    ensures { result ≡ y.struct_of_root root stars }
{
    if stars > 0 {
        return None;
    }
    match root {
        Root::Struct(index) => Some(index as usize),
        Root::Int | Root::Unsigned | Root::Void => None,
    }
}

/// The index of the struct that an expression with this type is.
pub fn struct_in(kind: Option<ExpressionType>) -> Option<usize>
    ensures { result ≡ option_and_then y.struct_of kind }
{
    match kind {
        Some(ExpressionType::Stored(stored)) => {
            if stored.length.is_some() {
                return None;
            }
            struct_of_root(stored.root, stored.stars)
        }
        Some(ExpressionType::Computed(_) | ExpressionType::Nothing) | None => None,
    }
}

/// The index of the struct that a value points to.
pub fn struct_at(value: Option<Value>) -> Option<usize>
    ensures { result ≡ option_and_then y.struct_at value }
{
    match value {
        Some(Value::Pointer(target)) => struct_of_root(target.root, target.stars),
        Some(Value::Int | Value::Unsigned) | None => None,
    }
}

/// The type of the pointer to a stored value; `None` if the value is `no_target`.
pub(crate) fn address(is_no_target: bool, kind: Option<ExpressionType>) -> Option<ExpressionType>
    ensures { result
        ≡ (if is_no_target then None else y.computed (option_and_then address_of kind)) }
{
    match kind {
        Some(kind) if !is_no_target => computed(kind.address()),
        _ => None,
    }
}

// The type of a value after `++` or `--`.
fn count_of(value: Option<Value>) -> Option<Value>
    ensures { result ≡ option_and_then counted value }
{
    match value {
        Some(value) => counted(value),
        None => None,
    }
}

/// The type of a `++` or `--` expression.
pub(crate) fn counted_type(
    is_no_target: bool,
    kind: Option<ExpressionType>,
) -> Option<ExpressionType>
    ensures { result ≡ (if is_no_target then None else option_and_then y.counted_type kind) }
{
    match kind {
        Some(kind) if !is_no_target && !kind.is_array() => computed(count_of(kind.value())),
        _ => None,
    }
}

/// Whether there is a type that isn't an array, but `++` and `--` don't count it.
pub(crate) fn is_not_counted(kind: Option<ExpressionType>) -> bool
    ensures { result ≡ b.is_such b.is_not_counted kind }
{
    match kind {
        Some(kind) => !kind.is_array() && count_of(kind.value()).is_none(),
        None => false,
    }
}

/// Whether a value converts to a type, if that is a value type.
pub(crate) fn does_convert(from: Operand, to: Option<Value>) -> bool
    ensures { result ≡ y.does_convert from to }
{
    match to {
        Some(to) => converts(from, to),
        None => false,
    }
}

// Whether the operator of a compound assignment takes the two operands.
fn does_sign_take(sign: Sign, to: Option<Value>, from: Operand) -> bool
    ensures { result ≡ y.does_sign_take sign to from }
{
    match (to, sign_within(sign)) {
        (Some(value), Some(within)) => {
            let to = Operand {
                value,
                is_zero: false,
            };
            binary(within, to, from).is_some()
        }
        _ => false,
    }
}

// Whether an assignment takes a value: for `=` if it converts, else if the operator takes it.
fn does_assign(sign: Sign, to: Option<Value>, from: Operand) -> bool
    ensures { result ≡ y.does_assign sign to from }
{
    match sign {
        Sign::Assign => does_convert(from, to),
        _ => does_sign_take(sign, to, from),
    }
}

/// The type of an assignment.
pub(crate) fn assigned(
    is_no_target: bool,
    sign: Sign,
    place: Option<ExpressionType>,
    value: Option<Operand>,
) -> Option<ExpressionType>
    ensures { result ≡ (if is_no_target then None else y.assigned sign place value) }
{
    match (place, value) {
        (Some(place), Some(value)) => {
            let to = place.value();
            if !is_no_target && !place.is_array() && does_assign(sign, to, value) {
                computed(to)
            } else {
                None
            }
        }
        _ => None,
    }
}

/// Whether there are a target that isn't an array and a value, but the assignment doesn't take the
/// value.
pub(crate) fn is_not_assigned(
    sign: Sign,
    place: Option<ExpressionType>,
    value: Option<Operand>,
) -> bool
    ensures { result ≡ b.is_not_assigned sign place value }
{
    match (place, value) {
        (Some(place), Some(value)) => {
            !place.is_array() && !does_assign(sign, place.value(), value)
        }
        _ => false,
    }
}

/// Whether a written type is neither an integer nor a pointer.
pub(crate) fn is_no_value_type(kind: &TypeName) -> bool
    ensures { result ≡ y.is_no_value_type (type_of kind.now) }
{
    match kind.base {
        Base::Int | Base::Unsigned => false,
        Base::Void | Base::Struct(_) => kind.stars == 0,
    }
}

/// The type of a `sizeof`.
pub(crate) fn sizeof_type(kind: Option<DataType>) -> Option<ExpressionType>
    ensures { result ≡ y.sizeof_type kind }
{
    let DataType { root, stars, .. } = kind?;
    if (Target { root, stars }).is_void() {
        return None;
    }
    Some(ExpressionType::Computed(Value::Unsigned))
}

/// The type of a cast.
pub(crate) fn cast_type(kind: Option<DataType>, value: Option<Value>) -> Option<ExpressionType>
    ensures { result ≡ y.cast_type kind value }
{
    match (kind, value) {
        (Some(kind), Some(_)) => computed(ExpressionType::Stored(kind).value()),
        _ => None,
    }
}

// The integer type that a root with this number of stars is.
fn integer_under(root: Root, stars: u32) -> Option<Value>
    ensures { result ≡ y.integer_under root stars }
{
    if stars > 0 {
        return None;
    }
    match root {
        Root::Int => Some(Value::Int),
        Root::Unsigned => Some(Value::Unsigned),
        Root::Void | Root::Struct(_) => None,
    }
}

/// The integer type that a value points to.
pub(crate) fn word_at(value: Value) -> Option<Value>
    ensures { result ≡ y.word_at value }
{
    match value {
        Value::Pointer(target) => integer_under(target.root, target.stars),
        Value::Int | Value::Unsigned => None,
    }
}
