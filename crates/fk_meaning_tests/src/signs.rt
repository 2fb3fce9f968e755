//! Tables of signs.

use fk_syntax::Sign;
use fk_types_operators::{
    ExpressionType, Operand, Target, Value, binary, chosen, converts, counted, prefixed,
    sign_within,
};
use fk_types_structs::{DataType, Root};

const INT_POINTER: Value = Value::Pointer(Target {
    root: Root::Int,
    stars: 0,
});

const VOID_POINTER: Value = Value::Pointer(Target {
    root: Root::Void,
    stars: 0,
});

// Operands. All but `ZERO` are no constant zero.
const INT: Operand = Operand {
    value: Value::Int,
    is_zero: false,
};

const UNSIGNED: Operand = Operand {
    value: Value::Unsigned,
    is_zero: false,
};

const TO_INT: Operand = Operand {
    value: INT_POINTER,
    is_zero: false,
};

const TO_VOID: Operand = Operand {
    value: VOID_POINTER,
    is_zero: false,
};

const ZERO: Operand = Operand {
    value: Value::Int,
    is_zero: true,
};

// A sign, the operands on its two sides, and the type of the result.
static BETWEEN: [(Sign, Operand, Operand, Option<Value>); 12] = [
    (Sign::Star, INT, UNSIGNED, Some(Value::Unsigned)),
    (Sign::ShiftLeft, INT, UNSIGNED, Some(Value::Int)),
    (Sign::Plus, TO_INT, INT, Some(INT_POINTER)),
    (Sign::Plus, INT, TO_INT, None),
    (Sign::Minus, TO_INT, TO_INT, None),
    (Sign::Plus, TO_VOID, INT, None),
    (Sign::LessThan, TO_INT, TO_VOID, Some(Value::Int)),
    (Sign::AndAnd, TO_INT, UNSIGNED, Some(Value::Int)),
    (Sign::Assign, INT, INT, None),
    (Sign::Comma, INT, INT, None),
    (Sign::LessThan, TO_INT, ZERO, None),
    (Sign::EqualTo, ZERO, TO_INT, Some(Value::Int)),
];

#[test]
fn signs_between_operands(rt: HostRuntime) {
    for (sign, left, right, expected) in &BETWEEN {
        assert!(rt; binary(*sign, *left, *right) == *expected);
    }
}

// The type of a value after `-` and `~`, after `!`, and after `++` and `--`.
static ALONE: [(Value, Option<Value>, Option<Value>, Option<Value>); 3] = [
    (
        Value::Unsigned,
        Some(Value::Unsigned),
        Some(Value::Int),
        Some(Value::Unsigned),
    ),
    (INT_POINTER, None, Some(Value::Int), Some(INT_POINTER)),
    (VOID_POINTER, None, Some(Value::Int), None),
];

#[test]
fn signs_on_one_value(rt: HostRuntime) {
    for (value, number, negation, counts) in &ALONE {
        assert!(rt; prefixed(Sign::Minus, *value) == *number);
        assert!(rt; prefixed(Sign::Tilde, *value) == *number);
        assert!(rt; prefixed(Sign::Exclamation, *value) == *negation);
        assert!(rt; counted(*value) == *counts);
    }
    assert!(rt; sign_within(Sign::MinusAssign) == Some(Sign::Minus));
    assert!(rt; sign_within(Sign::Assign).is_none());
}

// An operand, a type, and whether the operand converts to it.
static CONVERTED: [(Operand, Value, bool); 5] = [
    (INT, Value::Unsigned, true),
    (TO_VOID, INT_POINTER, true),
    (ZERO, INT_POINTER, true),
    (INT, INT_POINTER, false),
    (TO_INT, Value::Int, false),
];

#[test]
fn values_convert(rt: HostRuntime) {
    for (from, to, expected) in &CONVERTED {
        assert!(rt; converts(*from, *to) == *expected);
    }
}

// The two operands of `?:`, and the type of the result.
static CHOSEN: [(Operand, Operand, Option<Value>); 3] = [
    (TO_INT, TO_VOID, Some(VOID_POINTER)),
    (ZERO, TO_INT, Some(INT_POINTER)),
    (INT, TO_INT, None),
];

#[test]
fn values_are_chosen(rt: HostRuntime) {
    for (first, second, expected) in &CHOSEN {
        assert!(rt; chosen(*first, *second) == *expected);
    }
}

const FOUR_INTS: ExpressionType = ExpressionType::Stored(DataType {
    root: Root::Int,
    stars: 0,
    length: Some(4),
});

const VOID: DataType = DataType {
    root: Root::Void,
    stars: 0,
    length: None,
};

#[test]
fn expressions_as_values(rt: HostRuntime) {
    assert!(rt; FOUR_INTS.value() == Some(INT_POINTER));
    assert!(rt; FOUR_INTS.address() == Some(INT_POINTER));
    assert!(rt; FOUR_INTS.is_array());
    assert!(rt; ExpressionType::of_call(&VOID) == ExpressionType::Nothing);
    assert!(rt; ExpressionType::Stored(VOID).value().is_none());
}
