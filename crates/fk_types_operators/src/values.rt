//! The types of expressions, and their value types.

ghost use Rattle.std.specs.Prelude.{◌≡◌};
ghost use Rattle.fk_types_operators.specs.Values.{value_under, value_held, value_stored, value_of};
ghost use Rattle.fk_types_operators.specs.Values.{result_of, is_array, address_of};

use fk_types_structs::{DataType, Root};

/// The target of a pointer: a root with stars, such as `int *` for an `int **`.
#[derive(Clone, Copy, PartialEq, Eq)]
pub struct Target {
    pub root: Root,
    /// The number of pointers from it to the root.
    pub stars: u32,
}

/// The type of a value.
#[derive(Clone, Copy, PartialEq, Eq)]
pub enum Value {
    Int,
    Unsigned,
    /// A pointer to this target.
    Pointer(Target),
}

/// An operand of a sign.
#[derive(Clone, Copy, PartialEq, Eq)]
pub struct Operand {
    pub value: Value,
    /// Whether it is the number 0, written as one token, which converts to every pointer.
    pub is_zero: bool,
}

/// The type of an expression.
#[derive(Clone, Copy, PartialEq, Eq)]
pub enum ExpressionType {
    /// A stored value: a variable, a member, an element, or what a pointer points to.
    Stored(DataType),
    /// A computed value.
    Computed(Value),
    /// No value: the call of a `void` function.
    Nothing,
}

// The value type of a root with this number of stars. `void` and structs have none.
fn value_under(root: Root, stars: u32) -> Option<Value>
    ensures { result ≡ value_under root stars }
{
    if stars > 0 {
        let stars = stars - 1;
        return Some(Value::Pointer(Target { root, stars }));
    }
    match root {
        Root::Int => Some(Value::Int),
        Root::Unsigned => Some(Value::Unsigned),
        Root::Void | Root::Struct(_) => None,
    }
}

// The value type of a stored value. For an array it is the pointer to its first element.
fn value_stored(stored: &DataType) -> Option<Value>
    ensures { result ≡ value_stored stored.now }
{
    let DataType { root, stars, .. } = *stored;
    match stored.length {
        Some(_) => Some(Value::Pointer(Target { root, stars })),
        None => value_under(root, stars),
    }
}

impl ExpressionType {
    /// The value type of an expression with this type. For an array it is the pointer to its first
    /// element. A struct has none, and neither has a call of a `void` function.
    pub fn value(&self) -> Option<Value>
        ensures { result ≡ value_of self.now }
    {
        match self {
            ExpressionType::Stored(stored) => value_stored(stored),
            ExpressionType::Computed(value) => Some(*value),
            ExpressionType::Nothing => None,
        }
    }

    /// The type of the calls of a function whose result has this type.
    pub fn of_call(kind: &DataType) -> ExpressionType
        ensures { result ≡ result_of kind.now }
    {
        match value_stored(kind) {
            Some(value) => ExpressionType::Computed(value),
            None => ExpressionType::Nothing,
        }
    }

    /// Whether it is an array.
    pub fn is_array(&self) -> bool
        ensures { result ≡ is_array self.now }
    {
        match self {
            ExpressionType::Stored(stored) => stored.length.is_some(),
            ExpressionType::Computed(_) | ExpressionType::Nothing => false,
        }
    }

    /// The pointer to it, if it is stored. For an array it is that to its first element.
    pub fn address(&self) -> Option<Value>
        ensures { result ≡ address_of self.now }
    {
        match self {
            ExpressionType::Stored(stored) => Some(Value::Pointer(Target {
                root: stored.root,
                stars: stored.stars,
            })),
            ExpressionType::Computed(_) | ExpressionType::Nothing => None,
        }
    }
}
