//! Calls: the called function, and whether it takes its arguments.

ghost use Rattle.std.specs.Prelude.{◌≡◌, length, slice_get};
ghost use Rattle.std.specs.Option.{option_map};
ghost use Rattle.fk_types_judgments.specs.Typing.{parameters_of};
ghost use Rattle.fk_types_judgments.specs.Typing as y;
ghost use Rattle.fk_types_judgments.specs.Broken as b;
ghost use Rattle.fk_types_forms.specs.Scope.{parameter_of, meant_of, is_called, given_by};

use crate::names::Thing;
use crate::operands::{computed, does_convert, word_at};
use fk_types_operators::{ExpressionType, Operand, Value};
use fk_types_structs::{DataType, Root};

/// The arguments that a parameter takes.
#[derive(Clone, Copy)]
pub enum Parameter {
    /// Arguments that convert to its type. There is no type if its declaration breaks a rule.
    Typed(Option<DataType>),
    /// A pointer to integers, without a conversion.
    Words,
}

const INT: DataType = DataType {
    root: Root::Int,
    stars: 0,
    length: None,
};

const VOID_POINTER: DataType = DataType {
    root: Root::Void,
    stars: 1,
    length: None,
};

fn does_take(parameter: Parameter, from: Operand) -> bool
    ensures { result ≡ y.does_take (parameter_of parameter) from }
{
    match parameter {
        Parameter::Words => word_at(from.value).is_some(),
        Parameter::Typed(Some(kind)) => does_convert(from, ExpressionType::Stored(kind).value()),
        Parameter::Typed(None) => true,
    }
}

/// Whether an argument has a value that its parameter takes.
pub fn does_fit(parameter: Option<Parameter>, from: Option<Operand>) -> bool
    ensures { result ≡ y.does_fit (option_map parameter_of parameter) from }
{
    match (parameter, from) {
        (Some(parameter), Some(from)) => does_take(parameter, from),
        (None, Some(_)) => true,
        (_, None) => false,
    }
}

/// Whether an argument has a value that its parameter doesn't take.
pub fn is_not_taken(parameter: Option<Parameter>, from: Option<Operand>) -> bool
    ensures { result ≡ b.is_not_taken (option_map parameter_of parameter) from }
{
    match (parameter, from) {
        (Some(parameter), Some(from)) => !does_take(parameter, from),
        _ => false,
    }
}

impl Thing<'_> {
    /// The number of its parameters.
    pub fn count(&self) -> usize
        ensures { result ≡ length (parameters_of (meant_of self.now)) }
    {
        match self {
            Thing::Function(signature) => signature.parameters.len(),
            Thing::Multiprefix => 2,
            Thing::Request | Thing::Output => 1,
            _ => 0,
        }
    }

    /// The parameter at an index.
    pub fn parameter(&self, index: usize) -> Option<Parameter>
        ensures { option_map parameter_of result
            ≡ slice_get (parameters_of (meant_of self.now)) index }
    {
        match self {
            Thing::Function(signature) => match signature.parameters.get(index) {
                Some(kind) => Some(Parameter::Typed(*kind)),
                None => None,
            },
            Thing::Multiprefix if index == 0 => Some(Parameter::Words),
            Thing::Multiprefix if index == 1 => Some(Parameter::Typed(Some(INT))),
            Thing::Request | Thing::Output if index == 0 => Some(Parameter::Typed(Some(INT))),
            _ => None,
        }
    }

    // The type of a call of it, where `first` is the value type of the first argument.
    fn result(&self, first: Option<Value>) -> Option<ExpressionType>
        ensures { result ≡ given_by (meant_of self.now) first }
    {
        match self {
            Thing::Function(signature) => signature.result,
            Thing::Multiprefix => match first {
                Some(first) => computed(word_at(first)),
                None => None,
            },
            Thing::Request => Some(ExpressionType::of_call(&VOID_POINTER)),
            Thing::Output => Some(ExpressionType::Nothing),
            Thing::GroupSize => Some(ExpressionType::Computed(Value::Int)),
            Thing::Kept(_) | Thing::Constant(_) | Thing::Main | Thing::Undeclared => None,
        }
    }

    /// The type of a call of it, by the number of arguments, by whether each fits, and by the value
    /// type of the first one.
    pub fn call_type(
        &self,
        count: usize,
        do_fit: bool,
        first: Option<Value>,
    ) -> Option<ExpressionType>
        ensures { result ≡ y.call_type (meant_of self.now) count do_fit first }
    {
        if !self.is_function() {
            return None;
        }
        if count != self.count() {
            return None;
        }
        if !do_fit {
            return None;
        }
        self.result(first)
    }

    /// The type of a name that isn't called.
    pub fn name_type(&self) -> Option<ExpressionType>
        ensures { result ≡ y.name_type (meant_of self.now) }
    {
        match self {
            Thing::Kept(Some(kind)) => Some(ExpressionType::Stored(*kind)),
            Thing::Constant(value) => Some(ExpressionType::Computed(*value)),
            _ => None,
        }
    }

    /// Whether it is a predeclared value.
    pub fn is_constant(&self) -> bool
        ensures { result ≡ y.is_constant (meant_of self.now) }
    {
        matches!(self, Thing::Constant(_))
    }

    pub fn is_undeclared(&self) -> bool
        ensures { result ≡ b.is_undeclared (meant_of self.now) }
    {
        matches!(self, Thing::Undeclared)
    }

    pub fn is_main(&self) -> bool
        ensures { result ≡ b.is_main (meant_of self.now) }
    {
        matches!(self, Thing::Main)
    }

    // Whether it is a function other than `main`.
    fn is_function(&self) -> bool
        ensures { result ≡ is_called (meant_of self.now) }
    {
        match self {
            Thing::Function(_)
            | Thing::Multiprefix
            | Thing::Request
            | Thing::Output
            | Thing::GroupSize => true,
            Thing::Kept(_) | Thing::Constant(_) | Thing::Main | Thing::Undeclared => false,
        }
    }

    /// Whether it is a function.
    pub fn is_called(&self) -> bool
        ensures { result ≡ b.is_function (meant_of self.now) }
    {
        self.is_main() || self.is_function()
    }

    /// Whether it has a type and isn't a function.
    pub fn is_no_function(&self) -> bool
        ensures { result ≡ b.is_no_function (meant_of self.now) }
    {
        match self {
            Thing::Kept(kind) => kind.is_some(),
            Thing::Constant(_) => true,
            _ => false,
        }
    }

    /// Whether it has a number of parameters other than `count`.
    pub fn is_wrong_count(&self, count: usize) -> bool
        ensures { result ≡ b.is_wrong_count (meant_of self.now) count }
    {
        if !self.is_function() {
            return false;
        }
        count != self.count()
    }
}
