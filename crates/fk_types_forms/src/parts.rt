//! The properties of expressions.

ghost use Rattle.std.specs.Prelude.{◌≡◌, true, false, None};
ghost use Rattle.fk_check_rules.specs.Least.{IsLeast};
ghost use Rattle.fk_types_judgments.specs.Term.{Term};
ghost use Rattle.fk_types_judgments.specs.Names.{Env};
ghost use Rattle.fk_types_judgments.specs.Typing.{value_in, operand_in};
ghost use Rattle.fk_types_judgments.specs.Broken.{as_value, as_condition, as_statement, Broken};
ghost use Rattle.fk_types_forms.specs.Parts.{IsPart};

use crate::operands::{is_no_value, is_struct, operand_in, value_in};
use fk_check_rules::{Fault, Rule, fault_if, first_of};
use fk_syntax::{Name, Place};
use fk_types_operators::{ExpressionType, Operand, Value};

/// The properties of an expression that its context needs.
#[derive(Clone, Copy)]
pub struct Part<'a> {
    /// Its type. There is none if the expression or one of its parts breaks a rule.
    pub kind: Option<ExpressionType>,
    /// The place of its first token.
    pub first: Place,
    // Whether it is the number 0, written as one token.
    pub(crate) is_zero: bool,
    // Whether it isn't a variable, member, element or dereference.
    pub(crate) is_no_target: bool,
    // The name that it is, if it is one.
    pub(crate) name: Option<Name<'a>>,
    /// Its first fault that doesn't depend on its use.
    pub fault: Option<Fault>,
}

impl<'a> Part<'a> {
    /// Its value type.
    pub fn value(&self) -> Option<Value>
        ensures { result ≡ value_in self.now.kind }
    {
        value_in(self.kind)
    }

    /// The operand that it is for a sign.
    pub fn operand(&self) -> Option<Operand>
        ensures { result ≡ operand_in self.now.is_zero self.now.kind }
    {
        operand_in(self.is_zero, self.kind)
    }

    /// Its first fault if it is used as a value.
    pub fn as_value(&self) -> Option<Fault>
        ensures { (env : Env) (term : Term) → IsPart env term self.now
            → IsLeast (as_value env term (Broken env term)) result }
    {
        let own = fault_if(Rule::NoValue, self.first, is_no_value(self.kind));
        first_of(self.fault, own)
    }

    /// Its first fault if it is used as a condition.
    pub fn as_condition(&self) -> Option<Fault>
        ensures { (env : Env) (term : Term) → IsPart env term self.now
            → IsLeast (as_condition env term (Broken env term)) result }
    {
        let own = fault_if(Rule::NoCondition, self.first, is_no_value(self.kind));
        first_of(self.fault, own)
    }

    /// Its first fault if it is used as a statement.
    pub fn as_statement(&self) -> Option<Fault>
        ensures { (env : Env) (term : Term) → IsPart env term self.now
            → IsLeast (as_statement env term (Broken env term)) result }
    {
        let own = fault_if(Rule::NoValue, self.first, is_struct(self.kind));
        first_of(self.fault, own)
    }
}

// The part of a computed value.
pub(crate) fn made<'a>(kind: Option<ExpressionType>, first: Place, fault: Option<Fault>) -> Part<'a>
    ensures { result ≡ record {
      kind = kind;
      first = first;
      is_zero = false;
      is_no_target = true;
      name = None;
      fault = fault;
    } }
{
    Part {
        kind,
        first,
        is_zero: false,
        is_no_target: true,
        name: None,
        fault,
    }
}

// The part of a stored value that may be assigned to.
pub(crate) fn stored<'a>(
    kind: Option<ExpressionType>,
    first: Place,
    fault: Option<Fault>,
) -> Part<'a>
    ensures { result ≡ record {
      kind = kind;
      first = first;
      is_zero = false;
      is_no_target = false;
      name = None;
      fault = fault;
    } }
{
    Part {
        kind,
        first,
        is_zero: false,
        is_no_target: false,
        name: None,
        fault,
    }
}

/// The properties of the first arguments of a call.
#[derive(Clone, Copy)]
pub struct Arguments {
    // Whether each of them fits its parameter.
    pub(crate) do_fit: bool,
    // The value type of the first one that has one.
    pub(crate) first: Option<Value>,
    // Their first fault.
    pub(crate) fault: Option<Fault>,
}
