//! Tokens, as far as the rules on sharing need them.

ghost use Rattle.std.specs.Prelude.{◌≡◌, map};
ghost use Rattle.fk_syntax.specs.View.{tree_of, type_of};
ghost use Rattle.fk_syntax.specs.ProgramView.{declared_of};
ghost use Rattle.fk_sharing_class.specs.Things.{thing_in};
ghost use Rattle.fk_sharing.specs.Tokens.{word_of_sign, is_struct, form_of, named_thing};

use crate::around::Around;
use fk_sharing_class::{Thing, thing_at};
use fk_syntax::{Base, Declared, Expr, Mode, Sign, Spot, TypeName};
use fk_types_names::Names;

/// The form of a variable.
#[derive(Clone, Copy)]
pub enum Form {
    /// One word.
    Scalar,
    Array,
    Struct,
}

/// The kind of a token.
#[derive(Clone, Copy)]
pub enum Word {
    /// `if`, `while`, `do`, `for`, `&&`, `||` or the `?` of a `?:`, with whether its condition is
    /// shared.
    Decides(bool),
    /// A sign before its operand, with what the operand denotes if it is a name.
    Prefix(Sign, Option<Thing>),
    Break,
    Continue,
    Return,
    /// The name of a declared variable, with whether it has `sh`.
    Variable(bool, Form),
    /// The name of a parameter, with whether it has `sh` and with the mode of its function.
    Parameter(bool, Mode),
    Other,
}

/// A token of a program, and its surroundings.
#[derive(Clone, Copy)]
pub struct Token {
    pub around: Around,
    pub spot: Spot,
    /// Whether it is the main token of a shared expression.
    pub shared: bool,
    pub word: Word,
}

/// The kind of the sign of a chain. `before` tells whether the expression before it is shared.
pub(crate) fn word_of_sign(sign: Sign, before: bool) -> Word
    ensures { result ≡ word_of_sign sign before }
{
    match sign {
        Sign::AndAnd | Sign::OrOr => Word::Decides(before),
        _ => Word::Other,
    }
}

fn is_struct(kind: &TypeName) -> bool
    ensures { result ≡ is_struct (type_of kind.now) }
{
    match kind.base {
        Base::Struct(_) => kind.stars == 0,
        Base::Int | Base::Unsigned | Base::Void => false,
    }
}

/// The form of a variable.
pub(crate) fn form_of(variable: &Declared) -> Form
    ensures { result ≡ form_of (declared_of variable.now) }
{
    if variable.length.is_some() {
        Form::Array
    } else if is_struct(&variable.kind) {
        Form::Struct
    } else {
        Form::Scalar
    }
}

/// What an expression denotes, if it is a name.
pub(crate) fn named_thing(expression: &Expr, names: &Names) -> Option<Thing>
    ensures { result ≡ named_thing (thing_in names.now) (tree_of expression.now) }
{
    match expression {
        Expr::Named(name) => thing_at(names, name.at),
        Expr::Number(_, _, _)
        | Expr::Puts(_, _)
        | Expr::Sizeof(_, _)
        | Expr::GroupNumber(_)
        | Expr::GroupRank(_)
        | Expr::Prefix(_, _, _)
        | Expr::Cast(_, _, _)
        | Expr::Chain(_, _)
        | Expr::Postfix(_, _)
        | Expr::Assign(_, _, _, _)
        | Expr::Choose(_, _, _, _) => None,
    }
}
