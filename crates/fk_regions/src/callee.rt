//! What a name calls.

ghost use Rattle.std.specs.Prelude.{◌≡◌, map, option_and_then, slice_get};
ghost use Rattle.fk_types_names.specs.View.{declaration_of};
ghost use Rattle.fk_regions.specs.Called.{callee_of, callee_in};

use fk_syntax::Mode;
use fk_types_names::{Declaration, Meaning, Names};

/// What a name calls.
#[derive(Clone, Copy)]
pub enum Callee {
    /// A function that the text declares, with its mode.
    Function(Mode),
    /// A predeclared name.
    Predeclared,
}

// What calls of the declaration with this number call; `None` for a variable.
fn declared_callee<'p, 'a>(declarations: &[Declaration<'p, 'a>], number: u32) -> Option<Callee>
    ensures { result ≡ callee_of (slice_get (map declaration_of declarations.now) number) }
{
    let at = number as usize;
    if at >= declarations.len() {
        return None;
    }
    match &declarations[at] {
        Declaration::Function(function) => Some(Callee::Function(function.mode)),
        Declaration::Variable(_) => None,
    }
}

// The meaning of the token with this index, if it is a name in an expression.
fn meaning_at(meanings: &[Option<Meaning>], token: u32) -> Option<Meaning>
    ensures { result ≡ option_and_then (λ m. m) (slice_get meanings.now token) }
{
    meanings.get(token as usize).copied().flatten()
}

/// What the token with this index calls, if it is a name in an expression.
pub(crate) fn called_by<'p, 'a>(names: &Names<'p, 'a>, token: u32) -> Option<Callee>
    ensures { result ≡ callee_in names.now token }
{
    match meaning_at(&names.meanings, token) {
        Some(Meaning::Declared(number)) => declared_callee(names.declared(), number),
        Some(Meaning::Predeclared) => Some(Callee::Predeclared),
        Some(Meaning::Undeclared) | None => None,
    }
}
