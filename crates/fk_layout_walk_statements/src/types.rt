//! What a declaration declares, by its words.

ghost use Rattle.std.specs.Prelude.{◌≡◌};
ghost use Rattle.fk_syntax.specs.View.{type_of};
ghost use Rattle.fk_syntax.specs.ProgramView.{declared_of};
ghost use Rattle.fk_meaning_forms.specs.Statements as s;

use fk_syntax::{Base, Declared, TypeName};

/// Whether a declaration declares a number or a pointer.
pub(crate) fn is_scalar(declared: &Declared) -> bool
    ensures { result ≡ s.is_scalar (declared_of declared.now) }
{
    match declared.length {
        Some(_) => false,
        None => !is_struct(&declared.kind),
    }
}

// Whether a type is a struct.
fn is_struct(kind: &TypeName) -> bool
    ensures { result ≡ s.is_struct (type_of kind.now) }
{
    match kind.base {
        Base::Struct(_) => kind.stars == 0,
        Base::Int | Base::Unsigned | Base::Void => false,
    }
}
