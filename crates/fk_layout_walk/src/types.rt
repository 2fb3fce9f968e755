//! Whether a type is `void`.

ghost use Rattle.std.specs.Prelude.{◌≡◌};
ghost use Rattle.fk_syntax.specs.View.{type_of};
ghost use Rattle.fk_meaning_forms.specs.Statements as s;

use fk_syntax::{Base, TypeName};

/// Whether a type is `void`.
pub fn is_nothing(kind: &TypeName) -> bool
    ensures { result ≡ s.is_nothing (type_of kind.now) }
{
    match kind.base {
        Base::Void => kind.stars == 0,
        Base::Int | Base::Unsigned | Base::Struct(_) => false,
    }
}
