//! What names denote, and which of them are shared.

ghost use Rattle.std.specs.Prelude.{◌≡◌, map, slice_get};
ghost use Rattle.fk_types_names.specs.View.{declaration_of};
ghost use Rattle.fk_sharing_class.specs.Things.{thing_of, thing_in};
ghost use Rattle.fk_sharing_class.specs.Class.{is_common, is_of_group, is_name_shared};
ghost use Rattle.fk_sharing_class.specs.Class.{is_named_call_shared};

use fk_types_names::{Declaration, Meaning, Names};

/// What a name in an expression denotes.
#[derive(Clone, Copy)]
pub enum Thing {
    /// A variable or parameter with `sh`.
    SharedVariable,
    /// A variable or parameter without `sh`.
    PrivateVariable,
    /// A function that the text declares.
    Function,
    /// A predeclared name.
    Predeclared,
}

// What the declaration with this number declares.
fn declared_thing(declarations: &[Declaration], number: u32) -> Option<Thing>
    ensures { result ≡ thing_of (slice_get (map declaration_of declarations.now) number) }
{
    let at = number as usize;
    if at >= declarations.len() {
        return None;
    }
    match &declarations[at] {
        Declaration::Variable(variable) if variable.shared => Some(Thing::SharedVariable),
        Declaration::Variable(_) => Some(Thing::PrivateVariable),
        Declaration::Function(_) => Some(Thing::Function),
    }
}

/// What the token with this index denotes, if it is a name in an expression and has a meaning.
pub fn thing_at(names: &Names, token: u32) -> Option<Thing>
    ensures { result ≡ thing_in names.now token }
{
    match names.meanings.get(token as usize).copied().flatten()? {
        Meaning::Declared(number) => declared_thing(names.declared(), number),
        Meaning::Predeclared => Some(Thing::Predeclared),
        Meaning::Undeclared => None,
    }
}

// Whether a predeclared name is a value that is the same for all processors.
fn is_common(name: &[u8]) -> bool
    ensures { result ≡ is_common name.now }
{
    name == b"__STARTED_PROCS__".as_slice()
        || name == b"__inputs".as_slice()
        || name == b"__input".as_slice()
}

// Whether calls of a predeclared name give one value for a whole group.
fn is_of_group(name: &[u8]) -> bool
    ensures { result ≡ is_of_group name.now }
{
    name == b"groupsize".as_slice() || name == b"shalloc".as_slice()
}

/// Whether a name is shared, by what it denotes.
pub fn is_name_shared(thing: Option<Thing>, name: &[u8]) -> bool
    ensures { result ≡ is_name_shared thing name.now }
{
    match thing {
        Some(Thing::SharedVariable) => true,
        Some(Thing::Predeclared) => is_common(name),
        Some(Thing::PrivateVariable | Thing::Function) | None => false,
    }
}

/// Whether a call of a name is shared, by what the name denotes.
pub fn is_named_call_shared(thing: Option<Thing>, name: &[u8]) -> bool
    ensures { result ≡ is_named_call_shared thing name.now }
{
    match thing {
        Some(Thing::Predeclared) => is_of_group(name),
        Some(Thing::SharedVariable | Thing::PrivateVariable | Thing::Function) | None => false,
    }
}
