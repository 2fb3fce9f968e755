//! `main`, and the index where it begins in a list.

ghost use Rattle.std.specs.Prelude.{◌≡◌, ◌∷◌, List, OnOk, IfErr, unwrap_or};
ghost use Rattle.fk_syntax.specs.Program.{ItemTree};
ghost use Rattle.fk_syntax.specs.ProgramView.{function_of, item_of};
ghost use Rattle.fk_meaning_forms.specs.Program as f;
ghost use Rattle.fk_meaning_forms.specs.Program.{functions_of, binding_of, main_in};
ghost use Rattle.fk_layout_walk.specs.Known.{tables_of};
ghost use Rattle.fk_layout_walk_statements.specs.Texts.{functions_in};
ghost use Rattle.fk_lower.specs.Written.{entry_of};
ghost use Rattle.fk_lower_text.specs.Lowered.{IsTextFault};

use fk_layout_walk::ProgramTables;
use fk_lower::Lowered;
use fk_syntax::{Function, Item};

/// The binding of a function.
pub(crate) fn binding_of(known: &ProgramTables, whole: &Function) -> u32
    ensures { result ≡ binding_of (tables_of known.now) (function_of whole.now) }
{
    known.note(whole.name.at).binding
}

fn is_main(whole: &Function) -> bool
    ensures { result ≡ f.is_main (function_of whole.now) }
{
    whole.name.bytes == b"main".as_slice()
}

// The binding of `main`, if the item is that function.
fn main_here(known: &ProgramTables, item: &Item) -> Option<u32>
    ensures { (others : List ItemTree)
        → main_in (tables_of known.now) (functions_of (item_of item.now ∷ others))
        ≡ unwrap_or result (main_in (tables_of known.now) (functions_of others)) }
{
    match item {
        Item::Function(whole) => match &whole.body {
            Some(_) => if is_main(whole) {
                Some(binding_of(known, whole))
            } else {
                None
            },
            None => None,
        },
        Item::Struct(_, _) | Item::Variables(_) => None,
    }
}

// The binding of the first function that is `main`, and 0 if there is none.
fn main_binding(known: &ProgramTables) -> u32
    ensures { result ≡ main_in (tables_of known.now) (functions_in known.now) }
{
    for item in known.items {
        if let Some(binding) = main_here(known, item) {
            return binding;
        }
    }
    0
}

// The entry of a function: that of its binding, or the end of the list if there is none.
fn entry(lowered: &Lowered, binding: u32) -> u32
    ensures { result ≡ entry_of lowered.now.entries.of_bindings.items
        lowered.now.entries.end binding }
{
    match lowered.entries.of_bindings.get(binding as usize) {
        Some(entry) => *entry,
        None => lowered.entries.end,
    }
}

/// The index where `main` begins in the list of a text: the entry of the first function that is
/// `main`.
pub fn entry_of_main(known: &ProgramTables, lowered: &Lowered) -> u32
    ensures { result ≡ entry_of lowered.now.entries.of_bindings.items lowered.now.entries.end
        (main_in (tables_of known.now) (functions_in known.now)) }
{
    entry(lowered, main_binding(known))
}
