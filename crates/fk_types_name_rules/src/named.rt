//! The faults of names, where they are used and where they are declared.

ghost use Rattle.std.specs.Prelude.{◌≡◌, ◌⊎◌, ◌↔◌, ℕ, ◌<◌, Some, IsTrue, length, slice_get};
ghost use Rattle.fk_check_rules.specs.Least.{IsLeast};
ghost use Rattle.fk_types_names.specs.declared.names.Meaning.TheVariants.{Undeclared};
ghost use Rattle.fk_types_names.specs.Outline.{Declares, MarkTree, name_of};
ghost use Rattle.fk_types_names.specs.View.{declaration_of, mark_of};
ghost use Rattle.fk_types_names.specs.Means.{MeansAt};
ghost use Rattle.fk_types_names.specs.Scoped.{AreSound, NamesAt, all_marks};
ghost use Rattle.fk_types_name_rules.specs.Named.{are_headers, IsAgain, IsTaken};
ghost use Rattle.fk_types_name_rules.specs.Found.{MarkBreaks};

use fk_check_rules::{Fault, Rule, fault_if};
use fk_syntax::Place;
use fk_types_names::{Declaration, Mark, ScopedMarks, is_predeclared};

// The place of a declaration's name.
fn name_place(declaration: &Declaration) -> Place
    ensures { result ≡ (name_of (declaration_of declaration.now)).place }
{
    match declaration {
        Declaration::Variable(variable) => variable.name.place,
        Declaration::Function(function) => function.name.place,
    }
}

// Whether a mark and a declaration are both headers.
fn are_headers<'m, 'p, 't>(mark: &'m Mark<'p, 't>, declaration: &'m Declaration<'p, 't>) -> bool
    ensures { result ≡ are_headers (mark_of mark.now) (declaration_of declaration.now) }
{
    match declaration {
        Declaration::Function(_) => mark.is_header(),
        Declaration::Variable(_) => false,
    }
}

// Whether a name that is used at a mark denotes nothing.
fn is_undeclared(scoped: &ScopedMarks, at: usize, name: &[u8]) -> bool
    requires sound { AreSound scoped.now }
    requires named { NamesAt (all_marks scoped.now) name.now at }
    ensures { IsTrue result ↔ MeansAt (all_marks scoped.now) name.now at Undeclared }
{
    match scoped.innermost(at) {
        Some(_) => false,
        None => !is_predeclared(name),
    }
}

// Whether the declaration at a mark has the name of an earlier one in its scope, and they aren't
// both headers.
fn is_again<'m, 'p, 't>(
    scoped: &'m ScopedMarks<'p, 't>,
    at: usize,
    declaration: &'m Declaration<'p, 't>,
) -> bool
    requires sound { AreSound scoped.now }
    requires within { at < length (all_marks scoped.now) }
    requires declared { slice_get (all_marks scoped.now) at
        ≡ Some (Declares (declaration_of declaration.now)) }
    ensures { IsTrue result
        ↔ IsAgain (all_marks scoped.now) at (declaration_of declaration.now) }
{
    match scoped.innermost(at) {
        Some(first) if first < at && scoped.depth(first) == scoped.depth(at) => {
            !are_headers(scoped.mark(first), declaration)
        }
        _ => false,
    }
}

// Whether the declaration at a mark is at file scope and has a predeclared name.
fn is_taken<'m, 'p, 't>(
    scoped: &'m ScopedMarks<'p, 't>,
    at: usize,
    declaration: &'m Declaration<'p, 't>,
) -> bool
    requires sound { AreSound scoped.now }
    requires within { at < length (all_marks scoped.now) }
    ensures { IsTrue result
        ↔ IsTaken (all_marks scoped.now) at (declaration_of declaration.now) }
{
    scoped.depth(at) == 0 && is_predeclared(declaration.name())
}

// Whether the declaration at a mark has a name that is declared already.
fn is_twice<'m, 'p, 't>(
    scoped: &'m ScopedMarks<'p, 't>,
    at: usize,
    declaration: &'m Declaration<'p, 't>,
) -> bool
    requires sound { AreSound scoped.now }
    requires within { at < length (all_marks scoped.now) }
    requires declared { slice_get (all_marks scoped.now) at
        ≡ Some (Declares (declaration_of declaration.now)) }
    ensures { IsTrue result ↔ (IsAgain (all_marks scoped.now) at (declaration_of declaration.now)
        ⊎ IsTaken (all_marks scoped.now) at (declaration_of declaration.now)) }
{
    is_again(scoped, at, declaration) || is_taken(scoped, at, declaration)
}

/// The fault at the mark with this index.
pub(crate) fn mark_fault(scoped: &ScopedMarks, at: usize) -> Option<Fault>
    requires sound { AreSound scoped.now }
    requires within { at < length (all_marks scoped.now) }
    ensures { (mark : MarkTree) → slice_get (all_marks scoped.now) at ≡ Some mark
        → IsLeast (MarkBreaks (all_marks scoped.now) at mark) result }
{
    match scoped.mark(at) {
        Mark::Opens | Mark::Closes => None,
        Mark::Uses(name) => {
            let broken = is_undeclared(scoped, at, name.bytes);
            fault_if(Rule::Undeclared, name.place, broken)
        }
        Mark::Declares(declaration) => {
            let broken = is_twice(scoped, at, declaration);
            fault_if(Rule::DeclaredTwice, name_place(declaration), broken)
        }
    }
}
