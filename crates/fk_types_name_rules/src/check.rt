//! The first rule about names that a program breaks.

ghost use Rattle.std.specs.Prelude.{◌≡◌, IfOk, map};
ghost use Rattle.fk_syntax.specs.ProgramView.{item_of, program_of};
ghost use Rattle.fk_check_rules.specs.declared.rule.Rule.TheVariants.{NoMain};
ghost use Rattle.fk_check_rules.specs.Least.{IsLeast, among, either};
ghost use Rattle.fk_check_rules.specs.Told.{told};
ghost use Rattle.fk_types_names.specs.Scoped.{AreScoped, AreSound, all_marks};
ghost use Rattle.fk_types_name_rules.specs.Headers.{HasNoMain};
ghost use Rattle.fk_types_name_rules.specs.Found.{MarkBreaks, ItemBreaks};
ghost use Rattle.fk_types_name_rules.specs.Known.{AreHeaders};
ghost use Rattle.fk_types_name_rules.specs.Broken.{NamesBreak};

use crate::headers::Headers;
use crate::named::mark_fault;
use fk_check_rules::{Fault, Rule, fault_if, first_of};
use fk_syntax::{Item, Place, Program};
use fk_types_names::ScopedMarks;
use std::alloc::{AllocError, Global};

// The first fault of the names in a program, where they are used or declared.
fn marks_fault(scoped: &ScopedMarks) -> Option<Fault>
    requires { AreSound scoped.now }
    ensures { IsLeast (among (MarkBreaks (all_marks scoped.now)) (all_marks scoped.now)) result }
{
    let mut fault = None;
    for at in 0..scoped.len() {
        fault = first_of(fault, mark_fault(scoped, at));
    }
    fault
}

// The first fault of the headers.
fn headers_fault(items: &[Item], headers: &Headers) -> Option<Fault>
    requires { AreHeaders (map item_of items.now) headers.now }
    ensures { IsLeast (among (ItemBreaks (map item_of items.now)) (map item_of items.now)) result }
{
    let mut fault = None;
    for (at, item) in items.iter().enumerate() {
        fault = first_of(fault, Headers::fault(items, at, item, headers));
    }
    fault
}

// The first fault of the collected headers of functions, in a text that ends at this place.
fn known_fault(items: &[Item], end: Place, headers: &Headers) -> Option<Fault>
    requires { AreHeaders (map item_of items.now) headers.now }
    ensures { IsLeast (either (told NoMain end (HasNoMain (map item_of items.now)))
        (among (ItemBreaks (map item_of items.now)) (map item_of items.now))) result }
{
    let main = fault_if(Rule::NoMain, end, Headers::has_no_main(items, headers));
    first_of(main, headers_fault(items, headers))
}

// The first fault of the headers of functions, in a text that ends at this place.
fn functions_fault(alloc: Global, items: &[Item], end: Place) -> Result<Option<Fault>, AllocError>
    ensures { IfOk result (IsLeast (either (told NoMain end (HasNoMain (map item_of items.now)))
        (among (ItemBreaks (map item_of items.now)) (map item_of items.now)))) }
{
    let headers = Headers::of(alloc, items)?;
    Ok(known_fault(items, end, &headers))
}

/// The first rule about the names of variables and functions that a program breaks, by its marks,
/// by its place and then by its number. The rules forbid: a name in an expression that denotes
/// nothing; a name that is declared twice in one scope, or that is predeclared and declared at file
/// scope; headers of one function that differ, or a function without a body or with two; no `main`,
/// or one with parameters, `sync` or `straight`. It takes linear time, and fails only if there
/// isn't enough memory.
pub fn name_fault(
    alloc: Global,
    program: &Program,
    scoped: &ScopedMarks,
) -> Result<Option<Fault>, AllocError>
    requires { AreScoped (program_of program.now) scoped.now }
    ensures { IfOk result (IsLeast (NamesBreak (program_of program.now))) }
{
    let marks = marks_fault(scoped);
    let functions = functions_fault(alloc, &program.items, program.end)?;
    Ok(first_of(marks, functions))
}
