//! The headers of functions, and the rules that they break.

ghost use Rattle.std.specs.Prelude.{◌≡◌, ◌≢◌, ◌↔◌, ℕ, List, Some, IsTrue, IfOk, IfSome, IsNone};
ghost use Rattle.std.specs.Prelude.{map, slice_get};
ghost use Rattle.fk_syntax.specs.Program.{FunctionItem};
ghost use Rattle.fk_syntax.specs.ProgramView.{function_of, item_of};
ghost use Rattle.fk_check_rules.specs.declared.rule.Rule.TheVariants as rules;
ghost use Rattle.fk_check_rules.specs.Least.{IsLeast};
ghost use Rattle.fk_types_names.specs.Locals.{IsFirstOf};
ghost use Rattle.fk_types_names.specs.TableView.{shown};
ghost use Rattle.fk_types_name_rules.specs.Headers.{HeaderHere, BodyHere, HasHeaderAt, HasBodyAt};
ghost use Rattle.fk_types_name_rules.specs.Headers.{HasLaterAt, Differs, RepeatsBody, LacksBody};
ghost use Rattle.fk_types_name_rules.specs.Headers.{IsWrongHeader, IsWrongMain, HasNoMain};
ghost use Rattle.fk_types_name_rules.specs.Found.{ItemBreaks};
ghost use Rattle.fk_types_name_rules.specs.Known.{AreHeaders};

use crate::agree::agree;
use fk_check_rules::{Fault, Rule, fault_if, first_of};
use fk_syntax::{Function, Item, Mode};
use fk_types_names::Table;
use std::alloc::{AllocError, Global};

// The name of a function, if the item is a header of it.
fn header_name<'a>(item: &Item<'a>) -> Option<&'a [u8]>
    ensures some { IfSome result (λ name. HeaderHere name.now (item_of item.now)) }
    ensures none { IsNone result → (name : List ℕ) → ¬ HeaderHere name (item_of item.now) }
{
    match item {
        Item::Function(function) => Some(function.name.bytes),
        Item::Struct(_, _) | Item::Variables(_) => None,
    }
}

// The name of a function, if the item is its header with the body.
fn defined_name<'a>(item: &Item<'a>) -> Option<&'a [u8]>
    ensures some { IfSome result (λ name. BodyHere name.now (item_of item.now)) }
    ensures none { IsNone result → (name : List ℕ) → ¬ BodyHere name (item_of item.now) }
{
    match item {
        Item::Function(function) if function.body.is_some() => Some(function.name.bytes),
        _ => None,
    }
}

// The name of a function, if the item is a header of it, but not the first.
fn later_name<'a>(item: &Item<'a>, at: usize, firsts: &Table) -> Option<&'a [u8]>
    ensures some { IfSome result (λ name. HeaderHere name.now (item_of item.now)
        × (shown firsts.now name.now ≢ Some at)) }
    ensures none { IsNone result → (name : List ℕ) → HeaderHere name (item_of item.now)
        → shown firsts.now name ≡ Some at }
{
    let name = header_name(item)?;
    match firsts.get(name) {
        Some(first) if first == at => None,
        _ => Some(name),
    }
}

// The first header of each function.
fn first_headers<'a>(alloc: Global, items: &[Item<'a>]) -> Result<Table<'a>, AllocError>
    ensures { IfOk result (λ found. (name : List ℕ)
        → IsFirstOf (HasHeaderAt (map item_of items.now) name) (shown found name)) }
{
    let mut firsts = Table::new(alloc);
    for (at, item) in items.iter().enumerate() {
        firsts.set_first(header_name(item), at)?;
    }
    Ok(firsts)
}

// The first header with a body of each function.
fn first_bodies<'a>(alloc: Global, items: &[Item<'a>]) -> Result<Table<'a>, AllocError>
    ensures { IfOk result (λ found. (name : List ℕ)
        → IsFirstOf (HasBodyAt (map item_of items.now) name) (shown found name)) }
{
    let mut bodies = Table::new(alloc);
    for (at, item) in items.iter().enumerate() {
        bodies.set_first(defined_name(item), at)?;
    }
    Ok(bodies)
}

// The second header of each function.
fn second_headers<'a>(
    alloc: Global,
    items: &[Item<'a>],
    firsts: &Table,
) -> Result<Table<'a>, AllocError>
    requires { (name : List ℕ)
        → IsFirstOf (HasHeaderAt (map item_of items.now) name) (shown firsts.now name) }
    ensures { IfOk result (λ found. (name : List ℕ)
        → IsFirstOf (HasLaterAt (map item_of items.now) name) (shown found name)) }
{
    let mut seconds = Table::new(alloc);
    for (at, item) in items.iter().enumerate() {
        seconds.set_first(later_name(item, at, firsts), at)?;
    }
    Ok(seconds)
}

// Whether a header of `main` has parameters or a mode other than `async`.
fn is_wrong_main(function: &Function) -> bool
    ensures { IsTrue result ↔ IsWrongMain (function_of function.now) }
{
    let is_plain = function.params.is_empty() && function.mode == Mode::Async;
    function.name.bytes == b"main".as_slice() && !is_plain
}

/// The indices of the items that are the headers of each function.
#[derive(Drop)]
pub(crate) struct Headers<'a> {
    // The first header of each function.
    firsts: Table<'a>,
    // The second header of each function.
    seconds: Table<'a>,
    // The first header with a body of each function.
    bodies: Table<'a>,
}

impl<'a> Headers<'a> {
    /// The headers in some items. It fails only if there isn't enough memory.
    pub(crate) fn of(alloc: Global, items: &[Item<'a>]) -> Result<Self, AllocError>
        ensures { IfOk result (AreHeaders (map item_of items.now)) }
    {
        let firsts = first_headers(alloc, items)?;
        let seconds = second_headers(alloc, items, &firsts)?;
        let bodies = first_bodies(alloc, items)?;
        Ok(Headers {
            firsts,
            seconds,
            bodies,
        })
    }

    // Whether a header doesn't agree with the first one of its function.
    fn differs<'i, 't>(items: &'i [Item<'t>], function: &'i Function<'t>, headers: &Self) -> bool
        requires { AreHeaders (map item_of items.now) headers.now }
        ensures { IsTrue result ↔ Differs (map item_of items.now) (function_of function.now) }
    {
        match headers.firsts.get(function.name.bytes) {
            Some(first) => match &items[first] {
                Item::Function(header) => !agree(header, function),
                Item::Struct(_, _) | Item::Variables(_) => false,
            },
            None => false,
        }
    }

    // Whether the header at this index has a body, and so does an earlier one of its function.
    fn repeats_body<'i, 't>(
        items: &'i [Item<'t>],
        at: usize,
        function: &'i Function<'t>,
        body: Option<usize>,
    ) -> bool
        requires { IsFirstOf (HasBodyAt (map item_of items.now)
            (function_of function.now).name.bytes) body }
        ensures { IsTrue result
            ↔ RepeatsBody (map item_of items.now) at (function_of function.now) }
    {
        match body {
            Some(first) => function.body.is_some() && first < at,
            None => false,
        }
    }

    // Whether a function has no body, and the header at this index is its second one or the only
    // one.
    fn lacks_body<'i, 't>(
        items: &'i [Item<'t>],
        at: usize,
        function: &'i Function<'t>,
        body: Option<usize>,
        headers: &Self,
    ) -> bool
        requires known { AreHeaders (map item_of items.now) headers.now }
        requires body { IsFirstOf (HasBodyAt (map item_of items.now)
            (function_of function.now).name.bytes) body }
        ensures { IsTrue result
            ↔ LacksBody (map item_of items.now) at (function_of function.now) }
    {
        match body {
            Some(_) => false,
            None => match headers.seconds.get(function.name.bytes) {
                Some(second) => second == at,
                None => true,
            },
        }
    }

    // Whether the header at this index conflicts with the others of its function.
    fn is_wrong<'i, 't>(
        items: &'i [Item<'t>],
        at: usize,
        function: &'i Function<'t>,
        headers: &Self,
    ) -> bool
        requires { AreHeaders (map item_of items.now) headers.now }
        ensures { IsTrue result
            ↔ IsWrongHeader (map item_of items.now) at (function_of function.now) }
    {
        let body = headers.bodies.get(function.name.bytes);
        Self::differs(items, function, headers)
            || Self::repeats_body(items, at, function, body)
            || Self::lacks_body(items, at, function, body, headers)
    }

    /// The first fault of the item at this index, if it is a header.
    pub(crate) fn fault<'i, 't>(
        items: &'i [Item<'t>],
        at: usize,
        item: &'i Item<'t>,
        headers: &Self,
    ) -> Option<Fault>
        requires { AreHeaders (map item_of items.now) headers.now }
        ensures { IsLeast (ItemBreaks (map item_of items.now) at (item_of item.now)) result }
    {
        match item {
            Item::Function(function) => {
                let place = function.name.place;
                let wrong = Self::is_wrong(items, at, function, headers);
                let main = is_wrong_main(function);
                first_of(
                    fault_if(Rule::HeadersDiffer, place, wrong),
                    fault_if(Rule::NoMain, place, main),
                )
            }
            Item::Struct(_, _) | Item::Variables(_) => None,
        }
    }

    /// Whether no function has the name `main`.
    pub(crate) fn has_no_main(items: &[Item], headers: &Self) -> bool
        requires { AreHeaders (map item_of items.now) headers.now }
        ensures { IsTrue result ↔ HasNoMain (map item_of items.now) }
    {
        headers.firsts.get(b"main").is_none()
    }
}
