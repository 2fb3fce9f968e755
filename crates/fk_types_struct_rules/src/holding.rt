//! The rule that no struct contains itself.

ghost use Rattle.std.specs.Prelude.{◌≡◌, ◌↔◌, ℕ, ◌<◌, ◌++◌, length, IsTrue, IfOk, OnOk};
ghost use Rattle.std.specs.Bool.{OnFalse};
ghost use Rattle.std.specs.Option.{option_to_list};
ghost use Rattle.fk_check_rules.specs.declared.fault.Fault.{Fault};
ghost use Rattle.fk_check_rules.specs.declared.rule.Rule.TheVariants as rules;
ghost use Rattle.fk_check_rules.specs.Least.{IsLeast, only, either, among};
ghost use Rattle.fk_types_graph.specs.Graph.{IsOnCycle};
ghost use Rattle.fk_types_graph.specs.Marks.{IsMarked};
ghost use Rattle.fk_types_structs.specs.Whole.{structs_in, IsSound};
ghost use Rattle.fk_types_struct_rules.specs.Declarations.{At};
ghost use Rattle.fk_types_struct_rules.specs.Structs.{held_at, HoldingBreaks};
ghost use Rattle.fk_types_struct_rules.specs.Holding.{AreHeld, AreEdges, told};

use fk_check_rules::{Fault, Rule, first_of};
use fk_syntax::Place;
use fk_types_graph::{is_on_cycle, suspects};
use fk_types_structs::{DataType, Root, Structs};
use std::alloc::{AllocError, Global};

// The struct that a member contains, if it contains one.
fn held_at(structs: &Structs, index: usize, place: usize) -> Option<usize>
    requires { IsSound structs.now }
    ensures { result ≡ held_at (structs_in structs.now) index place }
{
    match structs.member_type(index, place) {
        Some(
            DataType {
                root: Root::Struct(other),
                stars: 0,
                ..
            },
        ) => Some(other as usize),
        _ => None,
    }
}

// Adds a struct, if there is one.
fn add(held: &mut Vec<usize>, other: Option<usize>) -> Result<(), AllocError>
    ensures { OnOk result (held.new.items ≡ held.old.items ++ option_to_list other) }
{
    if let Some(index) = other {
        held.push(index)?;
    }
    Ok(())
}

// The structs that the first `count` members of a struct contain.
fn held(
    alloc: Global,
    structs: &Structs,
    index: usize,
    count: usize,
) -> Result<Vec<usize>, AllocError>
    requires { IsSound structs.now }
    ensures { IfOk result (λ held. AreHeld (structs_in structs.now) index count held.items) }
{
    let mut held = Vec::new(alloc);
    for place in 0..count {
        add(&mut held, held_at(structs, index, place))?;
    }
    Ok(held)
}

// For each struct the structs that it contains.
fn graph(alloc: Global, structs: &Structs) -> Result<Vec<Vec<usize>>, AllocError>
    requires { IsSound structs.now }
    ensures { IfOk result (λ graph. AreEdges (structs_in structs.now) graph.items) }
{
    let mut graph = Vec::new(alloc);
    let outlines = structs.outlines();
    for (index, outline) in outlines.iter().enumerate() {
        graph.push(held(alloc, structs, index, outline.members.len())?)?;
    }
    Ok(graph)
}

// Whether a struct contains itself, where only suspects may.
fn is_holder(
    alloc: Global,
    graph: &[Vec<usize>],
    suspects: &[bool],
    index: usize,
) -> Result<bool, AllocError>
    requires inside { index < length graph.now }
    requires same_length { length suspects.now ≡ length graph.now }
    requires suspects { (v : ℕ) → IsOnCycle graph.now v → IsMarked suspects.now v }
    ensures { IfOk result (λ yes. IsTrue yes ↔ IsOnCycle graph.now index) }
{
    if suspects[index] {
        return is_on_cycle(alloc, graph, index);
    }
    Ok(false)
}

// Whether there is a fault at a place.
fn stands_at(fault: Option<Fault>, place: Place) -> bool
    ensures { OnFalse result ((f : Fault) → fault ≡ Some f → ¬ (f.place ≡ place)) }
{
    match fault {
        Some(fault) => fault.place.line == place.line && fault.place.column == place.column,
        None => false,
    }
}

// The first of a fault and that of a struct that contains itself. The struct is only searched if
// its fault would come first.
fn holder_fault(
    alloc: Global,
    graph: &[Vec<usize>],
    suspects: &[bool],
    index: usize,
    place: Place,
    fault: Option<Fault>,
) -> Result<Option<Fault>, AllocError>
    requires inside { index < length graph.now }
    requires same_length { length suspects.now ≡ length graph.now }
    requires suspects { (v : ℕ) → IsOnCycle graph.now v → IsMarked suspects.now v }
    ensures { IfOk result (λ first. IsLeast (either (told fault)
        (only rules.NoStruct (At place (IsOnCycle graph.now index)))) first) }
{
    let rule = Rule::NoStruct;
    let first = first_of(fault, Some(Fault { place, rule }));
    if !stands_at(first, place) {
        return Ok(fault);
    }
    if is_holder(alloc, graph, suspects, index)? {
        return Ok(first);
    }
    Ok(fault)
}

// The first struct that contains itself, by its place.
fn first_holder(
    alloc: Global,
    structs: &Structs,
    graph: &[Vec<usize>],
    suspects: &[bool],
) -> Result<Option<Fault>, AllocError>
    requires edges { AreEdges (structs_in structs.now) graph.now }
    requires same_length { length suspects.now ≡ length graph.now }
    requires suspects { (v : ℕ) → IsOnCycle graph.now v → IsMarked suspects.now v }
    ensures { IfOk result (λ fault. IsLeast
        (among (HoldingBreaks (structs_in structs.now)) (structs_in structs.now)) fault) }
{
    let mut fault = None;
    let outlines = structs.outlines();
    for (index, outline) in outlines.iter().enumerate() {
        fault = holder_fault(alloc, graph, suspects, index, outline.name.place, fault)?;
    }
    Ok(fault)
}

/// The first fault of structs that contain themselves.
pub(crate) fn holding_fault(alloc: Global, structs: &Structs) -> Result<Option<Fault>, AllocError>
    requires { IsSound structs.now }
    ensures { IfOk result (λ fault. IsLeast
        (among (HoldingBreaks (structs_in structs.now)) (structs_in structs.now)) fault) }
{
    let graph = graph(alloc, structs)?;
    let suspects = suspects(alloc, &graph)?;
    first_holder(alloc, structs, &graph, &suspects)
}
