//! The flat list of all functions of a program.

ghost use Rattle.std.specs.Prelude.{◌≡◌, ◌++◌, ◌+◌, ◌^◌, ◌<◌, ◌≤◌, IfOk, IfErr, OnOk, None, map};
ghost use Rattle.fk_core_flat.specs.Laws.{IsFlat};
ghost use Rattle.fk_lower.specs.View.{part_of};
ghost use Rattle.fk_lower.specs.Written.{items_of, entry_of};
ghost use Rattle.fk_lower.specs.Depths.{AreTold};
ghost use Rattle.fk_lower.specs.Faults.{AllNumbered, IsListFault, IsWriteFault};
ghost use Rattle.fk_lower.specs.Lowered.{bodies_in, AreMeasured, total, entries_from, written_from};
ghost use Rattle.fk_lower.specs.Lowered.{all_flat, IsListOf};

use crate::block::Block;
use crate::depths::tell;
use crate::fault::{LowerFault, further};
use crate::write::{Entries, InsertPoint, Writer};
use fk_core::CoreOp;
use std::alloc::Global;

/// A program as a flat list.
#[derive(Drop)]
pub struct Lowered {
    pub ops: Vec<CoreOp>,
    pub entries: Entries,
}

// A place outside loops.
fn outside(at: u32, next: u32) -> InsertPoint
    ensures { result ≡ record { around = None; at = at; next = next } }
{
    InsertPoint {
        around: None,
        at,
        next,
    }
}

// The length of all lists together.
fn total(bodies: &[Block]) -> Result<u32, LowerFault>
    ensures total { IfOk result (λ end. end ≡ total (map part_of bodies.now)) }
    ensures fault { IfErr result (λ fault. fault ≡ LowerFault.TooLong) }
    ensures over { IfErr result (λ _. 2 ^ 32 ≤ total (map part_of bodies.now)) }
{
    let mut end = 0;
    for body in bodies {
        end = further(end, body.spans().far.extent)?;
    }
    Ok(end)
}

// The entries of functions.
fn entries(alloc: Global, bodies: &[Block], end: u32) -> Result<Vec<u32>, LowerFault>
    requires measured { AreMeasured (map part_of bodies.now) }
    requires room { total (map part_of bodies.now) < 2 ^ 32 }
    ensures entries { IfOk result
        (λ entries. entries.items ≡ entries_from 0 end (map part_of bodies.now)) }
    ensures fault { IfErr result (λ fault. fault ≡ LowerFault.Memory) }
{
    let mut entries = Vec::new(alloc);
    let mut at = 0;
    for body in bodies {
        let span = body.span(false);
        let entry = outside(at, end).target(span.start, at, end);
        if entries.push(entry).is_err() {
            return Err(LowerFault::Memory);
        }
        at += span.extent;
    }
    Ok(entries)
}

// Writes functions, one after another.
fn write_all(writer: &mut Writer, entries: &Entries, bodies: &[Block]) -> Result<(), LowerFault>
    requires measured { AreMeasured (map part_of bodies.now) }
    requires room { total (map part_of bodies.now) < 2 ^ 32 }
    ensures items { OnOk result (items_of writer.new.ops.items ≡ items_of writer.old.ops.items
        ++ written_from (entry_of entries.now.of_bindings.items entries.now.end) 0 entries.now.end
        (map part_of bodies.now)) }
    ensures fault { AllNumbered (map part_of bodies.now)
        → IfErr result (λ fault. fault ≡ LowerFault.Memory) }
{
    let mut at = 0;
    for body in bodies {
        writer.block(entries, body, false, outside(at, entries.end))?;
        at += body.spans().far.extent;
    }
    Ok(())
}

// The fault in writing a list that has room: there isn't enough memory, or an operation has no
// number.
fn in_writing(fault: LowerFault) -> LowerFault
    ensures memory { fault ≡ LowerFault.Memory → result ≡ LowerFault.Memory }
    ensures fault { IsWriteFault result }
{
    match fault {
        LowerFault::Memory => LowerFault::Memory,
        _ => LowerFault::OutOfRange,
    }
}

/// The flat list of functions, given by their bindings, one after another in that order. A function
/// without a body has an empty block, and its entry at the end of the list. The depth of each
/// operation is that of its site. It takes time linear in the blocks.
///
/// # Errors
///
/// `TooLong` if the list would have more than 2^32 - 1 operations and jumps, `OutOfRange` if a
/// constant of an operation is too large for its number, and `Memory` if there isn't enough memory.
pub fn lower(alloc: Global, bodies: &[Block], depths: &[u32]) -> Result<Lowered, LowerFault>
    requires { AreMeasured (map part_of bodies.now) }
    ensures flat { IfOk result (λ lowered.
        IsFlat (bodies_in (map part_of bodies.now)) lowered.ops.items
        (entry_of lowered.entries.of_bindings.items lowered.entries.end)) }
    ensures order { IfOk result (λ lowered.
        IsListOf lowered.ops.items (all_flat
        (entry_of lowered.entries.of_bindings.items lowered.entries.end)
        0 lowered.entries.end (map part_of bodies.now))) }
    ensures told { IfOk result (λ lowered. AreTold depths.now lowered.ops.items) }
    ensures refused { IfErr result (λ fault. IsListFault (map part_of bodies.now) fault) }
{
    let end = total(bodies)?;
    let entries = Entries {
        of_bindings: entries(alloc, bodies, end)?,
        end,
    };
    let mut writer = Writer::new(alloc);
    match write_all(&mut writer, &entries, bodies) {
        Ok(()) => {
            let mut ops = writer.ops;
            tell(&mut ops, depths);
            Ok(Lowered { ops, entries })
        }
        Err(fault) => Err(in_writing(fault)),
    }
}
