//! From a text to its flat list.

ghost use Rattle.std.specs.Prelude.{◌≡◌, IfOk, IfErr};
ghost use Rattle.fk_syntax.specs.Program.{ProgramTree};
ghost use Rattle.fk_layout_walk.specs.Known.{IsSound};
ghost use Rattle.fk_layout_walk_statements.specs.Texts.{functions_in};
ghost use Rattle.fk_lower.specs.Depths.{AreTold};
ghost use Rattle.fk_lower.specs.Written.{entry_of};
ghost use Rattle.fk_lower_text.specs.Depths as d;
ghost use Rattle.fk_lower_text.specs.Laid.{CanBeLaid};
ghost use Rattle.fk_lower_text.specs.Lowered.{IsLowerable, HasProgram, HasItsRuns, HasSites};
ghost use Rattle.fk_lower_text.specs.Lowered.{IsTextFault};

use crate::bodies::Bodies;
use crate::depths::depths_of;
use fk_layout_walk::ProgramTables;
use fk_lower::{Block, LowerFault, Lowered, lower};
use std::alloc::Global;

/// The flat list of a text, given what is known of it: each function at its binding, each operation
/// with its rank among those of the text as its site, and with the number of values counted before
/// it along the text as its depth. It takes time and memory linear in the text and in the greatest
/// binding of a function.
///
/// # Errors
///
/// `OutOfRange` if a constant of an operation is too large for its number, and `Memory` if there
/// isn't enough memory.
pub fn lower_text(alloc: Global, known: &ProgramTables) -> Result<Lowered, LowerFault>
    requires sound { IsSound known.now }
    requires laid { CanBeLaid known.now 0 0 (functions_in known.now) }
    ensures program { (program : ProgramTree) → IsLowerable known.now program
        → IfOk result (λ lowered. HasProgram known.now program lowered.ops.items
        (entry_of lowered.entries.of_bindings.items lowered.entries.end)) }
    ensures runs { (program : ProgramTree) → IsLowerable known.now program
        → IfOk result (λ lowered. HasItsRuns known.now program lowered.ops.items
        (entry_of lowered.entries.of_bindings.items lowered.entries.end)) }
    ensures sites { (program : ProgramTree) → IsLowerable known.now program
        → IfOk result (λ lowered. HasSites known.now lowered.ops.items) }
    ensures told { (program : ProgramTree) → IsLowerable known.now program
        → IfOk result
        (λ lowered. AreTold (d.depths_of known.now (functions_in known.now)) lowered.ops.items) }
    ensures refused { IfErr result (IsTextFault known.now) }
{
    let bodies = Bodies::of(alloc, known)?;
    let blocks: &[Block] = &bodies.blocks;
    let depths = depths_of(alloc, known, bodies.site)?;
    let lowered = lower(alloc, blocks, &depths)?;
    Ok(lowered)
}
