//! The levels of a list.

ghost use Rattle.std.specs.Prelude.{◌≡◌, ◌<◌, ◌^◌, None, false, IfOk, if◌then◌else◌, length};
ghost use Rattle.fk_core_levels.specs.Forks.{no_part};
ghost use Rattle.fk_core_levels.specs.Levels as l;

use crate::behind::{named, settle};
use crate::count::{after, here, inside, opens};
use crate::open::OpenParts;
use fk_core::CoreOp;
use fk_gen::Levels;
use std::alloc::{AllocError, Global};

// In the opening of a call there are no parts.
fn in_call(opening: bool, parts: u32) -> u32
    ensures { result ≡ (if opening then 0 else parts) }
{
    if opening { 0 } else { parts }
}

// In the opening of a call no part is open, and so none of a `fork`.
fn fork_in_call(opening: bool, fork: Option<u32>) -> Option<u32>
    ensures { result ≡ (if opening then None else fork) }
{
    if opening { None } else { fork }
}

// What is told of each operation by itself.
fn told(alloc: Global, ops: &[CoreOp]) -> Result<Vec<Levels>, AllocError>
    requires small { length ops.now < 2 ^ 31 }
    ensures { IfOk result (λ saved. saved.items ≡ l.told_from 0 0 no_part false ops.now) }
{
    let mut saved = Vec::new(alloc);
    let mut parts = 0;
    let mut around = 0;
    let mut opening = false;
    let mut open = OpenParts::new(alloc);
    for op in ops {
        let count = here(parts, *op);
        let nest = here(around, *op);
        open.come_to(*op);
        saved.push(Levels {
            count: in_call(opening, count),
            behind: named(*op),
            nest: in_call(opening, nest),
            fork: fork_in_call(opening, open.fork()),
        })?;
        open.leave(*op)?;
        parts = after(count, *op);
        around = inside(nest, *op);
        opening = opens(opening, *op);
    }
    Ok(saved)
}

/// The levels of groups in the frame of the running call, at each index of a flat list: as many as
/// parts of the call are open there, after the words of the call, and whether a `fork` left the
/// last of them. A sweep takes time linear in the list and no memory, and there are at most two
/// more sweeps than jumps. Fails only for want of memory.
pub fn levels(alloc: Global, ops: &[CoreOp]) -> Result<Vec<Levels>, AllocError>
    requires small { length ops.now < 2 ^ 31 }
    ensures { IfOk result (λ saved. l.AreLevels ops.now saved.items) }
{
    let mut saved = told(alloc, ops)?;
    settle(&mut saved, ops);
    Ok(saved)
}
