//! Reading a trace.

ghost use Rattle.std.specs.Prelude.{◌≡◌, ◌⊎◌, ◌≤◌, ℕ, [], ◌∷◌, ◌++◌, map, IfOk, IfErr, OnOk};
ghost use Rattle.fk_replay_text.specs.BodyView.{IsBadBody, IsToldBy};
ghost use Rattle.fk_replay_text.specs.Lines.{IsBadLine};
ghost use Rattle.fk_replay_text.specs.LineView.{told_of};
ghost use Rattle.fk_replay_text.specs.Trace.{IsTraceText, moments_of};
ghost use Rattle.fk_replay_text.specs.View.{IsTold, moment_of};

use crate::column::Column;
use crate::fault::ReplayFault;
use crate::line::{Told, read_end, read_harts, read_told};
use crate::place::Place;
use crate::trace::{Moment, Trace};
use crate::words::{after, cut};
use std::alloc::{AllocError, Global};

/// The line behind the first two.
const FIRST_LINE: u64 = 3;

/// The trace that a text tells.
///
/// # Errors
///
/// `BadTrace` with the first line, from 1, with which no trace text goes on. A line that is missing
/// or has no newline is such a line. `Memory` if there isn't enough memory.
pub fn read_trace(alloc: Global, bytes: &[u8]) -> Result<Trace, ReplayFault>
    ensures trace { IfOk result (λ trace. IsTold trace bytes.now) }
    ensures fault { IfErr result (λ fault. (fault ≡ ReplayFault.Memory)
        ⊎ ((line : ℕ) × (fault ≡ ReplayFault.BadTrace line)
        × IsBadLine IsTraceText line bytes.now)) }
{
    let Some(rest) = after(bytes, b"fork95 trace 1\n") else {
        return Err(ReplayFault::BadTrace(1));
    };
    let Some((line, body)) = cut(rest, b'\n') else {
        return Err(ReplayFault::BadTrace(2));
    };
    let Some(harts) = read_harts(line) else {
        return Err(ReplayFault::BadTrace(2));
    };
    read_body(alloc, harts, body)
}

/// The trace of these harts, of whose text this is behind the first two lines.
fn read_body(alloc: Global, harts: u32, text: &[u8]) -> Result<Trace, ReplayFault>
    requires { harts ≤ 1024 }
    ensures harts { IfOk result (λ trace. trace.harts ≡ harts) }
    ensures trace { IfOk result (λ trace. IsToldBy trace text.now) }
    ensures fault { IfErr result (λ fault. (fault ≡ ReplayFault.Memory)
        ⊎ IsBadBody harts text.now fault) }
{
    let mut moments = Vec::new(alloc);
    let mut place = Place::BEGINNING;
    let mut rest = text;
    let mut number = FIRST_LINE;
    while let Some((line, behind)) = cut(rest, b'\n') {
        if let Some(cycles) = read_end(line) {
            if cycles < place.cycle {
                return Err(ReplayFault::BadTrace(number));
            }
            if !behind.is_empty() {
                return Err(ReplayFault::BadTrace(number + 1));
            }
            return Ok(Trace {
                harts,
                moments,
                cycles,
            });
        }
        let Some(told) = read_told(alloc, harts, line)? else {
            return Err(ReplayFault::BadTrace(number));
        };
        if !place.is_before(told.column, told.cycle) {
            return Err(ReplayFault::BadTrace(number));
        }
        place = Place::of(told.column, told.cycle);
        keep(&mut moments, told)?;
        rest = behind;
        number += 1;
    }
    Err(ReplayFault::BadTrace(number))
}

/// Keeps the moment that the line of the counts tells.
fn keep(moments: &mut Vec<Moment>, told: Told) -> Result<(), AllocError>
    ensures { OnOk result (map moment_of moments.new.items
        ≡ map moment_of moments.old.items ++ moments_of (told_of told ∷ [])) }
{
    if told.column == Column::Counts {
        moments.push(Moment {
            cycle: told.cycle,
            acts: told.ranges,
        })?;
    }
    Ok(())
}
