//! The outcome of the command that gives the text of the fair lock.

ghost use Rattle.std.specs.Prelude.{◌≡◌, IfOk};
ghost use Rattle.fk_top.specs.Outcome.{gave_lock};
ghost use Rattle.fk_top.specs.Ending.{outcome_of};

use crate::ending::{Ending, LastLine, Told};
use crate::report::Report;
use crate::status::Status;
use fk_locks::lock_text;
use std::alloc::{AllocError, Global};

/// The ending that gives the text of the lock. Fails if there isn't enough memory.
pub fn give_lock<'a>(alloc: Global) -> Result<Ending<'a>, AllocError>
    ensures { IfOk result (λ e. outcome_of e ≡ gave_lock) }
{
    let text = lock_text();
    let mut output = Vec::new(alloc);
    output.extend_from_slice(text.as_slice())?;
    Ok(Ending::Told(Told {
        status: Status::Done,
        put: None,
        output,
        line: LastLine::Reported(Report::Wrote(text.len() as u32)),
    }))
}
