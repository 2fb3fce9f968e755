//! The lines of a trace.

ghost use Rattle.std.specs.Prelude.{◌≡◌, ◌≢◌, ◌<◌, ◌≤◌, ◌^◌, ℕ, List, [], ◌∷◌, ◌++◌, codes};
ghost use Rattle.std.specs.Prelude.{decimal, IfOk, IfSome, MatchOption};
ghost use Rattle.fk_image.specs.declared.event.Event as events;
ghost use Rattle.fk_trace.specs.declared.column.Column as columns;
ghost use Rattle.fk_trace.specs.Text.{head_text, last_line, name_of};
ghost use Rattle.fk_replay_text.specs.Texts.{Stops};
ghost use Rattle.fk_replay_text.specs.Trace as trace;
ghost use Rattle.fk_replay_text.specs.LineView.{IsHead, told_of};

use crate::column::{Column, event_of};
use crate::range::read_ranges;
use crate::trace::Acts;
use crate::words::{after, first_word, read_number};
use smallvec::SmallVec;
use std::alloc::{AllocError, Global};

/// The most harts of a trace.
const MOST_HARTS: u32 = 1024;

/// What the line of a cycle tells.
#[derive(Drop)]
pub(crate) struct Told {
    pub(crate) column: Column,
    pub(crate) cycle: u32,
    pub(crate) ranges: SmallVec<Acts, 1>,
}

/// The beginning of the line of a cycle, and the text of its ranges.
#[derive(Clone, Copy)]
struct Head<'a> {
    column: Column,
    cycle: u32,
    ranges: &'a [u8],
}

/// The number of harts that the second line tells.
pub(crate) fn read_harts(line: &[u8]) -> Option<u32>
    ensures { MatchOption result
        ((harts : ℕ) → 0 < harts → harts ≤ 1024 → line.now ≢ codes "harts " ++ decimal harts)
        (λ harts. (0 < harts) × (harts ≤ 1024) × (line.now ≡ codes "harts " ++ decimal harts)) }
{
    let harts = read_number(after(line, b"harts ")?)?;
    if harts == 0 || harts > MOST_HARTS {
        return None;
    }
    Some(harts)
}

/// The number of cycles that the last line tells.
pub(crate) fn read_end(line: &[u8]) -> Option<u32>
    ensures line { MatchOption result
        ((cycles : ℕ) → cycles < 2 ^ 32 → line.now ++ 10 ∷ [] ≢ last_line cycles)
        (λ cycles. line.now ++ 10 ∷ [] ≡ last_line cycles) }
    ensures word { IfSome result (λ cycles. cycles < 2 ^ 32) }
{
    if line.first() != Some(&b'e') {
        return None;
    }
    read_number(after(line, b"end ")?)
}

/// The beginning of a line of the counts, behind its letter.
fn read_counts(text: &[u8]) -> Option<Head<'_>>
    ensures { MatchOption result
        ((cycle : ℕ) (rest : List ℕ) → cycle < 2 ^ 32 → Stops 32 rest
        → text.now ≢ decimal cycle ++ rest)
        (λ head. IsHead head (codes "c " ++ text.now)) }
{
    let (cycle, ranges) = first_word(text);
    Some(Head {
        column: Column::Counts,
        cycle: read_number(cycle)?,
        ranges,
    })
}

/// The beginning of a line of an event, behind its letter.
fn read_marks(text: &[u8]) -> Option<Head<'_>>
    ensures { MatchOption result
        ((cycle : ℕ) (event : events.Event) (rest : List ℕ) → cycle < 2 ^ 32 → Stops 32 rest
        → text.now ≢ decimal cycle ++ (32 ∷ (name_of event ++ rest)))
        (λ head. IsHead head (codes "g " ++ text.now)) }
{
    let (cycle, text) = first_word(text);
    let (name, ranges) = first_word(after(text, b" ")?);
    Some(Head {
        column: Column::Of(event_of(name)?),
        cycle: read_number(cycle)?,
        ranges,
    })
}

/// The beginning of the line of a cycle.
fn read_head(line: &[u8]) -> Option<Head<'_>>
    ensures { MatchOption result
        ((column : columns.Column) (cycle : ℕ) (rest : List ℕ) → cycle < 2 ^ 32 → Stops 32 rest
        → line.now ≢ head_text column cycle ++ rest)
        (λ head. IsHead head line.now) }
{
    match after(line, b"c ") {
        Some(text) => read_counts(text),
        None => read_marks(after(line, b"g ")?),
    }
}

/// What the line of a cycle tells of these harts.
pub(crate) fn read_told(alloc: Global, harts: u32, line: &[u8]) -> Result<Option<Told>, AllocError>
    ensures { IfOk result (λ told. MatchOption told
        ((t : trace.Told) → trace.IsLine harts t → line.now ++ 10 ∷ [] ≢ trace.told_text t)
        (λ t. trace.IsLine harts (told_of t) × (line.now ++ 10 ∷ [] ≡ trace.told_text (told_of t)))) }
{
    let Some(head) = read_head(line) else {
        return Ok(None);
    };
    if head.cycle == 0 {
        return Ok(None);
    }
    let Some(ranges) = read_ranges(alloc, head.column, harts, head.ranges)? else {
        return Ok(None);
    };
    Ok(Some(Told {
        column: head.column,
        cycle: head.cycle,
        ranges,
    }))
}
