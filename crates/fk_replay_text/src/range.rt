//! Ranges of harts.

ghost use Rattle.std.specs.Prelude.{◌≡◌, ◌≢◌, ◌<◌, ◌↔◌, List, flat_map, map};
ghost use Rattle.std.specs.Prelude.{IfOk, IsTrue, MatchOption, option_map};
ghost use Rattle.fk_trace.specs.Text.{Range, range_text};
ghost use Rattle.fk_replay_text.specs.ColumnView.{column_of};
ghost use Rattle.fk_replay_text.specs.Fields.{SpellsRange};
ghost use Rattle.fk_replay_text.specs.Trace.{AreRanges, ComesAfter, HasNumber, IsAbove, IsRange};
ghost use Rattle.fk_replay_text.specs.Texts.{Stops};
ghost use Rattle.fk_replay_text.specs.View.{range_of};

use crate::column::Column;
use crate::trace::Acts;
use crate::words::{after, cut, first_word, read_number};
use smallvec::SmallVec;
use std::alloc::{AllocError, Global};

/// The range that a field of a line spells.
fn read_range(column: Column, field: &[u8]) -> Option<Acts>
    ensures { MatchOption result ((r : Range) → SpellsRange (column_of column) r field.now → ⊥)
        (λ acts. SpellsRange (column_of column) (range_of acts) field.now) }
{
    let (first, rest) = cut(field, b'-')?;
    match column {
        Column::Counts => {
            let (last, count) = cut(rest, b'*')?;
            Some(Acts {
                first: read_number(first)?,
                last: read_number(last)?,
                count: read_number(count)?,
            })
        }
        Column::Of(event) => Some(Acts {
            first: read_number(first)?,
            last: read_number(rest)?,
            count: event.number(),
        }),
    }
}

/// Whether a range is one of these harts, with a number of the column.
fn is_range(column: Column, harts: u32, acts: Acts) -> bool
    ensures { IsTrue result ↔ IsRange (column_of column) harts (range_of acts) }
{
    acts.first <= acts.last && acts.last < harts && has_number(column, acts.count)
}

fn has_number(column: Column, number: u32) -> bool
    ensures { IsTrue result ↔ HasNumber (column_of column) number }
{
    match column {
        Column::Counts => 0 < number && number <= 255,
        Column::Of(event) => number == event.number(),
    }
}

/// Whether a range may be the next one of a line.
fn comes_next(column: Column, harts: u32, before: Option<Acts>, acts: Acts) -> bool
    ensures { IsTrue result ↔ (IsRange (column_of column) harts (range_of acts)
        × ComesAfter (option_map range_of before) (range_of acts)) }
{
    is_range(column, harts, acts) && comes_after(before, acts)
}

/// Whether a range comes after another one, or is the first one.
fn comes_after(before: Option<Acts>, acts: Acts) -> bool
    ensures { IsTrue result ↔ ComesAfter (option_map range_of before) (range_of acts) }
{
    match before {
        None => true,
        Some(before) => is_above(before, acts),
    }
}

/// Whether a range comes after another one, and isn't a part of one range with it.
fn is_above(before: Acts, acts: Acts) -> bool
    ensures { IsTrue result ↔ IsAbove (range_of before) (range_of acts) }
{
    before.last < acts.first && (acts.first - before.last > 1 || before.count != acts.count)
}

/// The ranges that a text spells, each behind a blank.
pub(crate) fn read_ranges(
    alloc: Global,
    column: Column,
    harts: u32,
    text: &[u8],
) -> Result<Option<SmallVec<Acts, 1>>, AllocError>
    requires { Stops 32 text.now }
    ensures { IfOk result (λ ranges. MatchOption ranges
        ((rs : List Range) → AreRanges (column_of column) harts rs
        → text.now ≢ flat_map (range_text (column_of column)) rs)
        (λ acts. AreRanges (column_of column) harts (map range_of acts.items)
        × (text.now ≡ flat_map (range_text (column_of column)) (map range_of acts.items)))) }
{
    let mut ranges = SmallVec::new(alloc);
    let mut last = None;
    let mut rest = text;
    while let Some(behind) = after(rest, b" ") {
        let (field, others) = first_word(behind);
        let Some(acts) = read_range(column, field) else {
            return Ok(None);
        };
        if !comes_next(column, harts, last, acts) {
            return Ok(None);
        }
        ranges.push(acts)?;
        last = Some(acts);
        rest = others;
    }
    if ranges.is_empty() {
        return Ok(None);
    }
    Ok(Some(ranges))
}
