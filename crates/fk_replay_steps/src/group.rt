//! Steps of the tree of groups: what a member does in them.

ghost use Rattle.std.specs.Prelude.{◌≡◌, ◌<◌, ◌≤◌, ◌^◌, IsSome, IsTrue, IfSome, OnOk};
ghost use Rattle.fk_space.specs.Space.{share, frame};
ghost use Rattle.fk_meaning_operation.specs.declared.operation.SplitKind.{SplitKind};
ghost use Rattle.fk_meaning_store.specs.Serve as served;
ghost use Rattle.fk_meaning.specs.Processor as p;
ghost use Rattle.fk_meaning.specs.Group as g;
ghost use Rattle.fk_meaning_state.specs.View.{processor_of, level_of};

use crate::local::{address_of, words_of};
use crate::values::{drop_last, last, push, put_last, put_word, value_before};
use fk_meaning_operation::{Operation, SplitKind};
use fk_meaning_state::{Level, Processor};
use std::alloc::AllocError;

/// A word that is read as a signed number, or 0 if it is below 0.
pub fn not_negative(word: u32) -> u32
    ensures { result ≡ g.not_negative word }
{
    if word < 1 << 31 { word } else { 0 }
}

/// The number of parts of a split.
pub fn parts(by: SplitKind, processor: &Processor) -> u32
    ensures { result ≡ g.parts by (p.values (processor_of processor.now)) }
{
    match by {
        SplitKind::IfElse => 2,
        SplitKind::Fork => not_negative(value_before(processor, 2)),
        _ => 1,
    }
}

/// The part that a member enters, unless it waits.
pub fn part(by: SplitKind, processor: &Processor) -> Option<u32>
    ensures part { result ≡ g.part by (p.values (processor_of processor.now)) }
    ensures below { IfSome result
        (λ part. part < g.parts by (p.values (processor_of processor.now))) }
{
    let holds = last(processor) != 0;
    match by {
        SplitKind::IfAlone | SplitKind::AndThen => holds.then_some(0),
        SplitKind::IfElse => Some(if holds { 0 } else { 1 }),
        SplitKind::OrElse => (!holds).then_some(0),
        SplitKind::Loop => Some(0),
        SplitKind::Fork => {
            let part = value_before(processor, 1);
            (part < parts(by, processor)).then_some(part)
        }
    }
}

/// The number of values that a split takes.
fn taken_by(by: SplitKind) -> usize
    ensures { result ≡ g.taken_by by }
{
    match by {
        SplitKind::Loop => 0,
        SplitKind::Fork => 3,
        _ => 1,
    }
}

/// Whether a member stays in a loop.
pub fn stays(processor: &Processor) -> bool
    ensures { result ≡ g.stays (processor_of processor.now) }
{
    last(processor) != 0
}

/// Whether a `start` takes a processor.
pub(crate) fn is_taken(value: u32, processor: &Processor) -> bool
    ensures { result ≡ g.is_taken value (processor_of processor.now) }
{
    processor.number < not_negative(value)
}

fn enter_level(processor: &mut Processor, level: Level) -> Result<(), AllocError>
    ensures { OnOk result (processor_of processor.new
        ≡ p.enter_level (level_of level) (processor_of processor.old)) }
{
    let outer = processor.level;
    processor.outer.push(outer)?;
    processor.level = level;
    Ok(())
}

fn leave_level(processor: &mut Processor)
    ensures { processor_of processor.new ≡ p.leave_level (processor_of processor.old) }
{
    if let Some(level) = processor.outer.pop() {
        processor.level = level;
    }
}

/// The level of a member in a part of a split.
fn part_level(by: SplitKind, processor: &Processor, size: u32, part: u32) -> Level
    requires room { IsSome (share processor.now.level.space
        (g.parts by (p.values (processor_of processor.now)))) }
    requires below { part < g.parts by (p.values (processor_of processor.now)) }
    ensures { level_of result ≡ g.part_level by (processor_of processor.now) size part }
{
    let level = processor.level;
    let count = parts(by, processor);
    let space = level.space.child(count, part);
    match by {
        SplitKind::Fork => Level {
            number: part,
            rank: last(processor),
            size,
            space,
        },
        _ => Level {
            size,
            space,
            ..level
        },
    }
}

/// A member waits for the parts of a split, or enters one.
fn divide(
    by: SplitKind,
    processor: &mut Processor,
    size: u32,
    part: Option<u32>,
) -> Result<(), AllocError>
    requires room { IfSome part (λ _. IsSome (share processor.old.level.space
        (g.parts by (p.values (processor_of processor.old))))) }
    requires below { IfSome part
        (λ i. i < g.parts by (p.values (processor_of processor.old))) }
    ensures { OnOk result (processor_of processor.new
        ≡ g.divided by size (processor_of processor.old) part) }
{
    let Some(part) = part else {
        drop_last(processor, taken_by(by));
        return match by {
            SplitKind::AndThen => push(processor, 0),
            SplitKind::OrElse => push(processor, 1),
            _ => Ok(()),
        };
    };
    let level = part_level(by, processor, size, part);
    drop_last(processor, taken_by(by));
    enter_level(processor, level)
}

fn take_frame(processor: &mut Processor, nesting: u32, words: u32) -> Result<(), AllocError>
    ensures { OnOk result (processor_of processor.new
        ≡ g.framed nesting (processor_of processor.old)
        (frame processor.old.level.space words)) }
{
    let first = processor.level.space.frames;
    if let Some(space) = processor.level.space.frame(words) {
        put_word(&mut processor.call.frames, nesting, first)?;
        processor.level.space = space;
    }
    Ok(())
}

fn take_block(processor: &mut Processor) -> Result<(), AllocError>
    ensures { OnOk result (processor_of processor.new
        ≡ g.with_block (served.words_of (p.last (p.values (processor_of processor.old))))
        (processor_of processor.old)) }
{
    let words = words_of(last(processor));
    if words == 0 {
        return put_last(processor, 0);
    }
    match processor.level.space.block(words) {
        None => put_last(processor, 0),
        Some((first, space)) => {
            processor.level.space = space;
            put_last(processor, address_of(first))
        }
    }
}

/// Whether a step finds the words that it needs.
pub fn has_room(operation: Operation, processor: &Processor) -> bool
    ensures room { result ≡ g.has_room operation (processor_of processor.now) }
    ensures few { IsTrue result → (by : SplitKind) → operation ≡ Operation.Split by
        → g.parts by (p.values (processor_of processor.now)) ≤ 2 ^ 18 }
{
    match operation {
        Operation::Frame { words, .. } => processor.level.space.frame(words).is_some(),
        Operation::Split(by) => {
            let count = parts(by, processor);
            // A space has at most 2^20 free words.
            let _ = processor.level.space.free();
            count == 0 || processor.level.space.share(count).is_some()
        }
        _ => true,
    }
}

/// Which way a member takes.
pub fn goes_onward(operation: Operation, highest: u32, lowest: u32, processor: &Processor) -> bool
    ensures { result ≡ g.goes_onward operation highest lowest (processor_of processor.now) }
{
    match operation {
        Operation::Begin => is_taken(highest, processor),
        Operation::Split(by) => match by {
            SplitKind::IfElse => part(by, processor) == Some(0),
            _ => part(by, processor).is_some(),
        },
        Operation::Shrink => stays(processor),
        Operation::Seq => processor.number == lowest,
        _ => true,
    }
}

/// What a member does in a step, given the last value of the highest member, and the size of the
/// group that it is in after it.
pub fn does(
    operation: Operation,
    highest: u32,
    size: u32,
    processor: &mut Processor,
) -> Result<(), AllocError>
    requires room { IsTrue (g.has_room operation (processor_of processor.old)) }
    ensures { OnOk result (processor_of processor.new
        ≡ g.does operation highest size (processor_of processor.old)) }
{
    match operation {
        Operation::Begin => {
            let taken = is_taken(highest, processor);
            drop_last(processor, 1);
            if !taken {
                return Ok(());
            }
            let level = Level {
                number: 0,
                rank: processor.number,
                size,
                space: processor.level.space,
            };
            enter_level(processor, level)
        }
        Operation::Agree => put_last(processor, highest),
        Operation::Frame { nesting, words } => take_frame(processor, nesting, words),
        Operation::Block => take_block(processor),
        Operation::Split(by) => {
            let part = part(by, processor);
            divide(by, processor, size, part)
        }
        Operation::Shrink => {
            let stays = stays(processor);
            drop_last(processor, 1);
            if stays {
                processor.level.size = size;
            } else {
                leave_level(processor);
            }
            Ok(())
        }
        Operation::End => {
            leave_level(processor);
            Ok(())
        }
        _ => Ok(()),
    }
}
