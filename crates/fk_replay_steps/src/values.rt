//! The value list of the running call, and memories whose later words are 0.

ghost use Rattle.std.specs.Prelude.{◌≡◌, OnOk, slice_index};
ghost use Rattle.fk_num.specs.Word.{put};
ghost use Rattle.fk_meaning.specs.Processor as p;
ghost use Rattle.fk_meaning_state.specs.View.{processor_of};

use fk_meaning_state::Processor;
use std::alloc::AllocError;

/// The value before the last `count` ones, or 0.
#[tactic(auto, using(crate::proofs::Ends::there, crate::proofs::Ends::none))]
pub(crate) fn value_before(processor: &Processor, count: usize) -> u32
    ensures { result ≡ p.last (p.before count (p.values (processor_of processor.now))) }
{
    let values = &processor.call.values;
    if count < values.len() {
        values[values.len() - 1 - count]
    } else {
        0
    }
}

/// The last value, or 0.
pub fn last(processor: &Processor) -> u32
    ensures { result ≡ p.last (p.values (processor_of processor.now)) }
{
    value_before(processor, 0)
}

/// Removes the last `count` values.
#[tactic(auto, using(crate::proofs::Ends::before_last))]
pub(crate) fn drop_last(processor: &mut Processor, count: usize)
    ensures { processor_of processor.new ≡ p.drop_last count (processor_of processor.old) }
{
    let left = processor.call.values.len().saturating_sub(count);
    processor.call.values.truncate(left);
}

/// Adds a value.
#[tactic(auto, using(crate::proofs::Ends::reverse_end))]
pub(crate) fn push(processor: &mut Processor, value: u32) -> Result<(), AllocError>
    ensures { OnOk result
        (processor_of processor.new ≡ p.push value (processor_of processor.old)) }
{
    processor.call.values.push(value)?;
    Ok(())
}

/// Replaces the last value.
pub(crate) fn put_last(processor: &mut Processor, value: u32) -> Result<(), AllocError>
    ensures { OnOk result
        (processor_of processor.new ≡ p.in_place value (processor_of processor.old)) }
{
    drop_last(processor, 1);
    push(processor, value)
}

/// A word of a memory whose other words are 0.
pub(crate) fn word_in(memory: &[u32], index: u32) -> u32
    ensures { result ≡ slice_index memory.now index }
{
    match memory.get(index as usize) {
        Some(word) => *word,
        None => 0,
    }
}

/// Replaces a word of a memory whose other words are 0.
pub(crate) fn put_word(memory: &mut Vec<u32>, index: u32, word: u32) -> Result<(), AllocError>
    ensures { OnOk result (slice_index memory.new.items
        ≡ put (slice_index memory.old.items) index word) }
{
    let place = index as usize;
    if memory.len() <= place {
        memory.resize(place + 1, 0)?;
    }
    memory[place] = word;
    Ok(())
}
