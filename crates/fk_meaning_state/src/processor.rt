//! Processors, and their initial state.

ghost use Rattle.std.specs.Prelude.{◌≡◌, map, slice_index, IfOk};
ghost use Rattle.fk_meaning.specs.Schedule as run;
ghost use Rattle.fk_meaning.specs.Next.{Work};
ghost use Rattle.fk_meaning_state.specs.View.{setting_of, level_of, call_of, processor_of};
ghost use Rattle.fk_meaning_state.specs.View.{runner_of};

use crate::setting::Setting;
use fk_space::Space;
use std::alloc::{AllocError, Global};

/// The data of a member about its group.
#[derive(Clone, Copy)]
pub struct Level {
    /// `@`.
    pub number: u32,
    /// Its own `$`.
    pub rank: u32,
    /// The value of `groupsize()`.
    pub size: u32,
    pub space: Space,
}

/// The call of a function.
#[derive(Drop)]
pub struct Call {
    /// The value list, the last value at its end.
    pub values: Vec<u32>,
    /// Its private words. All words after these are 0.
    pub privates: Vec<u32>,
    /// The first word of the frame that was taken at each nesting; nesting 0 is that of the
    /// function.
    pub frames: Vec<u32>,
}

/// A processor.
#[derive(Drop)]
pub struct Processor {
    /// Its number, from 0.
    pub number: u32,
    /// Its level in the innermost group.
    pub level: Level,
    /// Its levels in the groups around it, the innermost at the end.
    pub outer: Vec<Level>,
    /// The running call.
    pub call: Call,
    /// The calls that wait for it, the last one at the end.
    pub callers: Vec<Call>,
    /// Its private variables of file scope.
    pub own: Vec<u32>,
    /// The number of words of its private heap that it has taken.
    pub top: u32,
}

impl Level {
    /// The level of a processor at the beginning: `@` is 0, `$` is its number, and the whole group
    /// space is available for a `start`.
    fn first(setting: Setting, number: u32) -> Level
        ensures { level_of result ≡ run.first_level (setting_of setting) number }
    {
        Level {
            number: 0,
            rank: number,
            size: setting.processors,
            space: setting.group_space(),
        }
    }
}

impl Call {
    /// The call of `main` at its beginning.
    fn first(alloc: Global) -> Call
        ensures { call_of result ≡ run.first_call }
    {
        Call {
            values: Vec::new(alloc),
            privates: Vec::new(alloc),
            frames: Vec::new(alloc),
        }
    }
}

impl Processor {
    /// A processor at the beginning of `main`, given the initial values of the private variables of
    /// file scope.
    pub fn first(
        alloc: Global,
        setting: Setting,
        firsts: &[u32],
        number: u32,
    ) -> Result<Processor, AllocError>
        ensures { IfOk result (λ processor. processor_of processor
            ≡ run.first_processor (setting_of setting) (slice_index firsts.now) number) }
    {
        Ok(Processor {
            number,
            level: Level::first(setting, number),
            outer: Vec::new(alloc),
            call: Call::first(alloc),
            callers: Vec::new(alloc),
            own: firsts.iter().copied().collect(alloc)?,
            top: 0,
        })
    }
}

/// All processors at the beginning of `main`, in the order of their numbers.
pub(crate) fn beginners(
    alloc: Global,
    setting: Setting,
    firsts: &[u32],
) -> Result<Vec<Processor>, AllocError>
    // This holds for whatever work all of them have left.
    ensures { IfOk result (λ processors. (left : Work) → map (runner_of left) processors.items
        ≡ run.beginners (setting_of setting) (slice_index firsts.now) left 0 setting.processors) }
{
    let mut processors = Vec::new(alloc);
    for number in 0..setting.processors {
        let processor = Processor::first(alloc, setting, firsts, number)?;
        processors.push(processor)?;
    }
    Ok(processors)
}
