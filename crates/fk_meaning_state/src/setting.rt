//! The constants of a run.

ghost use Rattle.std.specs.Prelude.{◌+◌, ◌^◌, ◌≤◌};

use fk_space::Space;

/// The number of words of shared data.
const SHARED_WORDS: u32 = 1 << 20;

/// The constants of a run: the numbers of processors, of words of globals and of input numbers.
#[derive(Clone, Copy)]
pub struct Setting {
    pub processors: u32,
    pub globals: u32,
    pub inputs: u32,
    ghost fits: { globals + inputs ≤ 2 ^ 19 },
}

impl Setting {
    ghost use Rattle.std.specs.Prelude.{◌≡◌};
    ghost use Rattle.fk_meaning.specs.Processor.{group_space};
    ghost use Rattle.fk_meaning_state.specs.View.{setting_of};

    /// The constants of a run with these numbers of processors, words of globals and input numbers.
    pub fn of(processors: u32, globals: u32, inputs: u32) -> Setting
        requires fits { globals + inputs ≤ 2 ^ 19 }
        ensures { setting_of result
            ≡ record { processors = processors; globals = globals; inputs = inputs } }
    {
        Setting {
            processors,
            globals,
            inputs,
        }
    }

    /// The group space: one half, rounded down, of the words of shared data after the globals and
    /// the input numbers.
    pub(crate) fn group_space(self) -> Space
        ensures { result ≡ group_space (setting_of self) }
    {
        let taken = self.globals + self.inputs;
        Space::whole(taken, (SHARED_WORDS - taken) / 2)
    }
}
