//! The state before the first round of a program.

ghost use Rattle.std.specs.Prelude.{◌≡◌, ◌+◌, ◌^◌, ◌≤◌, length, vec_len, IfOk};
ghost use Rattle.fk_syntax.specs.ProgramView.{program_of};
ghost use Rattle.fk_meaning_store.specs.View.{processors_of};
ghost use Rattle.fk_layout.specs.Layout.{IsLayout};
ghost use Rattle.fk_meaning_state.specs.View.{state_of, store_in};
ghost use Rattle.fk_meaning_state.specs.Opening.{all_of_main, opening_of};

use crate::state::State;
use fk_layout::Layout;
use fk_syntax::{Facts, Program};
use std::alloc::{AllocError, Global};

/// The state before the first round of a program: `p` processors at the beginning of `main`. Shared
/// data has the globals and then the input numbers.
///
/// It takes 4 MiB for shared data, and for each processor 64 KiB for its private heap and a word
/// for each private variable of file scope. It fails only if there isn't enough memory.
pub fn opening(
    alloc: Global,
    program: &Program,
    facts: &Facts,
    layout: &Layout,
    input: &[u32],
    p: u32,
) -> Result<State, AllocError>
    requires laid { IsLayout (program_of program.now) facts.now layout.now }
    requires words { vec_len layout.now.words + length input.now ≤ 2 ^ 19 }
    requires some { 1 ≤ p }
    requires few { p ≤ 1024 }
    ensures opening { IfOk result (λ state.
        state_of (all_of_main (program_of program.now) facts.now) state
        ≡ opening_of (program_of program.now) facts.now input.now p) }
    ensures processors { IfOk result (λ state. processors_of (store_in state) ≡ p) }
{
    State::first(alloc, &layout.words, &layout.firsts, input, p)
}
