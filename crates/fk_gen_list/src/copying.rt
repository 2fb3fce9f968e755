//! The code that all calls share.

ghost use Rattle.std.specs.Prelude.{◌≡◌, ◌+◌, ◌^◌, ◌<◌, ◌≤◌, ℕ, None, OnOk, length, slice_index_or};
ghost use Rattle.fk_asm.specs.Assembly.{AreFollowed};
ghost use Rattle.fk_gen.specs.Lines.{copy_label, clear_label, label_of};
ghost use Rattle.fk_gen_flow.specs.Calls.{most_privates};
ghost use Rattle.fk_gen_list.specs.Layout.{AddsCopying, AddsClearing};

use fk_asm::Assembler;
use fk_gen_flow::{emit_back, emit_clear, emit_copy};
use std::alloc::AllocError;

/// The number of private words that a frame has room for, and so the most arguments of a call.
const MOST_PRIVATES: u32 = 56;
/// The label at which no word is cleared.
const CLEAR_LABEL: u32 = 64;

/// Adds the code that copies arguments. A call of n > 1 arguments enters it at label n. From there
/// on each argument is copied into the new frame, the last one first, and then the code goes back
/// to the call.
pub(crate) fn emit_copying(into: &mut Assembler) -> Result<(), AllocError>
    requires room { length into.old.lines < 2 ^ 20 }
    requires followed { AreFollowed into.old }
    requires made { label_of 0 ≤ length into.old.bound }
    requires free { (n : ℕ) → n ≤ most_privates
        → slice_index_or into.old.bound (copy_label n) None ≡ None }
    ensures added { OnOk result (AddsCopying into.old into.new) }
    ensures followed { OnOk result (AreFollowed into.new) }
{
    for copied in 0..MOST_PRIVATES {
        let argument = MOST_PRIVATES - 1 - copied;
        into.bind(argument + 1)?;
        emit_copy(into, argument)?;
    }
    into.bind(0)?;
    emit_back(into)
}

/// Adds the code that clears private words. A call that clears n words enters it at label n of that
/// code. From there on each word becomes 0, the last one first, and then the code goes back to the
/// call.
pub(crate) fn emit_clearing(into: &mut Assembler) -> Result<(), AllocError>
    requires room { length into.old.lines < 2 ^ 20 }
    requires followed { AreFollowed into.old }
    requires made { label_of 0 ≤ length into.old.bound }
    requires free { (n : ℕ) → n ≤ most_privates
        → slice_index_or into.old.bound (clear_label n) None ≡ None }
    ensures added { OnOk result (AddsClearing into.old into.new) }
    ensures followed { OnOk result (AreFollowed into.new) }
{
    for cleared in 0..MOST_PRIVATES {
        let word = MOST_PRIVATES - 1 - cleared;
        into.bind(CLEAR_LABEL + (word + 1))?;
        emit_clear(into, word)?;
    }
    into.bind(CLEAR_LABEL)?;
    emit_back(into)
}
