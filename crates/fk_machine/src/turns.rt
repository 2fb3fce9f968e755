//! The turns of a cycle.

ghost use Rattle.std.specs.Prelude.{◌≡◌, ℕ, ◌+◌, ◌*◌, ◌≤◌, None, length, vec_len};
ghost use Rattle.fk_num.specs.Word.{Memory};
ghost use Rattle.fk_machine.specs.Cycle.{turns, all_ended, stand_after};
ghost use Rattle.fk_machine.specs.View.{harts_of, setting_of};
ghost use Rattle.fk_machine.specs.Does.{room_of, PrintsUpTo, TakesTurns};

use crate::hart::{TrackedHart, pass_over};
use crate::place::LOCAL_WORDS;
use crate::setting::Setting;
use crate::shared::{LINE_BYTES, SharedState};
use crate::stand::Stand;
use crate::turn::take_turn;

/// The number of words from one hart's local memory to the next: 16 more than it has. With a power
/// of two, the words that harts use most would fall into the same sets of a cache.
pub const LOCAL_STRIDE: u32 = LOCAL_WORDS + 16;

/// The status of the machine after the turns of a cycle, one of which may have ended it.
pub fn stand_after(stop: Option<Stand>, harts: &[TrackedHart]) -> Stand
    requires some { 1 ≤ length harts.now }
    ensures { (local : ℕ → Memory) → result ≡ stand_after stop (harts_of 0 harts.now local) }
{
    match stop {
        Some(stand) => stand,
        None if have_all_ended(harts) => Stand::Finished,
        None => Stand::Running,
    }
}

// The first hart is mostly still running, so it is tested first, and inline.
#[inline(always)]
fn have_all_ended(harts: &[TrackedHart]) -> bool
    requires some { 1 ≤ length harts.now }
    ensures { (local : ℕ → Memory) → result ≡ all_ended (harts_of 0 harts.now local) }
{
    harts[0].state.ended && have_ended(harts)
}

#[inline(never)]
fn have_ended(harts: &[TrackedHart]) -> bool
    ensures { (local : ℕ → Memory) → result ≡ all_ended (harts_of 0 harts.now local) }
{
    harts.iter().all(|hart| hart.state.ended)
}

/// The harts that have not ended take their turns, in ascending number from `number` on. If one
/// ends the machine, those above are not served, and `stop` gets the machine's status. Each hart
/// notes the address that it ran.
pub fn take_turns(
    setting: &Setting,
    number: u32,
    harts: &mut [TrackedHart],
    locals: &mut [u32],
    shared: &mut SharedState,
    stop: &mut Option<Stand>,
)
    requires few { number + length harts.old ≤ 1024 }
    requires own { length locals.old ≡ LOCAL_STRIDE * length harts.old }
    requires reserved { number + length harts.old ≤ vec_len shared.old.reserved }
    requires output { LINE_BYTES * length harts.old ≤ room_of shared.old }
    requires none { stop.old ≡ None }
    ensures turns { TakesTurns (turns (setting_of setting.now) number)
        harts.old locals.old shared.old stop.new harts.new locals.new shared.new }
    ensures output { PrintsUpTo (LINE_BYTES * length harts.old) shared.old shared.new }
{
    if harts.is_empty() {
        return;
    }
    let hart = &mut harts[0];
    hart.begin();
    if !hart.state.ended {
        let local = &mut locals[..LOCAL_WORDS as usize];
        if let Some(stand) = take_turn(setting, number, &mut hart.state, local, shared) {
            *stop = Some(stand);
            pass_over(&mut harts[1..]);
            return;
        }
    }
    take_turns(
        setting,
        number + 1,
        &mut harts[1..],
        &mut locals[LOCAL_STRIDE as usize..],
        shared,
        stop,
    );
}
