//! The turn of a hart.

ghost use Rattle.std.specs.Prelude.{◌≡◌, ◌<◌, ◌≤◌, length, vec_len};
ghost use Rattle.fk_machine.specs.Step.{on_row, step};
ghost use Rattle.fk_machine.specs.View.{row_of, setting_of};
ghost use Rattle.fk_machine.specs.Does.{room_of, PrintsUpTo, IsReady, Keeps, Does};

use crate::bus::HartBus;
use crate::place::LOCAL_WORDS;
use crate::setting::{CodeWord, Setting};
use crate::shared::{LINE_BYTES, SharedState};
use crate::stand::{FETCH, Stand, UNKNOWN};
use fk_isa::{Effect, Hart, step};

// Runs a word of the code for the hart with this number, on what that hart reaches. Gives the
// status that ends the machine, if it does.
#[inline(always)]
fn perform(word: &CodeWord, number: u32, hart: &mut Hart, bus: &mut HartBus) -> Option<Stand>
    requires number { number < vec_len bus.old.shared.now.reserved }
    requires ready { IsReady bus.old }
    ensures effect { Does (on_row (setting_of bus.old.setting.now) number (row_of word.now))
        hart.old bus.old.local.now bus.old.shared.now result hart.new bus.new.local.now
        bus.new.shared.now }
    ensures keeps { Keeps bus.old bus.new }
{
    let pc = hart.pc;
    match step(word.instruction, number, hart, bus) {
        Effect::Next | Effect::Ended => None,
        Effect::Fault(site) => Some(Stand::Faulted(site, number)),
        Effect::Trap(kind) => {
            let kind = if word.is_known { kind } else { UNKNOWN };
            Some(Stand::Trapped(number, pc, kind))
        }
    }
}

/// Runs one instruction of the hart with this number, on its local memory and on what is shared.
/// Gives the status that ends the machine, if it does.
#[inline(always)]
pub fn take_turn(
    setting: &Setting,
    number: u32,
    hart: &mut Hart,
    local: &mut [u32],
    shared: &mut SharedState,
) -> Option<Stand>
    requires number { number < vec_len shared.old.reserved }
    requires own { length local.old ≡ LOCAL_WORDS }
    requires output { LINE_BYTES ≤ room_of shared.old }
    ensures effect { Does (step (setting_of setting.now) number)
        hart.old local.old shared.old result hart.new local.new shared.new }
    ensures output { PrintsUpTo LINE_BYTES shared.old shared.new }
{
    let index = (hart.pc / 4) as usize;
    if index >= setting.code.len() {
        return Some(Stand::Trapped(number, hart.pc, FETCH));
    }
    let mut bus = HartBus {
        setting,
        local,
        shared,
    };
    perform(&setting.code[index], number, hart, &mut bus)
}
