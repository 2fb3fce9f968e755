//! Which words of shared data harts touch.

ghost use Rattle.std.specs.Prelude.{◌≡◌, ◌<◌, ◌≤◌, ◌^◌, All, IfSome, Some, length, map, slice_get};
ghost use Rattle.std.specs.Prelude.{vec_capacity};
ghost use Rattle.fk_isa.specs.Step.{HartState};
ghost use Rattle.fk_machine.specs.Step.{state_of};
ghost use Rattle.fk_machine.specs.View.{machine_of};
ghost use Rattle.fk_audit.specs.Mark.{is_served, next_touch, next_touches};

use crate::access::{Access, AccessKind};
use fk_machine::place::{Location, place_at};
use fk_machine::{Machine, Stand};

/// A touch: by which hart, of which word of shared data, and how.
#[derive(Clone, Copy)]
pub struct Touch {
    pub hart: u32,
    pub word: u32,
    pub kind: AccessKind,
}

// What the next instruction of the hart with this number touches, if the hart has not ended.
#[inline(always)]
fn next_touch(machine: &Machine, number: u32) -> Option<Touch>
    requires { number < length (machine_of machine.now).harts }
    ensures touch { (h : HartState)
        → slice_get (map state_of (machine_of machine.now).harts) number ≡ Some h
        → result ≡ next_touch (machine_of machine.now).code number h }
    ensures within { IfSome result (λ t. t.word < 2 ^ 20) }
{
    let hart = machine.hart(number);
    if hart.ended {
        return None;
    }
    let instruction = machine.instruction(hart.pc)?;
    let access = Access::of(instruction, hart)?;
    match place_at(access.address) {
        Location::SharedWord(word) => Some(Touch {
            hart: number,
            word,
            kind: access.kind,
        }),
        _ => None,
    }
}

/// Puts into `touches` what the next instructions of all harts touch, in ascending number.
pub fn collect(machine: &Machine, touches: &mut Vec<Touch>)
    requires { 1024 ≤ vec_capacity touches.old }
    ensures touches { touches.new.items ≡ next_touches (machine_of machine.now).code 0
        (map state_of (machine_of machine.now).harts) }
    ensures within { All (λ t. t.word < 2 ^ 20) touches.new.items }
    ensures room { vec_capacity touches.old ≤ vec_capacity touches.new }
{
    touches.clear();
    for number in 0..machine.harts() {
        if let Some(touch) = next_touch(machine, number) {
            touches.push(touch).unwrap();
        }
    }
}

/// Whether a hart that had not ended was served in a cycle and didn't trap, by the machine's status
/// after it.
#[inline(always)]
pub fn is_served(stand: Stand, number: u32) -> bool
    ensures { result ≡ is_served stand number }
{
    match stand {
        Stand::Running | Stand::Finished => true,
        Stand::Faulted(_, hart) => number <= hart,
        Stand::Trapped(hart, _, _) => number < hart,
    }
}
