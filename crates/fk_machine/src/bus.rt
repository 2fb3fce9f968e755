//! What a hart reaches in its turn.

ghost use Rattle.std.specs.Prelude.{◌≡◌, ◌+◌, ◌*◌, ◌^◌, ◌<◌, ◌≤◌};
ghost use Rattle.fk_isa.specs.Tells.{IsSize};
ghost use Rattle.fk_machine.specs.Reach.{part, with_part};

use crate::place::{Device, Location, place_at};
use crate::setting::Setting;
use crate::shared::SharedState;
use crate::stand::{ACCESS, MISALIGNED};
use fk_isa::funct5::{LR, SC};
use fk_isa::{Bus, Effect, combine};

// `size` bytes of a word, from byte `byte` on, lowest first.
#[inline(always)]
fn part(word: u32, byte: u32, size: u8) -> u32
    requires size { IsSize size }
    requires within { byte + size ≤ 4 }
    ensures value { result ≡ part word byte size }
    ensures fits { result < 2 ^ (8 * size) }
{
    match size {
        1 => (word >> (8 * byte)) % 0x100,
        2 => (word >> (8 * byte)) % 0x1_0000,
        _ => word,
    }
}

// The word with these bytes replaced by the lowest ones of a value.
#[inline(always)]
fn with_part(word: u32, byte: u32, size: u8, value: u32) -> u32
    requires size { IsSize size }
    requires within { byte + size ≤ 4 }
    ensures { result ≡ with_part word byte size value }
{
    if size == 4 {
        return value;
    }
    let (below, count) = (8 * byte, 8 * u32::from(size));
    let above = word >> below >> count;
    let from_byte = (above << count) + value % (1 << count);
    (from_byte << below) + word % (1 << below)
}

/// What a hart reaches in its turn: its local memory, what all harts share, and the numbers that
/// devices give.
#[derive(Drop)]
pub struct HartBus<'a> {
    pub setting: &'a Setting,
    pub local: &'a mut [u32],
    pub shared: &'a mut SharedState,
}

impl HartBus<'_> {
    ghost use Rattle.std.specs.Prelude.{length, vec_len};
    ghost use Rattle.fk_isa.specs.Tells.{Told, ToldStore};
    ghost use Rattle.fk_machine.specs.Fits.{IsInMachine};
    ghost use Rattle.fk_machine.specs.Reach.{load_device, store_device, word_at, stored};
    ghost use Rattle.fk_machine.specs.Reach.{conditional, is_of};
    ghost use Rattle.fk_machine.specs.Does.{IsReady, Keeps, reach_of};

    // A load from a device: its word, or the number of the trap.
    #[inline(always)]
    fn load_device(&self, number: u32, device: Device) -> Result<u32, u8>
        ensures { Told (load_device (reach_of self.now) number device) result (reach_of self.now)
            (reach_of self.now) }
    {
        match device {
            Device::Cycle => Ok(self.setting.finished),
            Device::HartId => Ok(number),
            Device::Harts => Ok(self.setting.harts),
            Device::Inputs => Ok(self.setting.inputs),
            _ => Err(ACCESS),
        }
    }

    // A store to a device: its effect, or the number of the trap.
    #[inline(always)]
    fn store_device(&mut self, device: Device, value: u32) -> Result<Effect, u8>
        requires { IsReady self.old }
        ensures told { ToldStore (store_device (reach_of self.old) value device) result
            (reach_of self.old) (reach_of self.new) }
        ensures keeps { Keeps self.old self.new }
    {
        match device {
            Device::OutInt => self.shared.print_number(value),
            Device::OutChar => self.shared.print_byte(value),
            Device::Fault => return Ok(Effect::Fault(value)),
            Device::Halt => return Ok(Effect::Ended),
            _ => return Err(ACCESS),
        }
        Ok(Effect::Next)
    }

    // The word of a memory.
    #[inline(always)]
    fn word_at(&self, place: Location) -> Option<u32>
        requires within { IsInMachine place }
        requires own { length self.now.local.now ≡ 32768 }
        ensures { result ≡ word_at (reach_of self.now) place }
    {
        match place {
            Location::SharedWord(index) => Some(self.shared.words[index as usize]),
            Location::ControlWord(index) => Some(self.shared.control[index as usize]),
            Location::LocalWord(index) => Some(self.local[index as usize]),
            _ => None,
        }
    }

    // Stores a word in a memory, and clears the word's reservations.
    #[inline(always)]
    fn store_word(&mut self, number: u32, word: u32, place: Location, value: u32)
        requires number { number < vec_len self.old.shared.now.reserved }
        requires within { IsInMachine place }
        requires own { length self.old.local.now ≡ 32768 }
        ensures stored { reach_of self.new ≡ stored (reach_of self.old) number word place value }
        ensures keeps { Keeps self.old self.new }
    {
        let (local, shared) = (&mut *self.local, &mut *self.shared);
        match place {
            Location::SharedWord(index) => {
                shared.words[index as usize] = value;
                shared.clear(word);
            }
            Location::ControlWord(index) => {
                shared.control[index as usize] = value;
                shared.clear(word);
            }
            Location::LocalWord(index) => {
                local[index as usize] = value;
                shared.clear_own(number, word);
            }
            _ => {}
        }
    }

    // The conditional store of a word. It gives 0 if the hart had reserved the word, and else 1 and
    // stores nothing.
    #[inline(always)]
    fn store_conditional(&mut self, number: u32, word: u32, place: Location, value: u32) -> u32
        requires number { number < vec_len self.old.shared.now.reserved }
        requires within { IsInMachine place }
        requires own { length self.old.local.now ≡ 32768 }
        ensures told { Told (conditional (is_of word ((reach_of self.old).shared.reserved number))
            (reach_of self.old) number word place value)
            (Ok result) (reach_of self.old) (reach_of self.new) }
        ensures keeps { Keeps self.old self.new }
    {
        let shared = &mut *self.shared;
        let holds = shared.reserved[number as usize] == Some(word);
        shared.reserve(number, None);
        if holds {
            self.store_word(number, word, place, value);
            0
        } else {
            1
        }
    }
}

impl Bus for HartBus<'_> {
    ghost use Rattle.std.specs.Prelude.{vec_len};
    ghost use Rattle.fk_machine.specs.Reach.{Reach, tells};
    ghost use Rattle.fk_machine.specs.Does.{IsReady, Keeps, reach_of};

    ghost State = { Reach };

    ghost state = { reach_of };

    ghost harts = { λ b. vec_len b.shared.now.reserved };

    ghost is_ready = { IsReady };

    ghost tells = { tells };

    ghost keeps = { Keeps };

    #[inline(always)]
    fn load(&mut self, hart: u32, address: u32, size: u8) -> Result<u32, u8> {
        if address % u32::from(size) != 0 {
            return Err(MISALIGNED);
        }
        let place = place_at(address);
        match self.word_at(place) {
            Some(word) => Ok(part(word, address % 4, size)),
            None => match place {
                Location::DeviceWord(device) if size == 4 => self.load_device(hart, device),
                _ => Err(ACCESS),
            },
        }
    }

    #[inline(always)]
    fn store(&mut self, hart: u32, address: u32, size: u8, value: u32) -> Result<Effect, u8> {
        if address % u32::from(size) != 0 {
            return Err(MISALIGNED);
        }
        let place = place_at(address);
        match self.word_at(place) {
            Some(word) => {
                let stored = with_part(word, address % 4, size, value);
                self.store_word(hart, address / 4 * 4, place, stored);
                Ok(Effect::Next)
            }
            None => match place {
                Location::DeviceWord(device) if size == 4 => self.store_device(device, value),
                _ => Err(ACCESS),
            },
        }
    }

    #[inline(always)]
    fn atomic(&mut self, hart: u32, address: u32, what: u8, value: u32) -> Result<u32, u8> {
        if address % 4 != 0 {
            return Err(MISALIGNED);
        }
        let place = place_at(address);
        let word = match self.word_at(place) {
            Some(word) => word,
            None => return Err(ACCESS),
        };
        match what {
            LR => self.shared.reserve(hart, Some(address)),
            SC => return Ok(self.store_conditional(hart, address, place, value)),
            _ => self.store_word(hart, address, place, combine(what, word, value)),
        }
        Ok(word)
    }
}
