//! A small memory for tests.

ghost use Rattle.std.specs.Prelude.{◌≡◌, ◌≤◌, ◌<◌, ◌+◌, ◌/◌, None, map, slice_index};
ghost use Rattle.fk_isa.specs.Atomic.{unless};
ghost use Rattle.fk_isa.specs.Flat.{flat_trap};
ghost use Rattle.fk_isa.specs.Tells.{IsSize};

use crate::atomic::{combine, unless};
use crate::bus::Bus;
use crate::effect::{ACCESS, Effect, MISALIGNED};
use crate::funct5::{LR, SC};

/// A bus of 256 bytes and two harts, with the number of the word that each has reserved.
#[derive(Drop)]
pub struct FlatMemory {
    pub bytes: [u8; 256],
    pub reserved: [Option<u32>; 2],
}

// The trap of an access, if it traps.
fn trap_of(address: u32, size: u8) -> Option<u8>
    requires { IsSize size }
    ensures trap { result ≡ flat_trap address size }
    ensures within { result ≡ None → address + size ≤ 256 }
{
    if address % u32::from(size) != 0 {
        Some(MISALIGNED)
    } else if address >= 256 {
        Some(ACCESS)
    } else {
        None
    }
}

// Clears the reservations of a word.
fn clear(reserved: &mut [Option<u32>], word: u32)
    ensures { reserved.new ≡ map (unless word) reserved.old }
{
    for reservation in reserved.iter_mut() {
        *reservation = unless(word, *reservation);
    }
}

impl FlatMemory {
    ghost use Rattle.std.specs.Prelude.{◌*◌, ◌^◌, ◌%◌, slice_index_or};
    ghost use Rattle.fk_isa.specs.Tells.{Gives};
    ghost use Rattle.fk_num.specs.Word.{put};
    ghost use Rattle.fk_isa.specs.Flat.{Flat, flat_of, conditional, after_store, half_at};
    ghost use Rattle.fk_isa.specs.Flat.{number_at, with_half, with_number};

    // The number of two bytes.
    fn half(&self, at: usize) -> u32
        requires { at + 2 ≤ 256 }
        ensures value { result ≡ half_at (slice_index self.now.bytes) at }
        ensures fits { result < 2 ^ 16 }
    {
        u32::from(self.bytes[at]) + u32::from(self.bytes[at + 1]) * 0x100
    }

    // The number of `size` bytes.
    fn number(&self, address: u32, size: u8) -> u32
        requires size { IsSize size }
        requires within { address + size ≤ 256 }
        ensures value { result ≡ number_at (slice_index self.now.bytes) address size }
        ensures fits { result < 2 ^ (8 * size) }
    {
        let at = address as usize;
        match size {
            1 => u32::from(self.bytes[at]),
            2 => self.half(at),
            _ => self.half(at) + self.half(at + 2) * 0x1_0000,
        }
    }

    fn set_byte(&mut self, at: usize, byte: u32)
        requires at { at < 256 }
        requires byte { byte < 256 }
        ensures bytes { slice_index self.new.bytes ≡ put (slice_index self.old.bytes) at byte }
        ensures reserved { self.new.reserved ≡ self.old.reserved }
    {
        self.bytes[at] = byte as u8;
    }

    fn set_half(&mut self, at: usize, value: u32)
        requires { at + 2 ≤ 256 }
        ensures bytes { slice_index self.new.bytes
            ≡ with_half (slice_index self.old.bytes) at value }
        ensures reserved { self.new.reserved ≡ self.old.reserved }
    {
        self.set_byte(at, value % 0x100);
        self.set_byte(at + 1, value / 0x100 % 0x100);
    }

    // Stores `size` bytes, and clears the reservations of their word.
    fn put(&mut self, address: u32, size: u8, value: u32)
        requires size { IsSize size }
        requires within { address + size ≤ 256 }
        ensures { flat_of self.new ≡ after_store (flat_of self.old) address size value }
    {
        let at = address as usize;
        match size {
            1 => self.set_byte(at, value % 0x100),
            2 => self.set_half(at, value),
            _ => {
                self.set_half(at, value);
                self.set_half(at + 2, value / 0x1_0000);
            }
        }
        clear(&mut self.reserved, address / 4);
    }

    // The conditional store of a word. It gives 0 if the hart had reserved the word, and else 1 and
    // stores nothing.
    fn store_conditional(&mut self, hart: u32, address: u32, value: u32) -> u32
        requires hart { hart < 2 }
        requires within { address + 4 ≤ 256 }
        ensures { conditional (flat_of self.old) hart address value
            (slice_index_or self.old.reserved hart None) ≡ Gives result (flat_of self.new) }
    {
        let held = self.reserved[hart as usize];
        match held {
            Some(reserved) if reserved == address / 4 => {
                self.put(address, 4, value);
                0
            }
            _ => {
                self.reserved[hart as usize] = None;
                1
            }
        }
    }
}

impl Bus for FlatMemory {
    ghost use Rattle.fk_isa.specs.Flat.{Flat, flat_of, flat_tells};

    ghost State = { Flat };

    ghost state = { flat_of };

    ghost harts = { λ m. 2 };

    ghost is_ready = { λ m. Unit {0} };

    ghost tells = { flat_tells };

    ghost keeps = { λ old new. Unit {0} };

    fn load(&mut self, _hart: u32, address: u32, size: u8) -> Result<u32, u8> {
        match trap_of(address, size) {
            Some(trap) => Err(trap),
            None => Ok(self.number(address, size)),
        }
    }

    fn store(&mut self, _hart: u32, address: u32, size: u8, value: u32) -> Result<Effect, u8> {
        match trap_of(address, size) {
            Some(trap) => Err(trap),
            None => {
                self.put(address, size, value);
                Ok(Effect::Next)
            }
        }
    }

    fn atomic(&mut self, hart: u32, address: u32, what: u8, value: u32) -> Result<u32, u8> {
        if let Some(trap) = trap_of(address, 4) {
            return Err(trap);
        }
        match what {
            LR => {
                self.reserved[hart as usize] = Some(address / 4);
                Ok(self.number(address, 4))
            }
            SC => Ok(self.store_conditional(hart, address, value)),
            _ => {
                let old = self.number(address, 4);
                self.put(address, 4, combine(what, old, value));
                Ok(old)
            }
        }
    }
}
