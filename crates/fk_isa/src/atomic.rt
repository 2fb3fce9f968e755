//! What atomic instructions store (RISC-V Unprivileged ISA, "A" Extension).

ghost use Rattle.std.specs.Prelude.{◌≡◌};
ghost use Rattle.fk_isa.specs.Atomic.{combined, unless};

use crate::funct5::{AMOADD, AMOAND, AMOMAX, AMOMIN, AMOMINU, AMOOR, AMOSWAP, AMOXOR};
use fk_num::{Op, apply};

/// A reservation, unless it is of this word.
pub fn unless(word: u32, reservation: Option<u32>) -> Option<u32>
    ensures { result ≡ unless word reservation }
{
    match reservation {
        Some(reserved) if reserved == word => None,
        other => other,
    }
}

/// The word that an atomic instruction stores, by the bits 31 to 27 of the instruction, the word
/// that it found, and its value.
#[tactic(auto, unfolding(crate::specs::Atomic::combined))]
pub fn combine(what: u8, old: u32, value: u32) -> u32
    ensures { result ≡ combined what old value }
{
    let op = match what {
        AMOSWAP => return value,
        AMOADD => Op::Add,
        AMOXOR => Op::Xor,
        AMOAND => Op::And,
        AMOOR => Op::Or,
        AMOMIN => Op::MinS,
        AMOMAX => Op::MaxS,
        AMOMINU => Op::MinU,
        _ => Op::MaxU,
    };
    apply(op, old, value)
}
