//! Fields of words.

ghost use Rattle.std.specs.Prelude.{◌≡◌, ◌<◌, ◌≤◌, ◌^◌};
ghost use Rattle.fk_isa.specs.Bits.{bits, extended};

/// `count` bits of a word, from bit `low` on.
pub fn bits(word: u32, low: u32, count: u32) -> u32
    requires low { low < 32 }
    requires count { count < 32 }
    ensures value { result ≡ bits word low count }
    ensures fits { result < 2 ^ count }
{
    (word >> low) % (1 << count)
}

/// A signed number of `count` bits, as a word.
pub fn extended(count: u32, number: u32) -> u32
    requires some { 1 ≤ count }
    requires count { count < 32 }
    requires fits { number < 2 ^ count }
    ensures { result ≡ extended count number }
{
    if number < 1 << (count - 1) {
        number
    } else {
        number + (u32::MAX << count)
    }
}
