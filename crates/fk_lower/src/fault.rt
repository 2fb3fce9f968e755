//! The reasons why code has no list.

ghost use Rattle.std.specs.Prelude.{◌≡◌, ◌+◌, ◌^◌, ◌≤◌, IfOk, IfErr};

/// The reason why code has no list.
#[derive(Clone, Copy, PartialEq, Eq, Debug)]
pub enum LowerFault {
    /// The list would have more than 2^32 - 1 operations and jumps, or the code has so many
    /// operations (2^32 / 3) that it might.
    TooLong,
    /// A constant of an operation is too large for its number.
    OutOfRange,
    /// An event is where it may not be.
    Misplaced,
    /// There isn't enough memory.
    Memory,
}

// A sum, if it fits.
pub(crate) fn further(from: u32, by: u32) -> Result<u32, LowerFault>
    ensures sum { IfOk result (λ sum. sum ≡ from + by) }
    ensures fault { IfErr result (λ fault. fault ≡ LowerFault.TooLong) }
    ensures over { IfErr result (λ _. 2 ^ 32 ≤ from + by) }
{
    from.checked_add(by).ok_or(LowerFault::TooLong)
}
