//! The effects of instructions.

/// The effect of an instruction.
#[derive(Clone, Copy, PartialEq, Eq, Debug)]
pub enum Effect {
    /// The hart goes on.
    Next,
    /// The hart has ended.
    Ended,
    /// The machine has faulted at a site.
    Fault(u32),
    /// The instruction trapped and changed nothing: 1 Fetch, 2 Unknown, 3 Misaligned, 4 Access,
    /// 5 Ecall, 6 Ebreak.
    Trap(u8),
}

pub const MISALIGNED: u8 = 3;

pub const ACCESS: u8 = 4;

pub const ECALL: u8 = 5;

pub const EBREAK: u8 = 6;
