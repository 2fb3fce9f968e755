//! The bits 31 to 27 of the atomic instructions, whose opcode is AMO (RISC-V Unprivileged ISA,
//! "RV32/64G Instruction Set Listings").

pub const AMOADD: u8 = 0b00000;

pub const AMOSWAP: u8 = 0b00001;

pub const LR: u8 = 0b00010;

pub const SC: u8 = 0b00011;

pub const AMOXOR: u8 = 0b00100;

pub const AMOOR: u8 = 0b01000;

pub const AMOAND: u8 = 0b01100;

pub const AMOMIN: u8 = 0b10000;

pub const AMOMAX: u8 = 0b10100;

pub const AMOMINU: u8 = 0b11000;

pub const AMOMAXU: u8 = 0b11100;
