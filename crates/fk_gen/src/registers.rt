//! The registers of blocks (RISC-V Unprivileged ISA, "RISC-V Assembly Programmer's Handbook").

/// `zero` stays 0.
pub const ZERO: u8 = 0;
/// `ra`: what a call stores in its frame to return by.
pub const RA: u8 = 1;
/// `t0` to `t6` are free in each block.
pub const T0: u8 = 5;

pub const T1: u8 = 6;

pub const T2: u8 = 7;

pub const T3: u8 = 28;

pub const T4: u8 = 29;

pub const T5: u8 = 30;

pub const T6: u8 = 31;
/// The address of the running call's frame.
pub const FRAME: u8 = 8;
/// The address of the word after the running call's frame.
pub const END: u8 = 9;
/// `@`.
pub const NUMBER: u8 = 18;
/// The address of the running call's group frame, or, if that call has none, of the group frame of
/// the last waiting call that has one.
pub const GROUP_FRAME: u8 = 14;
/// `$`.
pub const RANK: u8 = 19;
/// The size of the group.
pub const SIZE: u8 = 20;
/// The number of words of the private heap that are taken.
pub const TOP: u8 = 21;
/// The address of local memory. It never changes.
pub const LOCAL: u8 = 22;
/// The address of shared data. It never changes.
pub const SHARED: u8 = 23;
/// The address of the private heap. It never changes.
pub const HEAP: u8 = 24;
/// The bits of an address that tell whether it is that of a word of shared data. It never changes.
pub const SHARED_MASK: u8 = 25;
/// The address of the devices. It never changes.
pub const DEVICES: u8 = 26;
/// The bits of an address that tell whether it is that of a word of the private heap.
/// It never changes.
pub const HEAP_MASK: u8 = 27;
