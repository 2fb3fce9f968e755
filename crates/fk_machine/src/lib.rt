//! The machine: harts that run RISC-V code in lockstep on one shared memory.
//!
//! In a cycle each hart that has not ended runs one instruction, in ascending number. The
//! instructions are RV32I with M and A of the RISC-V Unprivileged ISA, by the table of `fk_isa`.
//! Code is fetched from address 0 on, and is no data. Data is little-endian words, at these
//! addresses:
//!
//! | address | what is there |
//! |---|---|
//! | 0x10000000 | 2^20 words of data, shared by all harts |
//! | 0x18000000 | 2^20 + 64 words of control, shared by all harts |
//! | 0x20000000 | 32,768 words of each hart's own |
//! | 0x30000000 | eight devices of a word each ([`place::Device`]), in the order of declaration |
//!
//! Loads and stores are of 1, 2 or 4 bytes at multiples of their size. Devices take those of 4.
//! `lr.w` reserves a word for its hart, in place of the word that the hart had reserved before. A
//! store to that word by any hart, also an atomic one, clears the reservation, as does an `sc.w` of
//! the hart itself. `sc.w` stores only if its hart has reserved the word. A local address is a
//! different word for each hart.
//!
//! A hart that can't go on traps, and that ends the machine ([`stand`] has the causes). If several
//! causes apply, the first one counts. A trapping instruction changes nothing.
#![tactic(auto)]

mod bus;
mod commits;
mod hart;
mod machine;
pub mod place;
mod setting;
mod shared;
pub mod stand;
mod turn;
mod turns;
mod zeros;

pub use machine::Machine;
pub use stand::Stand;
