//! RV32IMA: the table of instructions both ways, and one step of a hart.
#![tactic(auto)]

mod atomic;
mod bus;
mod decoder;
mod effect;
mod encoder;
mod fields;
mod flat;
pub mod funct5;
mod hart;
mod instruction;
pub mod laws;
mod opcode;
mod stepping;

pub use atomic::{combine, unless};
pub use bus::Bus;
pub use decoder::decode;
pub use effect::Effect;
pub use encoder::encode;
pub use flat::FlatMemory;
pub use hart::Hart;
pub use instruction::Instruction;
pub use stepping::step;
