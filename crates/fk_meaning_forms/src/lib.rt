//! The operations of every form of the language, in their order.
//!
//! A program is translated to code: operations with choices, loops and calls. The sites of a text
//! are the operations of its code in order.
#![tactic(auto)]

mod facts;
pub mod laws;
mod signs;
mod tables;
mod texts;

pub use facts::{kind_of, note_of};
pub use signs::{Move, is_shift, move_of, operator_of};
pub use tables::{FrameSize, Home, Region, Slot};
pub use texts::text_bytes;
