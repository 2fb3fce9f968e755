//! The types of Fork95, and the structs of a text: their members, offsets and sizes.
#![tactic(auto)]

pub mod laws;
mod layout;
mod names;
mod order;
mod outline;
mod spelling;
mod structs;
mod types;
mod words;

pub use outline::Outline;
pub use structs::Structs;
pub use types::{DataType, Root};
