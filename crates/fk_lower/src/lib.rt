//! From code in memory to its flat list.
//!
//! Code is in memory as blocks of pieces. Each block has measures: how many operations and jumps
//! its list has, and where it begins. So each target is known when it is written.
#![tactic(auto)]

mod block;
mod builder;
mod depths;
mod event;
mod fault;
mod functions;
pub mod laws;
mod measure;
mod span;
mod write;

pub use block::{Act, Block, Piece};
pub use builder::build;
pub use event::CodeEvent;
pub use fault::LowerFault;
pub use functions::{Lowered, lower};
pub use span::{Span, Spans, Start};
pub use write::{Entries, InsertPoint, Loop, Writer};
