//! The replay of a text's program under the schedule of a trace.
//!
//! The program is run as its flat list. `laws` proves that an answer for the list is one for the
//! program.
#![tactic(auto)]

pub mod laws;
mod listed;
mod program;

pub use fk_compile::List;
pub use fk_compile_text::Built;
pub use fk_replay::{End, ReplayFault, Replayed, Trace, read_trace};
pub use listed::{Listed, listed_text};
pub use program::replay;
