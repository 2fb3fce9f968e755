//! The run of a program under the schedule of a trace.
//!
//! It runs the program's flat list, says whether the schedule is lawful, and gives what is printed
//! and how the run ends.
#![tactic(auto)]

mod end;
mod replay;

pub use end::{End, Replayed};
pub use fk_replay_text::{Acts, Moment, ReplayFault, Trace, read_trace};
pub use replay::replay_list;
