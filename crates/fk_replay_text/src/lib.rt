//! Trace texts, and how they are read.
//!
//! A trace tells the counts of a run: the harts that act in each cycle, and how many operations
//! each of them does. The lines of events are read for their form alone.
#![tactic(auto)]

mod column;
mod fault;
pub mod laws;
mod line;
mod place;
mod range;
mod reading;
mod trace;
mod words;

pub use fault::ReplayFault;
pub use reading::read_trace;
pub use trace::{Acts, Moment, Trace};
