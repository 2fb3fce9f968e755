//! Processors come to their next operations, and it is kept up who could act.
#![tactic(auto)]

mod arrivals;
mod arrived;

pub use arrivals::{tell, tell_first};
pub use arrived::{Arrived, forget_all};
