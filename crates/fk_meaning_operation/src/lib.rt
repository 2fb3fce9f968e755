//! The elementary operations of a processor: the steps of which every run consists.
//!
//! Each processor has a list of values, to whose end it pushes and from whose end it takes.
#![tactic(auto)]

mod kinds;
mod operation;
mod told;

pub use kinds::{Class, FaultKind, Joint};
pub use operation::{Multiprefix, Operation, OwnValue, SplitKind, Unary, Variable};
