//! The phases of a round before the steps of the tree, and who fits together.
#![tactic(auto)]

mod acting;
mod actor;
mod fits;
mod joint;
mod phases;

pub use acting::{Acting, acting_in, dismiss};
pub use actor::Actor;
pub use fits::all_fit;
pub use joint::joint_of;
pub use phases::{Fault, begin_all, do_requests};
