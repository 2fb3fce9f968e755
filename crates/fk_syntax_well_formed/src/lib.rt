//! Whether the nodes of a Fork95 program are identified by the indices of their tokens.
#![tactic(auto)]

mod nodes;
mod visitors;
mod walk;

pub use nodes::well_formed;
