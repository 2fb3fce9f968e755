//! The references in the expressions of a Fork95 text: to variables and functions, to members of
//! structs, and to types by `sizeof`.
#![tactic(auto)]

mod references;

pub use references::{Reference, References};
