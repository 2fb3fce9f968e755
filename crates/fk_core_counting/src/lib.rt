//! Laws: the levels that a flat list tells in its order are those of its calls at each index.
#![tactic(auto)]

pub mod laws;
