//! Laws of rounds: how few comparisons tell which processors fit together, and what each processor
//! keeps.
//!
//! The definitions stand in `specs/`, and what is proved of them in `laws`.
#![tactic(auto)]

pub mod laws;
mod mode;

pub use mode::Mode;
