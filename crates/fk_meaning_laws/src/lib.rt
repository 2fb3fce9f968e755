//! Laws of the meaning that no part of the compiler needs, and that tell its reader what a
//! definition comes to.
//!
//! The definitions stand in `specs/`, and what is proved of them in `laws`.
#![tactic(auto)]

pub mod laws;
