//! Statements of Fork95.
//!
//! Each contract gives the result of a function in terms of a reader on lists of tokens. The
//! readers of the crates above are built from these. That those read the grammar is proved there.
#![tactic(auto)]

mod boxes;
pub mod kinds;
mod simple;
pub mod statement;
pub mod told;
