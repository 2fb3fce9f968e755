//! The rules of Fork95 about names: names that denote nothing, names that are declared twice,
//! headers of functions, and `main`.
#![tactic(auto)]

mod agree;
mod check;
mod headers;
mod named;

pub use check::name_fault;
