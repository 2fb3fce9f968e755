//! The kinds of types, which are what code generation needs to know of them. The kinds that occur
//! in a text are numbered in the order of their first occurrence.
#![tactic(auto)]

mod kind;
mod numbers;

pub use kind::kind_of;
pub use numbers::Kinds;
