//! The binding of each token of a Fork95 program, which is a number. Bindings are for names of
//! declarations, members of structs, and `sizeof`.
#![tactic(auto)]

mod bodies;
mod bound;
mod found;
mod known;

pub use bound::bindings;
