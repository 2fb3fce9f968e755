//! The rules of Fork95 about written types and about structs, and the first one that a text breaks.
#![tactic(auto)]

mod declarations;
mod holding;
mod members;
mod structs;

pub use declarations::{
    declaration_fault, is_struct, is_void, no_struct, parameter_fault, result_fault, sizeof_fault,
};
pub use structs::structs_fault;
