//! The facts about a program that are known before its expressions are read: what each declaration
//! declares, and the types of the members of structs.
#![tactic(auto)]

mod declarations;
mod environment;
mod types;

pub use environment::Environment;
