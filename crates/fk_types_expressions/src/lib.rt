//! The types of the expressions of a program, and the first rule that each breaks.
#![tactic(auto)]

mod walk;

pub use fk_types_forms::{Entity, Part, Scope, Signature};
pub use walk::expression;
