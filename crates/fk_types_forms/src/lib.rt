//! The forms of Fork95's expressions: the type of each form, and the first rule that it breaks,
//! given the types and faults of its parts.
#![tactic(auto)]

mod calls;
pub mod forms;
mod names;
mod operands;
mod parts;

pub use calls::Parameter;
pub use names::{Entity, Scope, Signature, Thing};
pub use operands::{struct_at, struct_in};
pub use parts::{Arguments, Part};
