//! The classes of the expressions of Fork95: which ones have one value for a whole group, and which
//! ones may have a different value for each processor.
#![tactic(auto)]

mod class;
mod thing;

pub use class::{is_assigned_shared, is_call_shared, is_joined_shared, is_shared};
pub use thing::{Thing, is_name_shared, thing_at};
