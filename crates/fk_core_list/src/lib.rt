//! The operations of a flat list by their indices, and where each goes on.
#![tactic(auto)]

mod list;

pub use list::{behind_jump, follows, op_at};
