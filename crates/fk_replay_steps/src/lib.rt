//! What the operations of a flat list do to a processor, and who could act for how long.
#![tactic(auto)]

mod group;
mod list;
mod local;
mod pace;
mod request;
mod runner;
mod values;

pub use group::{does, goes_onward, has_room, not_negative, part, parts, stays};
pub use list::{Due, due_at};
pub use local::{do_local, is_onward};
pub use pace::Pace;
pub use request::do_request;
pub use runner::{Runner, class_of};
pub use values::last;
