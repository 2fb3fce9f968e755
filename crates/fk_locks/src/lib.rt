//! The fair lock: a text of Fork95 that other texts begin with, so that their processors can
//! exclude each other.
#![tactic(auto)]

pub mod laws;
mod text;

pub use text::{lock_text, with_lock};
