//! Where the words of a program's variables lie, and its group frames.
//!
//! Each variable and parameter has a slot: among the globals, among the private words of the file
//! or of its function, or in the group frame around it. Each function thus has private places and
//! words of a group frame of its own. All of this follows from the text, the words of the types and
//! where groups split.
#![tactic(auto)]

mod frames;
mod known;
mod places;
mod tables;
mod taken;
mod whole;
mod words;

pub use tables::{Own, Slots};
pub use whole::slots;
