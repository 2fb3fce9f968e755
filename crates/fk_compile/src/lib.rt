//! The compiler: from a text to an image that is faithful to it.
//!
//! `list` makes the flat list of a text. `fk_gen_list` makes the list's code. `image` puts that
//! into an image, with the sites and the globals.
//!
//! `laws` proves that code can be made of the list of a text, and that the image is faithful.
#![tactic(auto)]

mod compiler;
mod image;
pub mod laws;
mod list;

pub use compiler::{Compiled, compile};
pub use list::{List, list_of};
