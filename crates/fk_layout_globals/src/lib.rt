//! The variables of file scope: where the shared ones lie among the words of shared data, and the
//! initial values of all of them.
#![tactic(auto)]

mod constants;
pub mod laws;
mod layout;
mod rows;
mod types;
mod variables;

pub use constants::constant;
pub use layout::{Globals, GlobalsFault, lay_globals};
pub use rows::GlobalRow;
pub use types::Types;
