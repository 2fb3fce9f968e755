//! Expressions of Fork95: the tree of an expression's tokens, and the place of each fault.
//!
//! `expression` and `assignment` read one among the tokens of a text. `at_cursor` has the same
//! productions for the grammar of statements, which reads them at a cursor.
#![tactic(auto)]

pub mod at_cursor;
mod entry;
pub mod kinds;
pub mod laws;
pub mod level;
mod parts;
mod production;
pub mod told;
pub mod types;
mod whole;

pub use entry::{assignment, expression};
pub use fk_parse_combinators::fault::SyntaxFault;
