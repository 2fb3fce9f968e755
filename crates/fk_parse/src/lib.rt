//! The parser of Fork95: the program that a text's tokens spell.
#![tactic(auto)]

mod item;
mod kinds;
pub mod laws;
mod parser;
mod told;

pub use fk_parse_combinators::fault::SyntaxFault;
pub use parser::parse;
