//! The lexer of Fork95: the tokens of a source text, or its first lexical fault.
#![tactic(auto)]

mod bytes;
mod gap;
pub mod laws;
pub mod lex;
mod literal;
mod numeral;
mod position;
mod step;
mod table;
pub mod token;
