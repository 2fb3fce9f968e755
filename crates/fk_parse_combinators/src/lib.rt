//! Reading tokens by a grammar: a position among the tokens, what is expected there, and the
//! faults.
//!
//! The definitions say what a language of tokens is, and what it means that its longest stretch is
//! read. The proofs show, once for each combinator of a grammar, that readers combined in the same
//! way read the language exactly.
#![tactic(auto)]

pub mod cursor;
pub mod fault;
pub mod limits;

pub use fault::SyntaxFault;
