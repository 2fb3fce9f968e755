//! The parts of Fork95's statements that have no others in them: headers, conditions, and simple
//! statements but for declarations. Each is read where it stands among the tokens of a text.
//!
//! Each contract says what is read by the function on lists of tokens that it computes, of which
//! the functions of the grammar above are put together. That those read the grammar is proved
//! there.
#![tactic(auto)]

pub mod expressions;
pub mod header;
pub mod kinds;
pub mod simple;
pub mod told;
