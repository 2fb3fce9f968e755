//! Declarations of Fork95: variables, members of structs, and parameters. Each is read where it
//! stands among the tokens of a text.
//!
//! Each contract gives the result of a function in terms of a reader on lists of tokens. The
//! readers of the crates above are built from these. That those read the grammar is proved there.
#![tactic(auto)]

pub mod declaration;
pub mod kinds;
pub mod lists;
pub mod told;
