//! The pieces of a Fork95 text: its declarations, and each of its expressions with its use.
#![tactic(auto)]

mod piece;
mod pieces;

pub use piece::{Piece, Role};
pub use pieces::Pieces;
