//! The blocks of expressions: of constants, variables, signs, operators and indices.
//!
//! All are local operations, which a processor does by itself: the first instruction of a block
//! commits, and after the last one the hart stands for its processor again.
#![tactic(auto)]

mod blocks;
pub mod laws;

pub use blocks::ExpressionBlocks;
