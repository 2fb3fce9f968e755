//! Words of 32 bits: the operators on them and their decimal texts. The limits of programs.
#![tactic(auto)]

mod decimal;
mod limits;
mod operator;

pub use decimal::{read_unsigned, signed_text, unsigned_text};
pub use limits::{MOST_CODE_WORDS, MOST_DATA_WORDS, MOST_TEXT_BYTES};
pub use operator::{Op, apply};
