//! Input texts: the numbers that a run gets.
//!
//! A text is a list of words, separated by spaces, tabs, carriage returns and newlines. A word is
//! one or more decimal digits, with or without a `-` before them, and is a number from -2^31 to
//! 2^32 - 1.
#![tactic(auto)]

mod fault;
mod number;
mod reading;
mod words;

pub use fault::InputFault;
pub use reading::read_input;
