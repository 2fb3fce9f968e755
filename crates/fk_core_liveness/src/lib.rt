//! The private words that a call keeps at each index of a flat list: the fewest that suffice.
#![tactic(auto)]

mod live;
mod places;
mod set;

pub use live::live_words;
pub use places::FunctionKind;
pub use set::Set;
