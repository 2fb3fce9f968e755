//! The levels of groups in the frames of calls, at each index of a flat list: how many there are,
//! after which word they begin, and whether a `fork` left the last of them.
#![tactic(auto)]

mod behind;
mod count;
mod open;
mod pass;

pub use pass::levels;
