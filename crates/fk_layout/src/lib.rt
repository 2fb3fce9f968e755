//! The layout of a program: its sites, its frames, and where its variables lie.
#![tactic(auto)]

mod frames;
mod layout;
mod listed;
mod sites;

pub use frames::MOST_PRIVATE_WORDS;
pub use layout::{Layout, known_of, lay_out};
pub use listed::{Listing, Site, all_sites};
pub use sites::{LayoutFault, MOST_SITES, count_sites, fitting_sites};
