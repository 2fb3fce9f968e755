//! Images: what a machine runs, and their form in a file.
//!
//! All words of the file are little-endian. It begins with a header of six words: the bytes `FK95`,
//! the version 1, and the numbers of words of code, of words of globals, of sites and of commits: 1
//! to 262,144, at most 524,288, at most 16,000, and at most as many as words of code. Then come the
//! code, the globals, the sites of three words each, and the commits of two, and nothing else.
#![tactic(auto)]

mod event;
mod fault;
pub mod laws;
mod reading;
mod writing;

pub use event::Event;
pub use fault::ImageFault;
pub use reading::read_image;
pub use writing::write_image;

/// A program for the machine.
#[derive(Drop)]
pub struct Image {
    /// The words of the code, from address 0 on.
    pub code: Vec<u32>,
    /// The first words of shared data: the initial values of the globals.
    pub globals: Vec<u32>,
    /// The kind, line and column of each site. Line and column are 0 if the site has no place.
    pub sites: Vec<(u32, u32, u32)>,
    /// The instructions that do an operation: the address, and the count + 256 * the event.
    /// Addresses rise.
    pub commits: Vec<(u32, u32)>,
}
