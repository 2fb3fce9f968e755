//! Spaces of groups in the shared words, and the heap that serves all processors.
//!
//! A group's space is a range of words. Its first 8 words are its header. The frames of its
//! functions are taken upwards after the header, and its blocks downwards from the end. A split
//! divides the words between them evenly among the parts. Nothing here takes memory.
#![tactic(auto)]

mod heaps;
pub mod laws;
mod space;

pub use heaps::heap;
pub use space::Space;
