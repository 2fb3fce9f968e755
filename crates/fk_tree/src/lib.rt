//! The tree of groups: which processors act together, and which ones wait for others.
//!
//! All processors begin in the root, where each runs by itself. A group in lockstep can be split
//! into parts, which end before it goes on. It can also have a body that its members, or the lowest
//! of them, run by themselves. Nodes have numbers, which are never used again.
#![tactic(auto)]

mod node;
mod nodes;
mod tree;

pub use node::Kind;
pub use tree::Tree;
