//! When the machine's harts match a tree of groups, and what a cycle makes of that.
//!
//! The definitions are in `specs/`, and the laws proved of them in `laws`.
#![tactic(auto)]

pub mod laws;
