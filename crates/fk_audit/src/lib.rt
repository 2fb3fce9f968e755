//! Which PRAM a run needed: whether harts share words of shared data in a cycle, by reads or by
//! writes.
//!
//! In a cycle a hart that is served and doesn't trap touches the word of shared data in which the
//! address of its load, store, `lr.w`, `sc.w` or AMO lies, if it lies there. A load and `lr.w`
//! read. All others write, an `sc.w` that stores nothing too. A word that two or more harts touch
//! in one cycle clashes: by reads if all of them read, and else by writes.
#![tactic(auto)]

mod access;
mod audit;
mod least;
mod marking;
mod marks;
mod touch;
mod verdict;

pub use audit::run_audit;
pub use marks::Marks;
pub use verdict::{Clash, Verdict};
