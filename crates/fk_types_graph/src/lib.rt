//! Directed graphs, which have for each vertex the ends of its edges. Finds the vertices on cycles.
#![tactic(auto)]

mod cycles;
mod marks;
mod order;
mod ranks;

pub use cycles::suspects;
pub use marks::is_on_cycle;
