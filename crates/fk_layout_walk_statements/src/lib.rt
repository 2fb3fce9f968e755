//! A walk over the code of statements, functions and texts, in its order.
//!
//! It takes no memory, and time linear in the tree.
#![tactic(auto)]

mod functions;
mod inside;
mod nested;
mod simple;
mod turns;
mod types;

pub use functions::{function, text};
pub use inside::Inside;
pub use nested::{statement, statements};
