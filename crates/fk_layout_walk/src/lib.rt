//! A walk over the code of an expression, in its order.
//!
//! A visitor is shown each operation with its place, and the structure of choices, loops and calls
//! around it. No code is made, and no memory is taken.
#![tactic(auto)]

mod builtin;
mod calls;
mod expressions;
mod known;
mod location;
mod locations;
mod tally;
mod texts;
mod tokens;
mod types;
mod visitor;

pub use calls::frame;
pub use expressions::{expression, value};
pub use known::{Framed, ProgramTables};
pub use location::ResultLocation;
pub use locations::{agree, discard, end, give_address, name, put};
pub use tally::Tally;
pub use tokens::token_of;
pub use types::is_nothing;
pub use visitor::{Event, Mark, NOWHERE, Visitor, Ways, choose, ends, perform, plain};
