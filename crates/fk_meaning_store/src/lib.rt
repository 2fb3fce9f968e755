//! The state that all processors share: shared data, private heaps, the global heap and the output.
//! It serves the requests of processors.
#![tactic(auto)]

mod addresses;
mod request;
mod serving;
mod store;

pub use request::Request;
pub use serving::serve;
pub use store::Store32;
