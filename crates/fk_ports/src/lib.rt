//! The outside of the compiler and its machine: stores of files, sources of bytes
//! and sinks of bytes.
#![tactic(auto)]

mod faults;
mod host;
mod mem_sink;
mod mem_source;
mod mem_store;
mod schedule;
mod sink;
mod source;
mod store;
mod sure;
mod unread;

pub use faults::{Failed, StoreFault};
pub use host::{HostSink, HostSource, HostStore};
pub use mem_sink::MemSink;
pub use mem_source::MemSource;
pub use mem_store::MemStore;
pub use sink::{Sink, give_all, give_pieces};
pub use source::{Source, take_all};
pub use store::Store;
pub use sure::{SureSink, SureSource, SureStore};
