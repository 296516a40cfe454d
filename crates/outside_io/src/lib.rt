//! What lies outside of the program: sources and sinks of bytes, each with a count of its faults, and clocks.
//!
//! A source or a sink may tell its bytes, and then contracts speak of them; those in memory do, and those over the
//! system's streams don't.
#![tactic(auto)]

mod calls;
mod clock;
mod fault;
mod mem_sink;
mod mem_source;
mod real;
mod sink;
mod source;
#[cfg(test)]
mod tests;

pub use calls::Calls;
pub use clock::{Clock, ListClock, RealClock};
pub use fault::{IoFault, NoMemory};
pub use mem_sink::MemSink;
pub use mem_source::MemSource;
pub use real::{RealSink, RealSource};
pub use sink::{Sink, write_all};
pub use source::Source;
