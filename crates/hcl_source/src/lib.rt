//! The text of a file in HCL native syntax, and the places in it.
//!
//! Bytes from a [`ByteSource`] become a [`Source`], and [`write_fully`] writes output to a [`ByteSink`]. The kinds of
//! [`Fault`] are those of all layers above, so that each has its words in one place. The module [`laws`] has laws of
//! the definitions alone.
#![tactic(auto)]

mod columns;
mod device;
mod fault;
pub mod laws;
mod lines;
mod memory;
mod source;

pub use columns::{clusters, is_simple};
pub use device::{
    ByteSink, ByteSource, Failed, Flushes, FromRead, ToWrite, WriteFault, write_fully,
};
pub use fault::{Fault, FaultKind, LoadError, Position};
pub use lines::line_ends;
pub use memory::{MemorySink, MemorySource, SINK_ROOM};
pub use source::{MAX_SOURCE, Source};
