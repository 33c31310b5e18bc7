//! The tokens of a file in HCL native syntax: their kinds, the lists of them that a text has, and how they are stored.
//!
//! The definitions say which answers a scan may give. This crate has the types of these answers, and [`Tokens`], the
//! tokens of a source, so that code that reads tokens needs no scanner. `hcl_scan` finds the tokens. All of
//! `hcl_source` is re-exported.
#![tactic(auto)]

mod entries;
mod token;
mod tokens;

pub use entries::Entries;
pub use hcl_source::{
    ByteSink, ByteSource, Failed, Fault, FaultKind, Flushes, FromRead, LoadError, MAX_SOURCE,
    MemorySink, MemorySource, Position, SINK_ROOM, Source, ToWrite, WriteFault, write_fully,
};
pub use token::{Kind, Nesting, ScanError, Token, TokenEntry};
pub use tokens::{MAX_OPEN, Tokens};
