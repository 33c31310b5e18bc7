//! The tokens of a file in HCL native syntax.
//!
//! Data flows one way: bytes from a [`ByteSource`] become a [`Source`], and [`scan`] makes its [`Tokens`]. It
//! re-exports all of `hcl_source`, and the items of `hcl_tokens` that callers need, so that code that scans a text
//! names only this crate. The module [`laws`] has laws of the definitions alone.
#![tactic(auto)]

mod comment;
mod expression;
mod found;
mod front;
mod heredoc;
mod ident;
mod lanes;
pub mod laws;
mod literal;
mod number;
mod scanner;
mod stack;
mod template;
mod text;
mod tokens;

pub use hcl_tokens::{
    ByteSink, ByteSource, Failed, Fault, FaultKind, Flushes, FromRead, Kind, LoadError, MAX_OPEN,
    MAX_SOURCE, MemorySink, MemorySource, Position, SINK_ROOM, ScanError, Source, ToWrite, Token,
    Tokens, WriteFault, write_fully,
};
pub use tokens::scan;
