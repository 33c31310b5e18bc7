//! What a step leads to.

use editor_modules::ToldMessage;

/// What a step leads to.
#[derive(Drop)]
pub enum Turn {
    /// Nothing is said.
    Quiet,
    /// A reply with this body is said.
    Say(Vec<u8>),
    /// These messages are said in turn: the diagnostics of documents.
    Publish(Vec<ToldMessage>),
    /// The run ends with this status.
    End(u8),
}
