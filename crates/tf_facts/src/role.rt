//! The parts of tokens in the walk that finds patterns.

/// What the walk does at a token. At a plain token it does nothing, but a pattern may need the token ahead.
#[derive(Clone, Copy)]
pub enum Role {
    PassedOver,
    LineComment,
    Dot,
    QuoteOpen,
    Opens,
    Closes,
    Plain,
}
