//! How far a session has come.

/// How far a session has come.
#[derive(Clone, Copy)]
pub enum Phase {
    /// The editor has not begun.
    Fresh,
    Open,
    ShutDown,
}
