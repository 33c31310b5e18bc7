//! What to do with files.

use file_tree::tree::Writing;

/// How printed names end.
#[derive(Clone, Copy)]
pub enum Ending {
    /// Quoted as in messages, each on a line of its own.
    Line,
    /// Unchanged, each ended by NUL.
    Null,
}

/// What to do with files that aren't formatted.
#[derive(Clone, Copy)]
pub enum Mode {
    /// They get their format.
    Write(Writing),
    /// They are reported.
    Check,
    /// Their names are printed.
    List(Ending),
    /// Their changes are shown.
    Diff,
}
