//! A remark on a file.

use crate::subject::Subject;

/// An issue; a comment that is meant to silence a rule and doesn't, which is among the issues; or why a file or a
/// folder is refused.
#[derive(Clone, Copy)]
pub struct Remark<'a> {
    /// The name of the file or the folder.
    pub file: &'a str,
    /// The line, from 1 on. A remark without a place in its file is at 1:1.
    pub line: u32,
    /// The column as messages have it, from 1 on.
    pub column: u32,
    /// Its subject.
    pub subject: Subject,
    /// Its message.
    pub text: &'a str,
}
