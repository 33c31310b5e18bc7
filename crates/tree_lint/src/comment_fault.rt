//! What is wrong with a comment.

use hcl_tokens::Position;

/// A comment that is meant to silence a rule and doesn't.
#[derive(Drop)]
pub struct CommentFault {
    /// The number of its file.
    pub file: u32,
    /// Where the comment begins.
    pub at: Position,
    /// Its message.
    pub text: String,
}
