//! An issue, as a list of issues gives it.

use crate::message_parts::MessageParts;
use hcl_tokens::Position;
use rule_set::Rule;

/// An issue: the number of its file, the position of its token, the rule that reports it, and the parts of its message.
#[derive(Clone, Copy)]
pub struct ListedIssue<'f> {
    pub file: u32,
    pub at: Position,
    pub rule: Rule,
    pub message: MessageParts<'f>,
}
