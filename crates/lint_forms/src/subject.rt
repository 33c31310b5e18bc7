//! The subjects of remarks.

use rule_set::Rule;

/// The subject of a remark.
#[derive(Clone, Copy)]
pub enum Subject {
    /// An issue, by the rule that reports it.
    Rule(Rule),
    /// A comment that names no rule, or that has no effect here.
    Comment,
    /// A file or a folder that isn't linted.
    Refusal,
}
