//! Why a text is no list of rules.

/// Why a text is no list of rules.
#[derive(Clone, Copy, PartialEq, Eq)]
pub enum ListFault {
    /// A part of it names no rule.
    UnknownRule,
    /// No rule is left in it.
    NoneLeft,
}
