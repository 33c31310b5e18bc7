//! Issues before they are shown, with the places of their tokens.

use crate::naming::Naming;
use crate::stored::{StoredDeclaration, TokenPlace};
use rule_set::Rule;

/// A rule's message about a token, in parts: the text of an issue that isn't shown is never built.
#[derive(Clone, Copy)]
pub enum Statement<'f> {
    /// A text of the rule's own.
    Fixed(&'static str),
    /// `KIND "NAME` of a declaration, and the text from the closing quote on.
    About(&'f StoredDeclaration, &'static str),
    /// The source of the module uses this default branch.
    DefaultBranch(&'f StoredDeclaration, &'static str),
    /// The name must have this naming.
    Misnamed(&'f StoredDeclaration, Naming),
    /// Nothing refers to the declaration.
    Unused(&'f StoredDeclaration),
}

/// The finding of a rule about a token.
#[derive(Clone, Copy)]
pub struct Finding<'f> {
    pub at: TokenPlace,
    pub statement: Statement<'f>,
}

/// An issue, with the number of its token.
#[derive(Clone, Copy)]
pub struct IssueEntry<'f> {
    pub at: TokenPlace,
    pub rule: Rule,
    pub statement: Statement<'f>,
}
