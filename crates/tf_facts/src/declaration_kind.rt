//! The kinds of declarations.

/// The kind of a top-level block's declaration, or of an attribute in a `locals` block.
#[derive(Clone, Copy, PartialEq, Eq)]
pub enum DeclarationKind {
    Variable,
    Output,
    Module,
    Resource,
    Data,
    Local,
}
