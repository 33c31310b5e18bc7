//! The facts that are found in a file, by the numbers of its tokens.

use crate::declaration_kind::DeclarationKind;
use crate::module_source::ModuleSource;
use crate::names::Names;
use rule_set::RuleSet;

/// What a block with a word as its kind declares, and how many labels it must have.
#[derive(Clone, Copy)]
pub struct Declarer {
    pub kind: DeclarationKind,
    pub labels: usize,
}

/// The source of a module, and the number of its opening quote.
#[derive(Clone, Copy)]
pub struct FoundSource {
    pub source: ModuleSource,
    pub at: usize,
}

/// A declaration, and the number of the block's kind or of the attribute's name.
#[derive(Clone, Copy)]
pub struct Declared<'s> {
    pub kind: DeclarationKind,
    pub names: Names<'s>,
    pub at: usize,
    pub is_described: bool,
    pub is_typed: bool,
    pub is_versioned: bool,
    pub source: Option<FoundSource>,
}

/// A line comment that begins with `//` or silences a rule.
#[derive(Clone, Copy)]
pub struct FoundComment {
    pub at: usize,
    pub has_slashes: bool,
    pub silences: RuleSet,
}
