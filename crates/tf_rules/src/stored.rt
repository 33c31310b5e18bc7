//! The stored facts of a module's files: places, names and flags, and no source.

use arrayvec::ArrayString;
use hcl_tokens::Position;
use rule_set::RuleSet;
use tf_facts::{DeclarationKind, ModuleSource};

/// The place of a token: the number of its file, its own number, and its position.
#[derive(Clone, Copy)]
pub struct TokenPlace {
    pub file: u32,
    pub token: usize,
    pub at: Position,
}

/// A line comment that begins with `//` or silences a rule.
#[derive(Clone, Copy)]
pub struct StoredComment {
    pub at: TokenPlace,
    pub has_slashes: bool,
    pub silences: RuleSet,
}

/// How many bytes a name that is stored in place has at most.
const SHORT: usize = 24;

/// A name. Most names are short and are stored in place, so that they take no memory of their own.
#[derive(Drop)]
pub enum StoredName {
    Short(ArrayString<SHORT>),
    Long(String),
}

/// At most two labels, or more, which declare nothing.
#[derive(Drop)]
pub enum StoredNames {
    None,
    One(StoredName),
    Two(StoredName, StoredName),
    More,
}

/// The source of a module, and the place of its opening quote.
#[derive(Clone, Copy)]
pub struct StoredSource {
    pub source: ModuleSource,
    pub at: TokenPlace,
}

/// A declaration, and the place of the block's kind or of the attribute's name.
#[derive(Drop)]
pub struct StoredDeclaration {
    pub kind: DeclarationKind,
    pub names: StoredNames,
    pub at: TokenPlace,
    pub is_described: bool,
    pub is_typed: bool,
    pub is_versioned: bool,
    pub source: Option<StoredSource>,
}
