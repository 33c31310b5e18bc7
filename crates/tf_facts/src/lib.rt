//! The facts of one file of a Terraform module, by the numbers of its tokens.
//!
//! [`facts_of`] finds a file's declarations, the comments that rules need and two patterns of tokens, and
//! [`add_references_of`] collects its references.
//! The module [`laws`] has the laws about the definitions alone.
#![tactic(auto)]

mod block;
mod comment;
mod cut;
mod declaration;
mod declaration_kind;
mod file_facts;
mod found;
mod hashing;
pub mod laws;
mod module_source;
mod names;
mod owners;
mod pattern;
mod plain_text;
mod reference;
mod references;
mod role;
mod seen;
mod silencing;
mod source;
mod text_set;
mod texts;
mod value;
mod variable_block;

pub use block::{is_inside, word_at};
pub use comment::is_any;
pub use declaration_kind::DeclarationKind;
pub use file_facts::{FileFacts, facts_of};
pub use found::{Declared, FoundComment, FoundSource};
pub use hashing::Hashing;
pub use module_source::ModuleSource;
pub use names::Names;
pub use owners::add_references_of;
pub use reference::{is_ident, name_after};
pub use seen::{SeenToken, is_after_dot};
pub use silencing::{comment_words, silencing_list, trim_blanks};
pub use text_set::TextSet;
