//! The names of a module, as an editor asks for them: what is named at a place of a document, and where the files of its
//! module spell a name.
#![tactic(auto)]

mod file;
mod files;
mod identifier;
mod named;
mod owned_name;
mod query;
mod search;

pub use file::{FileRanges, Spelling};
pub use identifier::is_identifier;
pub use named::{NameAt, name_at};
pub use owned_name::OwnedName;
pub use query::{Query, Wanted};
pub use search::{NameRanges, ranges_in_document, ranges_in_module};
