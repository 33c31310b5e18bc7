//! A tree with the texts of open documents over its files, and URIs of files: the path of a URI, and the URI of a path.
//!
//! The module [`laws`] has a law of the definitions alone.
#![tactic(auto)]

mod disk;
mod document;
mod documents;
pub mod laws;
mod reader;
mod tree;
mod uri;

pub use disk::Disk;
pub use documents::Documents;
pub use reader::OpenReader;
pub use tree::OpenFiles;
pub use uri::{path_of, uri_of};
