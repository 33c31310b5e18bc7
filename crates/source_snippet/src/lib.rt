//! The line of a text that a message is about, with a mark below the place, for readers on a terminal.
#![tactic(auto)]

mod line;
mod lines;
mod visible;

pub use lines::{Lines, snippet_of};
pub use visible::{Snippet, first_clusters};
