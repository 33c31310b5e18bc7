//! Folders and files by name, on any device, and the files that names stand for.
#![tactic(auto)]

pub mod choice;
pub mod fault;
pub mod kind;
pub mod mode;
pub mod names;
pub mod once;
pub mod path;
pub mod quote;
pub mod tree;
pub mod walk;
