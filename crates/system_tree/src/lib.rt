//! The tree of the system: its folders and files, by std.
#![tactic(auto)]

mod beside;
mod folder;
mod in_place;
mod link;
mod new_file;
pub mod patient;
mod shared;
pub mod system;
pub mod words;
