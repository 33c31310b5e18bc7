//! The diff of two texts with the same number of lines.
#![tactic(auto)]

pub mod diff;
mod lines;
