//! Formats the found files, one after another, or reports which of them aren't formatted.
#![tactic(auto)]

pub mod laws;
pub mod mode;
pub mod outcome;
pub mod progress;
pub mod report;
pub mod run;
pub mod tally;
pub mod visit;
