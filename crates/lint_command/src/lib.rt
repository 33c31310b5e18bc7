//! The program `tfrules-all` over any tree of files and any devices: it finds the modules that its words name, lints
//! each by itself, and reports.
#![tactic(auto)]

mod collect;
mod explain;
mod linter_words;
mod options;
pub mod run;
mod usage;
mod words;
mod wrong_value;
