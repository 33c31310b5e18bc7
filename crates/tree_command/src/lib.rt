//! The program `tffmt-all` over any tree of files and any devices: it finds the files that its words name, formats them
//! in place or reports which aren't formatted, and shows a message about the whole run.
#![tactic(auto)]

mod formatter_words;
mod options;
pub mod run;
mod selection;
pub mod usage;
