//! The program `tffmt` over any devices: it reads the words of its command line and its input file, and shows the
//! result.
#![tactic(auto)]

pub mod laws;
pub mod options;
pub mod run;
