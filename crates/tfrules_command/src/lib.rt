//! The program `tfrules` over any devices and files: it reads the words of its command line and the files that they
//! name, and shows the result.
#![tactic(auto)]

pub mod file_names;
pub mod gather;
pub mod laws;
pub mod module_files;
pub mod options;
pub mod report;
pub mod run;
pub mod shown_names;
pub mod stop;
pub mod usage;

pub use tf_rules::Hashing;
