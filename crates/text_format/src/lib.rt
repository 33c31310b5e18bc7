//! The format of a text, in memory, and laws of a print that is scanned again, in the module [`laws`].
#![tactic(auto)]

mod format;
pub mod laws;
mod printed;

pub use format::{format_of, print_of};
pub use printed::Printed;
