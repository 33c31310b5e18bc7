//! Judges and lints the files of a module for an editor, and marks the fault of a text. A refused file doesn't end the
//! run: the others are linted all the same.
//!
//! The module [`laws`] has a law of the definitions alone.
#![tactic(auto)]

mod check;
mod columns;
mod fault;
mod gather;
mod judge;
pub mod laws;
mod mark;
mod state;
mod told;

pub use check::{Checked, check_module};
pub use fault::{MarkedFault, fault_of};
pub use mark::Marker;
pub use state::FileState;
