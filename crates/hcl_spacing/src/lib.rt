//! The blanks between two neighbours on a line: one or none, by a table.
//!
//! [`space_between`] looks at the two tokens and the one before them; [`space_by_kinds`] answers if the two kinds
//! decide, as they nearly always do. The module [`laws`] has the requirements of a scan of the print on the table.
#![tactic(auto)]

mod kind;
pub mod laws;
mod rows;
mod spacing;

pub use spacing::{space_between, space_by_kinds};
