//! The names that a file of a Terraform module declares or refers to, and where each occurs.
//!
//! [`occurrences_of`] finds them for variables, local values, data sources and calls of modules.
//! The module [`laws`] has the laws about the definitions alone.
#![tactic(auto)]

mod declaration;
mod label;
pub mod laws;
mod name;
mod occurrence;
mod occurrences;
mod reference;
mod stretch;

pub use name::{Name, is_same, last_part, with_last_part};
pub use occurrence::{Occurrence, OccurrenceKind};
pub use occurrences::occurrences_of;
