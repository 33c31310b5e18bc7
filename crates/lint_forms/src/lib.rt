//! The forms in which forges and editors read the remarks on modules: their issues, comments that are meant to silence
//! a rule and don't, and why files are refused. JSON, written part by part.
//!
//! The module [`laws`] has laws of the definitions alone.
#![tactic(auto)]

mod entry;
pub mod form;
mod gitlab;
mod json_part;
mod json_parts;
mod kind;
pub mod laws;
mod lines;
mod places;
mod remark;
pub mod rule_texts;
mod sarif;
mod shape;
mod subject;
mod tflint;
mod tflint_frame;
mod values;
mod words;
mod xml;

pub use json_part::JsonPart;
pub use json_parts::write_parts;
pub use kind::Form;
pub use remark::Remark;
pub use subject::Subject;
