//! The subjects of the second layer of the front end for HCL native syntax: which token lists are files, the items of a
//! file, and the types for both.
//!
//! The grammar and the outline are in the definitions. This crate has the types for them, a file's tokens as
//! [`Accepted`] and its items as [`Outline`], so that code that reads items needs no parser. `hcl_syntax` finds both,
//! and re-exports what callers need.
#![tactic(auto)]

mod accepted;
mod class;
mod entry;
mod expected;
mod item;
mod item_list;
mod label;
pub mod laws;
mod refusal;

pub use accepted::Accepted;
pub use class::{Class, Lookahead, Word};
pub use expected::{Newlines, Section, Terminal};
pub use item::{Item, Label};
pub use item_list::Outline;
pub use label::label_text;
pub use refusal::Refusal;
