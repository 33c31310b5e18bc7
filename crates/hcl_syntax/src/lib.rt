//! The second layer of the front end for HCL native syntax: which token lists are files, and what items they hold.
//!
//! [`accepts`] is a recursive descent that allocates nothing. It accepts and refuses, each at its place, as the
//! grammar's table says; further laws of the table are in the module [`laws`].
#![tactic(auto)]

mod accepted;
mod class;
mod cursor;
mod expected;
mod expression;
mod file;
mod outlining;
mod segment_end;
mod segments;
mod short;
mod template;
mod words;

pub use accepted::accepts;
pub use hcl_grammar::{Accepted, Item, Label, Outline, label_text, laws};
pub use outlining::outline;
