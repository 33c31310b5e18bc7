//! Lints the modules of a tree one after another, each by itself.
//!
//! [`add_comment_faults`] finds the comments of files that are meant to silence a rule and don't: those with a name that
//! isn't a rule's, and TFLint's for whole files, which has no effect here.
#![tactic(auto)]

mod comment_fault;
mod comment_text;
mod comments;
pub mod counts;
mod gather;
mod issue_remarks;
mod linted;
mod module_lines;
pub mod module_tree;
mod report;
pub mod run;
mod shown;
mod stop;
mod terminal;
pub mod written;

pub use comment_fault::CommentFault;
pub use comments::add_comment_faults;
