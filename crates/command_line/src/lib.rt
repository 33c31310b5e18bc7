//! The code that all programs share for reading their words with `clap` and for ending.
#![tactic(auto)]

mod argument;
mod flag;
pub mod laws;
mod parts;
mod process;
mod program;
mod streams;
mod texts;

pub use argument::{flag_named, option_named, usage_for};
pub use flag::is_flag_set;
pub use parts::write_parts;
pub use process::{NoWords, borrowed_words, process_words};
pub use streams::Streams;
pub use texts::Program;
