//! Which `.tfrules` governs a module, and the options by which it is then linted. What users write of rules: the lines
//! of a `.tfrules`, what each says and which are wrong, and lists of rules, as in such lines and on the command line.
#![tactic(auto)]

pub mod config_file;
mod config_line;
mod config_lines;
pub mod configure;
mod first;
pub mod governor;
pub mod keep;
mod line_fault;
mod line_parts;
mod list;
mod list_fault;
mod list_part;
mod policy;
mod said;
pub mod start;
mod ups;
pub mod words;

pub use config_lines::{BadLine, Config, config_in};
pub use list::{rules_in, unknown_in};
pub use list_fault::ListFault;
pub use said::{NOTHING, Said};
