//! What an editor is told of a module: the diagnostics of each of its files.
#![tactic(auto)]

mod diagnostics;
mod find;
mod message;
mod shown;
mod texts;
mod told;

pub use find::module_folder;
pub use message::{ToldMessage, withdrawal};
pub use shown::Shown;
pub use texts::text_messages;
pub use told::module_messages;
