//! The messages of an editor and the replies to them, in JSON (Language Server Protocol 3.17).
#![tactic(auto)]

mod diagnostic;
mod error;
mod fold;
mod location;
mod message;
mod range;
mod read;
mod rename;
mod reply;
mod symbol;

pub use diagnostic::{Diagnostic, diagnostics_message};
pub use error::ReplyError;
pub use fold::folds_reply;
pub use location::locations_reply;
pub use message::{Abilities, DocumentPlace, Id, Message, Notification, Request};
pub use range::DocumentRanges;
pub use read::message_of;
pub use rename::{prepared_reply, rename_reply};
pub use reply::{capabilities_reply, edits_reply, error_reply, null_reply};
pub use symbol::symbols_reply;
