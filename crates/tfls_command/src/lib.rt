//! The program `tfls` over any devices: it reads the words of its command line, and answers an editor.
//!
//! Messages are on a stream as the Language Server Protocol frames them: a head of fields, an empty line, and a body of
//! as many bytes as one of the fields tells. [`receive`] takes the next message from a source of bytes, over an [`Inbox`]
//! of those that were read and not yet taken. [`write_frame`] writes a message to a sink. The module [`laws`] has laws of
//! the definitions of messages alone.
#![tactic(auto)]

pub mod ending;
mod front;
mod head;
pub mod host;
mod inbox;
mod incoming;
pub mod laws;
mod length;
pub mod options;
mod outgoing;
pub mod run;
pub mod serve;

pub use head::MAX_HEAD;
pub use inbox::Inbox;
pub use incoming::{Received, receive};
pub use length::MAX_BODY;
pub use outgoing::write_frame;
