//! The session of an editor with the server: what each message makes of it, and what the server says to it.
//!
//! The module [`laws`] has a law of the definitions alone.
#![tactic(auto)]

mod answer;
pub mod laws;
mod names;
mod phase;
mod session;
mod step;
mod told;
mod turn;

pub use phase::Phase;
pub use session::Session;
pub use turn::Turn;
