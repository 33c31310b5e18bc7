//! Places in a text as the Language Server Protocol counts them, and the edits that make one text another.
#![tactic(auto)]

mod edits;
pub mod laws;
mod offset;
mod place;
mod place_index;
mod ranges;

pub use edits::{TextEdit, edits_between};
pub use offset::offset_at;
pub use place::{Place, Units, Walk};
pub use place_index::PlaceIndex;
pub use ranges::{Range, place_edit};
