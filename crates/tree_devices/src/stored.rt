//! A text under a name.

/// A text under a name: the bytes of a file, or the target of a link.
#[derive(Drop)]
pub struct Stored {
    pub name: Vec<u8>,
    pub bytes: Vec<u8>,
}
