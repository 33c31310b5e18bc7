//! The text of a message, by its parts.

/// The parts of a message, one after another; those that a message lacks are empty. Each is stored elsewhere, so writing a
/// message assembles no text.
#[derive(Clone, Copy)]
pub struct MessageParts<'f> {
    pub front: &'f str,
    /// A name, after the text before it.
    pub name: &'f str,
    pub between: &'f str,
    /// A second name, after the text between both.
    pub other: &'f str,
    pub rest: &'f str,
}
