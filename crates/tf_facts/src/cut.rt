//! A text in two parts.

/// The text before a byte, and the text after it if the byte is there.
#[derive(Clone, Copy)]
pub struct Cut<'a> {
    pub part: &'a [u8],
    pub rest: Option<&'a [u8]>,
}
