//! Fronts, margins and parts of texts.

ghost use Rattle.std.specs.Prelude.{◌≡◌, ◌==◌, drop};
ghost use Rattle.std.specs.List.{slice_split};
ghost use Rattle.std.specs.Str.{bytes_eq};
ghost use Rattle.tf_facts.specs.Texts.{begins};
ghost use Rattle.tf_facts.specs.Inner.Cuts.{parts_of};

use crate::cut::Cut;

/// Whether a text begins with another.
#[inline(always)]
pub fn begins(front: &[u8], text: &[u8]) -> bool
    ensures { result ≡ begins front.now text.now }
{
    text.starts_with(front)
}

/// Whether two texts are the same.
pub fn equals(text: &[u8], other: &[u8]) -> bool
    ensures { result ≡ bytes_eq text.now other.now }
{
    text == other
}

/// The text after this many bytes, or nothing.
pub fn after(text: &[u8], count: usize) -> &[u8]
    ensures { result.now ≡ drop count text.now }
{
    let start = count.min(text.len());
    &text[start..]
}

/// Cuts a text at the first byte of this value.
pub fn cut(text: &[u8], byte: u8) -> Cut<'_>
    ensures { parts_of byte result ≡ slice_split (λ b. b == byte) text.now }
{
    for end in 0..text.len() {
        if text[end] == byte {
            return Cut {
                part: &text[..end],
                rest: Some(&text[end + 1..]),
            };
        }
    }
    Cut {
        part: text,
        rest: None,
    }
}
