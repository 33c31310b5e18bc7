//! The number of columns of a text.

ghost use Rattle.std.specs.Prelude.{◌≡◌, ◌≤◌, true, length};
ghost use Rattle.unicode_segmentation.specs.Grapheme.{graphemes};
ghost use Rattle.hcl_source.specs.Simple.{is_simple as is_simple_of};

use unicode_segmentation::UnicodeSegmentation;

/// Whether the bytes are ASCII without CR, so that each is a grapheme cluster. The loop reads all of them, whatever the
/// first ones are, so that it can be vectorised.
pub fn is_simple(bytes: &[u8]) -> bool
    ensures { result ≡ is_simple_of bytes.now }
{
    let mut simple = true;
    for byte in bytes {
        simple = simple & (*byte < 128) & (*byte != b'\r');
    }
    simple
}

/// How many extended grapheme clusters a text has. Few texts need the tables.
pub fn clusters(text: &str) -> usize
    ensures count { result ≡ length (graphemes true text.now) }
    ensures within { result ≤ length text.now }
{
    if is_simple(text.as_bytes()) {
        return text.len();
    }
    text.graphemes(true).count()
}
