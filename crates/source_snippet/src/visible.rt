//! A line as a terminal shows it, and a mark below a column of it.

ghost use Rattle.std.specs.Prelude.{◌≡◌, ◌≤◌, ◌+◌, ◌++◌, drop, length, replicate, true};
ghost use Rattle.std.specs.List.{concat};
ghost use Rattle.unicode_segmentation.specs.Grapheme.{graphemes};
ghost use Rattle.source_snippet.specs.Snippets.{before_column as before_column_of, first_clusters as first_clusters_of, is_hidden as is_hidden_of, shown_char, with_caret as with_caret_of, visible_part as visible_of};

use crate::line::MOST_BYTES;
use arrayvec::{ArrayString, ArrayVec};
use unicode_segmentation::UnicodeSegmentation;
use unicode_width::UnicodeWidthStr;

/// The most bytes of a line with a caret below it: both begin with two blanks and end with LF, and the blanks before
/// the caret are at most two for each byte of the line.
const MOST_SHOWN: usize = 3 * MOST_BYTES + 7;

/// A line with a caret below it, or nothing if no line is shown.
pub type Snippet = ArrayVec<u8, MOST_SHOWN>;

/// Whether a terminal may treat it as more than a character.
fn is_hidden(c: char) -> bool
    ensures { result ≡ is_hidden_of c }
{
    c < ' '
        || ('\u{7f}' <= c && c <= '\u{9f}')
        || ('\u{2028}' <= c && c <= '\u{202e}')
        || ('\u{2066}' <= c && c <= '\u{2069}')
}

/// The character that is shown for this one.
fn visible_char(c: char) -> char
    ensures { result ≡ shown_char c }
{
    if is_hidden(c) { ' ' } else { c }
}

/// A part of a line as it is shown. No character takes more bytes than the one that it replaces.
fn visible_part(part: &str) -> ArrayString<MOST_BYTES>
    requires { length part.now ≤ MOST_BYTES }
    ensures { result.bytes ≡ visible_of part.now }
{
    let mut text = ArrayString::new();
    for c in part.chars() {
        text.push(visible_char(c));
    }
    text
}

/// The part of a line after a number of clusters.
fn after_clusters(line: &str, count: u32) -> &str
    ensures { result.now ≡ concat (drop count (graphemes true line.now)) }
{
    let mut clusters = line.graphemes(true);
    for _ in 0..count {
        match clusters.next() {
            Some(_) => {}
            None => return "",
        }
    }
    clusters.as_str()
}

/// The first clusters of a line, or all of them if it has no more than this many.
pub fn first_clusters(line: &str, count: u32) -> &str
    ensures front { result.now ≡ first_clusters_of count line.now }
    ensures within { length result.now ≤ length line.now }
{
    let after = after_clusters(line, count);
    &line[..line.len() - after.len()]
}

/// The part of a line before a column.
fn before_column(line: &str, column: u32) -> &str
    ensures before { result.now ≡ before_column_of column line.now }
    ensures within { length result.now ≤ length line.now }
{
    first_clusters(line, column.saturating_sub(1))
}

/// Appends a text for which there is room.
fn push(snippet: &mut Snippet, text: &[u8])
    requires { length snippet.old.items + length text.now ≤ MOST_SHOWN }
    ensures { snippet.new.items ≡ snippet.old.items ++ text.now }
{
    let _ = snippet.try_extend_from_slice(text);
}

/// Appends blanks for which there is room.
fn put_blanks(snippet: &mut Snippet, count: usize)
    requires { length snippet.old.items + count ≤ MOST_SHOWN }
    ensures { snippet.new.items ≡ snippet.old.items ++ replicate count 32 }
{
    for _ in 0..count {
        snippet.push(b' ');
    }
}

/// A line that is neither empty nor too long, with a caret below a column.
pub fn with_caret(line: &str, column: u32) -> Snippet
    requires { length line.now ≤ MOST_BYTES }
    ensures { result.items ≡ with_caret_of column line.now }
{
    let shown = visible_part(line);
    let before = visible_part(before_column(line, column));
    let mut snippet = ArrayVec::new();
    push(&mut snippet, b"  ");
    push(&mut snippet, shown.as_str().as_bytes());
    push(&mut snippet, b"\n  ");
    put_blanks(&mut snippet, before.as_str().width());
    push(&mut snippet, b"^\n");
    snippet
}
