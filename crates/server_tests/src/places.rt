//! Places in texts, as the protocol counts them.

use crate::checks::holds;
use text_places::{Place, Units, Walk};

/// A text, an offset, the line there, and the characters before it in bytes and in UTF-16.
type Row = (&'static str, usize, usize, usize, usize);

static ROWS: [Row; 18] = [
    ("", 0, 0, 0, 0),
    ("ab", 0, 0, 0, 0),
    ("ab", 2, 0, 2, 2),
    ("ab\n", 2, 0, 2, 2),
    ("ab\n", 3, 1, 0, 0),
    ("\n\nab", 3, 2, 1, 1),
    // CR LF ends one line
    ("a\r\nbc", 1, 0, 1, 1),
    ("a\r\nbc", 3, 1, 0, 0),
    ("a\r\nbc", 5, 1, 2, 2),
    ("\r\n\r\nb", 5, 2, 1, 1),
    // a CR alone ends a line too
    ("a\rbc", 3, 1, 1, 1),
    ("\r\r\na", 4, 2, 1, 1),
    ("\n\ra", 3, 2, 1, 1),
    // characters of two, three and four bytes
    ("\u{e9}x", 2, 0, 2, 1),
    ("\u{4e2d}x", 3, 0, 3, 1),
    ("\u{1f600}x", 4, 0, 4, 2),
    ("a\n\u{e9}\u{1f600}x", 9, 1, 7, 4),
    // an emoji of three characters: one joins the others
    ("\u{1f469}\u{200d}\u{1f4bb}", 11, 0, 11, 5),
];

/// The place of an offset of a small text.
fn place_in(units: Units, text: &[u8], offset: usize) -> Option<Place> {
    if text.len() > 100 || offset > text.len() {
        return None;
    }
    Some(Walk::start().go_on(units, text, offset).place())
}

fn is_at(units: Units, text: &[u8], offset: usize, line: usize, character: usize) -> bool {
    place_in(units, text, offset) == Some(Place { line, character })
}

#[test]
fn places_of_offsets(rt: HostRuntime) {
    for (text, offset, line, bytes, utf16) in ROWS {
        let text = text.as_bytes();
        let is_so = is_at(Units::Bytes, text, offset, line, bytes)
            && is_at(Units::Utf16, text, offset, line, utf16);
        holds(&rt, is_so, text);
    }
}
