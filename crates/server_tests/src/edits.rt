//! The edits that make one text another.

use crate::checks::{holds, range_of, with_copies};
use text_places::{Range, TextEdit, Units, Walk, edits_between, place_edit};

/// An edit by its offsets and its text.
type Edit = (usize, usize, &'static str);

/// An old text, a new one, and the edits between them.
type Row = (&'static str, &'static str, &'static [Edit]);

static ROWS: [Row; 17] = [
    ("", "", &[]),
    ("a\nb\n", "a\nb\n", &[]),
    ("", "a\n", &[(0, 0, "a\n")]),
    ("a\n", "", &[(0, 2, "")]),
    ("a=1\n", "a = 1\n", &[(0, 4, "a = 1\n")]),
    // no last newline
    ("a=1", "a = 1", &[(0, 3, "a = 1")]),
    ("a", "a\n", &[(0, 1, "a\n")]),
    ("b\na", "b\na\n", &[(2, 3, "a\n")]),
    // lines added and removed
    ("a\nb\n", "a\nx\nb\n", &[(2, 4, "x\nb\n")]),
    ("a\nx\nb\n", "a\nb\n", &[(2, 6, "b\n")]),
    ("a\n", "a\nb\nc\n", &[(2, 2, "b\nc\n")]),
    ("a\nb\nc\n", "a\n", &[(2, 6, "")]),
    // each run of lines that differ is an edit
    (
        "a\nb\nc\nd\n",
        "A\nB\nc\nD\n",
        &[(0, 4, "A\nB\n"), (6, 8, "D\n")],
    ),
    // only an LF ends a line
    ("a\r\nb\r\n", "a\nb\r\n", &[(0, 3, "a\n")]),
    ("a\rb\n", "a\rc\n", &[(0, 4, "a\rc\n")]),
    ("a\r\nb", "a\r\nc", &[(3, 4, "c")]),
    (
        "x\n\u{1f600}y\nz",
        "x\n\u{1f600} y\nz",
        &[(2, 8, "\u{1f600} y\n")],
    ),
];

fn is_edit(found: &TextEdit<'_>, wanted: Edit) -> bool {
    found.from == wanted.0 && found.to == wanted.1 && found.text == wanted.2
}

fn are_edits(found: &[TextEdit<'_>], wanted: &[Edit]) -> bool {
    for number in 0..wanted.len() {
        if number >= found.len() || !is_edit(&found[number], wanted[number]) {
            return false;
        }
    }
    found.len() == wanted.len()
}

#[test]
fn edits_of_texts(rt: HostRuntime) {
    for (old, new, wanted) in ROWS {
        let is_so = match edits_between(rt.alloc(), old.as_bytes(), new) {
            Ok(edits) => are_edits(edits.as_slice(), wanted),
            Err(_) => false,
        };
        holds(&rt, is_so, old.as_bytes());
    }
}

/// How many edits there are between two texts.
fn count_edits(rt: &HostRuntime, old: &[u8], new: &[u8]) -> Option<usize> {
    let Ok(new) = str::from_utf8(new) else {
        return None;
    };
    match edits_between(rt.alloc(), old, new) {
        Ok(edits) => Some(edits.len()),
        Err(_) => None,
    }
}

#[test]
fn edits_of_many_lines(rt: HostRuntime) {
    let alloc = rt.alloc();
    let old = with_copies(&rt, alloc, b"a", (b"b\nc\n", 50_000), b"d");
    let new = with_copies(&rt, alloc, b"a", (b"b\nC\n", 50_000), b"d");
    let is_so = count_edits(&rt, &old, &new) == Some(50_000);
    holds(&rt, is_so, b"many lines");
}

/// A text, the offsets of an edit, and its range in bytes and in UTF-16: its first line and character, and its last.
type Placed = (&'static str, usize, usize, [usize; 4], [usize; 4]);

static PLACED: [Placed; 6] = [
    ("", 0, 0, [0, 0, 0, 0], [0, 0, 0, 0]),
    ("a\nb\n", 2, 4, [1, 0, 2, 0], [1, 0, 2, 0]),
    ("a\nb", 2, 3, [1, 0, 1, 1], [1, 0, 1, 1]),
    ("\r\na\r\n", 2, 5, [1, 0, 2, 0], [1, 0, 2, 0]),
    ("a\rb=1", 0, 5, [0, 0, 1, 3], [0, 0, 1, 3]),
    ("x\n\u{1f600}y", 2, 7, [1, 0, 1, 5], [1, 0, 1, 3]),
];

/// The range of an edit of a small text.
fn range_in(units: Units, text: &[u8], from: usize, to: usize) -> Option<Range> {
    if text.len() > 100 || to > text.len() || from > to {
        return None;
    }
    let edit = TextEdit { from, to, text: "" };
    Some(place_edit(Walk::start(), units, text, &edit).1)
}

fn is_range(found: Option<Range>, wanted: [usize; 4]) -> bool {
    found == Some(range_of(wanted))
}

#[test]
fn ranges_of_edits(rt: HostRuntime) {
    for (text, from, to, bytes, utf16) in PLACED {
        let text = text.as_bytes();
        let is_so = is_range(range_in(Units::Bytes, text, from, to), bytes)
            && is_range(range_in(Units::Utf16, text, from, to), utf16);
        holds(&rt, is_so, text);
    }
}
