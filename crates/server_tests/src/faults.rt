//! The faults of texts, and what is marked for them.

use crate::checks::{holds, range_of, with_copies};
use hcl_source::MAX_SOURCE;
use module_check::fault_of;
use std::alloc::Global;
use std::process::Abort;
use text_places::Units;

/// A text, the message of its fault, and the range that is marked in bytes and in UTF-16: its first line and character,
/// and its last.
type Row = (&'static str, &'static str, [usize; 4], [usize; 4]);

static ROWS: [Row; 12] = [
    ("a = ]\n", "unexpected token", [0, 4, 0, 5], [0, 4, 0, 5]),
    (
        "a = 1\nb = ]",
        "unexpected token",
        [1, 4, 1, 5],
        [1, 4, 1, 5],
    ),
    // at the end of a line, and of the text
    ("b\n", "unexpected token", [0, 1, 0, 1], [0, 1, 0, 1]),
    ("a = 1\nb {\n", "unexpected end", [2, 0, 2, 0], [2, 0, 2, 0]),
    ("b {", "unexpected end", [0, 3, 0, 3], [0, 3, 0, 3]),
    // characters of two units, and of several that are one cluster
    (
        "a = 1\nx = \"\u{1f600}\" ]\n",
        "unexpected token",
        [1, 11, 1, 12],
        [1, 9, 1, 10],
    ),
    (
        "a = 1 e\u{301}b\n",
        "unexpected token",
        [0, 6, 0, 9],
        [0, 6, 0, 8],
    ),
    // a lone CR ends a line for the editor, and none for the fault
    (
        "# x\ry\na = ]\n",
        "unexpected token",
        [2, 4, 2, 5],
        [2, 4, 2, 5],
    ),
    // the CR of a line's end is a cluster of its line
    (
        "b\r\na = 1\n",
        "unexpected token",
        [0, 1, 1, 0],
        [0, 1, 1, 0],
    ),
    (
        "a = \"x\n",
        "unterminated quote",
        [0, 4, 0, 5],
        [0, 4, 0, 5],
    ),
    ("\u{feff}a = 1\n", "byte order mark", [0; 4], [0; 4]),
    (
        "a = 1 \0\n",
        "invalid character",
        [0, 6, 0, 7],
        [0, 6, 0, 7],
    ),
];

/// Checks the fault of a text.
fn finds(
    rt: &impl Abort,
    alloc: Global,
    units: Units,
    text: &str,
    (message, places): (&str, [usize; 4]),
) {
    let is_so = match fault_of(alloc, units, text) {
        Ok(Some(fault)) => fault.kind.text() == message && fault.range == range_of(places),
        Ok(None) => message.is_empty(),
        Err(_) => false,
    };
    holds(rt, is_so, text.as_bytes());
}

#[test]
fn faults_of_texts(rt: HostRuntime) {
    for (text, message, bytes, utf16) in ROWS {
        finds(&rt, rt.alloc(), Units::Bytes, text, (message, bytes));
        finds(&rt, rt.alloc(), Units::Utf16, text, (message, utf16));
    }
    for text in ["", "\n", "a = 1", "# \r\n", "b \"x\" {\n}\n"] {
        finds(&rt, rt.alloc(), Units::Utf16, text, ("", [0; 4]));
    }
}

/// Checks the fault of a text that is made of parts.
fn finds_in_copies(
    rt: &impl Abort,
    alloc: Global,
    first: &[u8],
    part: (&[u8], u32),
    wanted: (&[u8], &str, [usize; 4]),
) {
    let text = with_copies(rt, alloc, first, part, wanted.0);
    match str::from_utf8(&text) {
        Ok(text) => finds(rt, alloc, Units::Utf16, text, (wanted.1, wanted.2)),
        Err(_) => holds(rt, false, wanted.0),
    }
}

#[test]
fn faults_of_large_texts(rt: HostRuntime) {
    let alloc = rt.alloc();
    let at_the_end = (
        b"a = ]".as_slice(),
        "unexpected token",
        [200_000, 4, 200_000, 5],
    );
    finds_in_copies(&rt, alloc, b"", (b"a = 1\n", 200_000), at_the_end);
    let in_a_line = (
        b" ]".as_slice(),
        "unexpected token",
        [0, 400_005, 0, 400_006],
    );
    finds_in_copies(&rt, alloc, b"a=1 ", (b"    ", 100_000), in_a_line);
    let large = (b"".as_slice(), "source too large", [0; 4]);
    finds_in_copies(
        &rt,
        alloc,
        b"",
        (b"a = 1\n", MAX_SOURCE as u32 / 6 + 1),
        large,
    );
}
