//! The comparisons of the tests, with one assertion each, so that it is proved once. A failure shows the input of the run,
//! or the text of a file.

use std::alloc::Global;
use std::process::Abort;

/// The files of a module: their names and their bytes.
pub type Files<'a> = &'a [(&'a str, &'a [u8])];

/// The result of a run: its output, its message and its status.
pub type Shown<'a> = (&'a [u8], &'a [u8], u8);

/// Checks a property of the text.
pub fn holds(rt: &impl Abort, is_so: bool, text: &[u8]) {
    assert!(rt; is_so, "at {text:?}");
}

/// Checks a number for the text.
pub fn same_number(rt: &impl Abort, found: u64, wanted: u64, text: &[u8]) {
    assert_eq!(rt; found, wanted, "at {text:?}");
}

/// Checks bytes for the text.
pub fn same_bytes(rt: &impl Abort, found: &[u8], wanted: &[u8], text: &[u8]) {
    assert_eq!(rt; found, wanted, "at {text:?}");
}

/// Checks the result of a run over the text.
pub fn same_shown(rt: &impl Abort, found: Shown<'_>, wanted: Shown<'_>, text: &[u8]) {
    same_bytes(rt, found.0, wanted.0, text);
    same_bytes(rt, found.1, wanted.1, text);
    same_number(rt, u64::from(found.2), u64::from(wanted.2), text);
}

/// The bytes of this many good calls, with at most this many each.
pub fn front(text: &[u8], calls: usize, most: usize) -> &[u8] {
    text.split_at(calls.saturating_mul(most).min(text.len())).0
}

/// The text of the first file, or no text if there is no file.
pub fn first_text<'a>(files: Files<'a>) -> &'a [u8] {
    match files.first() {
        Some((_, text)) => text,
        None => b"",
    }
}

/// The parts in turn.
pub fn join(rt: &impl Abort, alloc: Global, parts: &[&str]) -> Vec<u8> {
    let mut bytes = Vec::new(alloc);
    for part in parts {
        bytes
            .extend_from_slice(part.as_bytes())
            .expect(rt, "memory");
    }
    bytes
}
