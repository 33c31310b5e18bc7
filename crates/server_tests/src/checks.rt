//! The comparisons of the tests, with one assertion each, so that it is proved once.

use std::alloc::Global;
use std::process::Abort;
use text_places::{Place, Range};

/// A range by its first line and character, and its last.
pub fn range_of(places: [usize; 4]) -> Range {
    Range {
        start: Place {
            line: places[0],
            character: places[1],
        },
        end: Place {
            line: places[2],
            character: places[3],
        },
    }
}

/// Checks a property of a text.
pub fn holds(rt: &impl Abort, is_so: bool, text: &[u8]) {
    assert!(rt; is_so, "at {text:?}");
}

/// Checks what was found for a text.
pub fn same_bytes(rt: &impl Abort, found: &[u8], wanted: &[u8], text: &[u8]) {
    assert!(rt;
        found == wanted,
        "{found:?} in place of {wanted:?} at {text:?}"
    );
}

/// Appends this many copies of a part.
pub fn push_copies(rt: &impl Abort, bytes: &mut Vec<u8>, part: &[u8], copies: u32) {
    for _ in 0..copies {
        bytes.extend_from_slice(part).expect(rt, "memory");
    }
}

/// A part, copies of another, and a last part.
pub fn with_copies(
    rt: &impl Abort,
    alloc: Global,
    first: &[u8],
    (part, copies): (&[u8], u32),
    last: &[u8],
) -> Vec<u8> {
    let mut bytes = Vec::new(alloc);
    push_copies(rt, &mut bytes, first, 1);
    push_copies(rt, &mut bytes, part, copies);
    push_copies(rt, &mut bytes, last, 1);
    bytes
}
