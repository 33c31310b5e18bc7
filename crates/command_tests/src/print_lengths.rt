//! The lengths of the prints of files, worked out by hand.

use crate::compared::{holds, same_number};
use crate::format_rows::repeat_parts;
use hcl_layout::{fits, printed_len, prints_nothing};
use hcl_scan::{Source, Tokens, scan};
use hcl_syntax::{Accepted, accepts};
use std::alloc::Global;
use std::process::Abort;

// Checks the length of the print of a file.
fn has_length(rt: &impl Abort, accepted: &Accepted<'_, '_>, len: u32, text: &[u8]) {
    let len = u64::from(len);
    same_number(rt, printed_len(accepted), len, text);
    holds(rt, fits(accepted, len), text);
    holds(rt, fits(accepted, len + 1), text);
    holds(rt, fits(accepted, u64::MAX), text);
    let fits_less = fits(accepted, len.saturating_sub(1));
    holds(rt, len == 0 || !fits_less, text);
    holds(rt, prints_nothing(accepted) == (len == 0), text);
}

// Checks that the text is a file, and the length of its print.
fn prints(rt: &impl Abort, alloc: Global, text: &[u8], len: u32) {
    let source = Source::from_bytes(alloc, text).expect(rt, "a source");
    let tokens = scan(alloc, &source).expect(rt, "tokens");
    let accepted = accepts(&tokens).expect(rt, "a file");
    has_length(rt, &accepted, len, text);
}

static LENGTHS: [(&[u8], u32); 7] = [
    (b"", 0),
    (b" \t ", 0),
    (b"\n", 1),
    (b" /**/ ", 4),
    (b"a=1", 5),
    (b"a=[(1),\n# x\n]\n", 18),
    (b"locals {\na=1# one\nlong=\"x\"# two\n}\n", 49),
];

#[test]
fn lengths_of_prints(rt: HostRuntime) {
    for (text, len) in &LENGTHS {
        prints(&rt, rt.alloc(), text, *len);
    }
}

// A file of nearly 4 MiB is scanned and accepted whole.
#[test]
fn lengths_of_large_files(rt: HostRuntime) {
    let text = repeat_parts(&rt, rt.alloc(), &[(b"a = 1\n", 699_050)]);
    prints(&rt, rt.alloc(), &text, 4_194_300);
}

// Each line takes 1,005 bytes in the column of the first, so only measuring shows that the print fits into a source:
// 4,173 lines fit, and one more doesn't.
#[test]
fn lengths_beside_a_long_name(rt: HostRuntime) {
    for (count, len) in [(4172, 4_193_865), (4173, 4_194_870)] {
        let parts = [(b"b".as_slice(), 1000), (b"=1\n", 1), (b"a=1\n", count)];
        let text = repeat_parts(&rt, rt.alloc(), &parts);
        prints(&rt, rt.alloc(), &text, len);
    }
}
