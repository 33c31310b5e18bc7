//! Whole runs over memory, with ample memory, on inputs whose answers were worked out by hand.

use crate::compared::{Shown, same_shown};
use crate::devices::{Reader, Writer};
use hcl_scan::{FromRead, ToWrite};
use std::alloc::Global;
use std::process::Abort;
use tffmt_command::options::{FmtOptions, Usage, options};
use tffmt_command::run::program;

/// Runs the program, and returns its status.
pub fn run(
    alloc: Global,
    words: &[&str],
    reader: &mut Reader<'_>,
    written: &mut Writer,
    told: &mut Writer,
) -> u8 {
    let mut from = FromRead::new(reader);
    let mut out = ToWrite::new(written);
    let mut err = ToWrite::new(told);
    program(alloc, words, &mut from, &mut out, &mut err)
}

/// Runs the program, and compares its output and its status.
pub fn check(rt: &impl Abort, alloc: Global, words: &[&str], input: &[u8], wanted: Shown<'_>) {
    let mut reader = Reader::new(input, 0);
    let mut written = Writer::new(alloc, 0, 0);
    let mut told = Writer::new(alloc, 0, 0);
    let status = run(alloc, words, &mut reader, &mut written, &mut told);
    let shown = (written.taken.as_slice(), told.taken.as_slice(), status);
    same_shown(rt, shown, wanted, input);
}

static USAGES: [(&[&str], Shown<'static>); 2] = [
    (
        &["tffmt", "--help"],
        (b"usage: tffmt [--check] [--help]\n", b"", 0),
    ),
    (
        &["tffmt", "--bogus"],
        (b"", b"usage: tffmt [--check] [--help]\n", 2),
    ),
];

#[test]
fn shows_usage(rt: HostRuntime) {
    for (words, wanted) in &USAGES {
        check(&rt, rt.alloc(), words, b"", *wanted);
    }
}

static LINES: [(&[&str], Result<FmtOptions, Usage>); 7] = [
    (
        &[
            "tffmt", "--check", "a", "b", "c", "d", "e", "f", "g", "h", "i", "--help",
        ],
        Err(Usage::BadLine),
    ),
    (
        &[
            "tffmt", "--help", "--check", "a", "b", "c", "d", "e", "f", "g", "h", "i",
        ],
        Err(Usage::Help),
    ),
    (&["tffmt"], Ok(FmtOptions { check: false })),
    (&["tffmt", "--check"], Ok(FmtOptions { check: true })),
    (&["tffmt", "-h"], Err(Usage::Help)),
    (&["tffmt", "x"], Err(Usage::BadLine)),
    (&["tffmt", "--check", "--check"], Err(Usage::BadLine)),
];

#[test]
fn reads_words(rt: HostRuntime) {
    for (words, wanted) in &LINES {
        let found = options(rt.alloc(), words);
        assert!(rt; found == *wanted, "{found:?} of {words:?}");
    }
}
