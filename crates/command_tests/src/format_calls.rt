//! How often a run calls its devices, and that it doesn't call a failed one again. Contracts see the bytes read and
//! written and whether they were flushed, but not the number of calls.

use crate::compared::{Shown, same_number, same_shown};
use crate::devices::{Reader, Writer};
use crate::format_rows::{CHECK, PRINT, repeat_parts};
use crate::format_runs::run;
use std::alloc::Global;
use std::process::Abort;

// A number for each kind of call, of reads, writes, flushes and messages: how many there were, or which of them fails;
// 0 means none.
type Calls = (u32, u32, u32, u32);

const NONE: Calls = (0, 0, 0, 0);

// The words and the input, the failing calls, the number of calls, and the output.
type Row<'a> = (&'a [&'a str], &'a [u8], Calls, Calls, Shown<'a>);

// Checks the number of calls for the input.
fn same_calls(rt: &impl Abort, found: Calls, wanted: Calls, input: &[u8]) {
    same_number(rt, u64::from(found.0), u64::from(wanted.0), input);
    same_number(rt, u64::from(found.1), u64::from(wanted.1), input);
    same_number(rt, u64::from(found.2), u64::from(wanted.2), input);
    same_number(rt, u64::from(found.3), u64::from(wanted.3), input);
}

// Runs the program with these calls failing, and compares the number of calls of its devices, its output, and its
// status.
fn check(rt: &impl Abort, alloc: Global, row: &Row<'_>) {
    let (words, input, fails, wanted, shown) = *row;
    let mut reader = Reader::new(input, fails.0);
    let mut written = Writer::new(alloc, fails.1, fails.2);
    let mut told = Writer::new(alloc, fails.3, 0);
    let status = run(alloc, words, &mut reader, &mut written, &mut told);
    let calls = (reader.calls, written.writes, written.flushes, told.writes);
    same_calls(rt, calls, wanted, input);
    same_number(rt, u64::from(told.flushes), 0, input);
    let found = (written.taken.as_slice(), told.taken.as_slice(), status);
    same_shown(rt, found, shown, input);
}

fn check_all(rt: &impl Abort, alloc: Global, rows: &[Row<'_>]) {
    for row in rows {
        check(rt, alloc, row);
    }
}

static PRINTS: [Row<'static>; 2] = [
    (
        &["tffmt"],
        b"a=1\n",
        NONE,
        (2, 1, 1, 0),
        (b"a = 1\n", b"", 0),
    ),
    (
        &["tffmt"],
        b"a = 1\n",
        NONE,
        (2, 1, 1, 0),
        (b"a = 1\n", b"", 0),
    ),
];

#[test]
fn output_is_flushed_once(rt: HostRuntime) {
    check_all(&rt, rt.alloc(), &PRINTS);
}

// Checks the output of a run, and that it flushes once everything is written, or not at all if nothing is.
fn flushes_at_the_end(
    rt: &impl Abort,
    alloc: Global,
    words: &[&str],
    input: &[u8],
    wanted: Shown<'_>,
) {
    let mut reader = Reader::new(input, 0);
    let mut written = Writer::new(alloc, 0, 0);
    let mut told = Writer::new(alloc, 0, 0);
    let status = run(alloc, words, &mut reader, &mut written, &mut told);
    let shown = (written.taken.as_slice(), told.taken.as_slice(), status);
    same_shown(rt, shown, wanted, input);
    let flushes = u64::from(!wanted.0.is_empty());
    same_number(rt, u64::from(written.flushes), flushes, input);
    same_number(rt, written.at_flush, wanted.0.len() as u64, input);
    same_number(rt, u64::from(told.flushes), 0, input);
}

// 16,000 and 24,000 bytes, which no buffer of 8 KiB holds.
#[test]
fn long_output_is_flushed_once(rt: HostRuntime) {
    let alloc = rt.alloc();
    let input = repeat_parts(&rt, alloc, &[(b"a=1\n", 4000)]);
    let print = repeat_parts(&rt, alloc, &[(b"a = 1\n", 4000)]);
    flushes_at_the_end(&rt, alloc, &PRINT, &input, (&print, b"", 0));
    flushes_at_the_end(&rt, alloc, &PRINT, &print, (&print, b"", 0));
    flushes_at_the_end(&rt, alloc, &CHECK, &input, (b"", b"", 3));
    flushes_at_the_end(&rt, alloc, &CHECK, &print, (b"", b"", 0));
}

static NO_TEXTS: [Row<'static>; 4] = [
    (
        &["tffmt", "--check"],
        b"a = 1\n",
        NONE,
        (2, 0, 0, 0),
        (b"", b"", 0),
    ),
    (
        &["tffmt", "--check"],
        b"a=1\n",
        NONE,
        (2, 0, 0, 0),
        (b"", b"", 3),
    ),
    (&["tffmt"], b"", NONE, (1, 0, 0, 0), (b"", b"", 0)),
    (
        &["tffmt"],
        b"a=\n",
        NONE,
        (2, 0, 0, 1),
        (b"", b"tffmt: error: 1:3: unexpected token\n", 2),
    ),
];

#[test]
fn without_a_text_no_writer_is_called(rt: HostRuntime) {
    check_all(&rt, rt.alloc(), &NO_TEXTS);
}

static USAGES: [Row<'static>; 2] = [
    (
        &["tffmt", "--help"],
        b"a=1\n",
        NONE,
        (0, 1, 1, 0),
        (b"usage: tffmt [--check] [--help]\n", b"", 0),
    ),
    (
        &["tffmt", "x"],
        b"a=1\n",
        NONE,
        (0, 0, 0, 1),
        (b"", b"usage: tffmt [--check] [--help]\n", 2),
    ),
];

#[test]
fn usage_reads_nothing(rt: HostRuntime) {
    check_all(&rt, rt.alloc(), &USAGES);
}

// A read, a write, a flush and a message.
static FAILED: [Row<'static>; 4] = [
    (
        &["tffmt"],
        b"a=1\n",
        (2, 0, 0, 0),
        (2, 0, 0, 1),
        (b"", b"tffmt: error: read failed\n", 4),
    ),
    (
        &["tffmt"],
        b"a=1\n",
        (0, 1, 0, 0),
        (2, 1, 0, 1),
        (b"", b"tffmt: error: write failed\n", 4),
    ),
    (
        &["tffmt"],
        b"a=1\n",
        (0, 0, 1, 0),
        (2, 1, 1, 1),
        (b"a = 1\n", b"tffmt: error: write failed\n", 4),
    ),
    (
        &["tffmt"],
        b"a=\n",
        (0, 0, 0, 1),
        (2, 0, 0, 1),
        (b"", b"", 4),
    ),
];

#[test]
fn what_failed_is_not_called_again(rt: HostRuntime) {
    check_all(&rt, rt.alloc(), &FAILED);
}
