//! Wrong command lines: the reported word, and its replacement.

use crate::compared::{At, Words, holds, same_bytes, same_number};
use crate::devices::{run, steady_devices};
use crate::rows::{SMALL, USAGE};
use hcl_scan::SINK_ROOM;
use std::alloc::Global;
use std::process::Abort;

// Checks that a run with these words looks at nothing, and prints this and the usage.
fn says(rt: &impl Abort, alloc: Global, words: Words, front: &[u8]) {
    let at = At {
        words,
        devices: steady_devices(SINK_ROOM),
    };
    let mut wanted = Vec::new(alloc);
    wanted.extend_from_slice(front).expect(rt, "memory");
    wanted
        .extend_from_slice(USAGE.as_bytes())
        .expect(rt, "memory");
    let run = run(alloc, words, b"", SMALL, &at.devices).expect(rt, "memory");
    same_bytes(rt, run.out.bytes(), b"", at);
    same_bytes(rt, run.err.bytes(), wanted.as_slice(), at);
    same_number(rt, u64::from(run.status), 2, at);
    holds(rt, run.watcher.looked == 0, at);
}

// Words, and the text before the usage.
type Told = (Words, &'static [u8]);

static WRONG: [Told; 9] = [
    (
        &["tffmt-all", "--bogus"],
        b"tffmt-all: error: unknown option --bogus\n",
    ),
    (
        &["tffmt-all", "a.tf", "--write=true", "--bogus"],
        b"tffmt-all: error: unknown option --write=true\n",
    ),
    (
        &["tffmt-all", "-x0"],
        b"tffmt-all: error: unknown option -x0\n",
    ),
    (
        &["tffmt-all", "--checks"],
        b"tffmt-all: error: unknown option --checks\n",
    ),
    (
        &["tffmt-all", "--=1"],
        b"tffmt-all: error: unknown option --=1\n",
    ),
    // It isn't taken as the value of the option before it.
    (
        &["tffmt-all", "--jobs", "-4"],
        b"tffmt-all: error: unknown option -4\n",
    ),
    (
        &["tffmt-all", "--a\n\x1b[31m"],
        b"tffmt-all: error: unknown option \"--a\\n\\033[31m\"\n",
    ),
    (
        &["tffmt-all", "--check", "--list", "--bogus", "--", "-x"],
        b"tffmt-all: error: unknown option --bogus\n",
    ),
    (
        &["--bogus", "--check", "-\u{e9}"],
        b"tffmt-all: error: unknown option -\xc3\xa9\n",
    ),
];

#[test]
fn a_wrong_word_is_named(rt: HostRuntime) {
    for (words, front) in &WRONG {
        says(&rt, rt.alloc(), words, front);
    }
}

static WITH_HINT: [Told; 7] = [
    (
        &["tffmt-all", "-check"],
        b"tffmt-all: error: unknown option -check; write --check\n",
    ),
    (
        &["tffmt-all", "-diff", "."],
        b"tffmt-all: error: unknown option -diff; write --diff\n",
    ),
    (
        &["tffmt-all", "-in-place"],
        b"tffmt-all: error: unknown option -in-place; write --in-place\n",
    ),
    (
        &["tffmt-all", "-recursive"],
        b"tffmt-all: error: unknown option -recursive; folders are always walked whole\n",
    ),
    (
        &["tffmt-all", "--recursive"],
        b"tffmt-all: error: unknown option --recursive; folders are always walked whole\n",
    ),
    (
        &["tffmt-all", "-write=false"],
        b"tffmt-all: error: unknown option -write=false; write --list, --check or --diff\n",
    ),
    (
        &["tffmt-all", "--write=false"],
        b"tffmt-all: error: unknown option --write=false; write --list, --check or --diff\n",
    ),
];

#[test]
fn a_word_of_terraform_has_a_hint(rt: HostRuntime) {
    for (words, front) in &WITH_HINT {
        says(&rt, rt.alloc(), words, front);
    }
}

// Lines that are wrong although each of their options is known.
static KNOWN: [Words; 4] = [
    &["tffmt-all", "--check=1"],
    &["tffmt-all", "--shard"],
    &["tffmt-all", "--shard=1/1", "--shard=1/1", "--", "--bogus"],
    &["-check", "-j"],
];

#[test]
fn no_word_is_named_where_all_are_known(rt: HostRuntime) {
    for words in &KNOWN {
        says(&rt, rt.alloc(), words, b"");
    }
}
