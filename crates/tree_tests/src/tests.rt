//! Whole runs over a tree in memory in which nothing fails, with ample memory.

use crate::checks::check;
use crate::compared::{At, Words, holds, repeat_text, same_bytes, same_number};
use crate::devices::{Devices, run, run_bytes, steady_devices};
use crate::expected::Said;
use crate::rows::{
    BAD_WORD, CHECKS, LISTS, NAMES_GIVEN, OF_EACH_KIND, ONLY_IN_PLACE, Row, SHOWS, SMALL, SYNCS,
    Text, USAGE, VERSION, WRITES, WRITES_IN_PLACE,
};
use file_tree::fault::TreeFault;
use hcl_scan::SINK_ROOM;
use std::alloc::Global;
use std::process::Abort;
use tree_command::usage::HELP;
use tree_devices::entry::{MemoryEntry, Stands};

// Runs with a row's words and tree, and checks the result.
fn shows(rt: &impl Abort, alloc: Global, row: &Row) {
    let devices = steady_devices(SINK_ROOM);
    let run = run(alloc, row.words, row.input, row.entries, &devices).expect(rt, "memory");
    check(rt, alloc, row, &devices, &run);
}

#[test]
fn rows_are_shown(rt: HostRuntime) {
    let rows: [&Row; 11] = [
        &WRITES,
        &SYNCS,
        &WRITES_IN_PLACE,
        &ONLY_IN_PLACE,
        &NAMES_GIVEN,
        &OF_EACH_KIND,
        &CHECKS,
        &LISTS,
        &SHOWS,
        &VERSION,
        &BAD_WORD,
    ];
    for row in rows {
        shows(&rt, rt.alloc(), row);
    }
}

// Checks that a run with these words looks at nothing and shows this.
fn shows_text(rt: &impl Abort, alloc: Global, words: Words, text: Text) {
    let row = Row {
        words,
        input: b"",
        entries: SMALL,
        making: false,
        in_place: false,
        text: Some(text),
        lines: &[],
    };
    shows(rt, alloc, &row);
}

const TWO_MODES: &str = "tffmt-all: error: --list takes neither --check nor --diff beside it\n";

const BAD_PART: &str = "tffmt-all: error: --shard takes K/N, with K from 1 to N, at most 99999\n";

const BAD_JOBS: &str = "tffmt-all: error: --jobs takes a number from 1 to 9999\n";

const NAMES_TWICE: &str = "tffmt-all: error: --null takes no names on the command line\n";

static BAD_WORDS: [(Words, &str); 13] = [
    (&["tffmt-all", "--check", "--list"], TWO_MODES),
    (&["tffmt-all", "--diff", "--list", "a.tf"], TWO_MODES),
    (&["tffmt-all", "--list", "--check", "--diff"], TWO_MODES),
    (&["tffmt-all", "--shard"], USAGE),
    (&["tffmt-all", "--shard", "0/2"], BAD_PART),
    (&["tffmt-all", "--shard", "3/2"], BAD_PART),
    (&["tffmt-all", "--shard", "1"], BAD_PART),
    (&["tffmt-all", "--shard=", "--jobs", "x"], BAD_PART),
    (&["tffmt-all", "--jobs", "x"], BAD_JOBS),
    (&["tffmt-all", "-j", "0"], BAD_JOBS),
    (&["tffmt-all", "-j10000", "-j2"], BAD_JOBS),
    (&["tffmt-all", "-0", "-jx", "a.tf"], BAD_JOBS),
    (&["tffmt-all", "-0", "a.tf"], NAMES_TWICE),
];

#[test]
fn bad_words_look_at_nothing(rt: HostRuntime) {
    for (words, told) in &BAD_WORDS {
        shows_text(&rt, rt.alloc(), words, ("", told, 2));
    }
}

static HELP_WORDS: [Words; 2] = [
    &["tffmt-all", "--help"],
    &["tffmt-all", "-h", "--check", "a.tf"],
];

#[test]
fn help_looks_at_nothing(rt: HostRuntime) {
    for words in &HELP_WORDS {
        shows_text(&rt, rt.alloc(), words, (HELP, "", 0));
    }
}

// It is reported under the name that is no link.
static TWICE: Row = Row {
    words: &["tffmt-all", "--any-name", "link.tf", "in/c"],
    input: b"",
    entries: SMALL,
    making: false,
    in_place: false,
    text: None,
    lines: &[(b"in/c", Said::Written(b"in/c", b"c = 1\n"))],
};

#[test]
fn a_file_of_two_names_is_written_once(rt: HostRuntime) {
    shows(&rt, rt.alloc(), &TWICE);
}

// A named file is reported if its name isn't like that of a Terraform file.
static OTHER_KINDS: Row = Row {
    words: &["tffmt-all", "notes.txt", "in/c", "b.tf", "pipe.tf"],
    input: b"",
    entries: SMALL,
    making: false,
    in_place: false,
    text: None,
    lines: &[
        (b"b.tf", Said::Written(b"b.tf", b"b = 1\n")),
        (b"in/c", Said::Failed(TreeFault::OtherKind)),
        (b"notes.txt", Said::Failed(TreeFault::OtherKind)),
        (b"pipe.tf", Said::Failed(TreeFault::NotAFile)),
    ],
};

// The folder and everything below it are passed over, even if they are named.
static EXCLUDED: Row = Row {
    words: &[
        "tffmt-all",
        "--exclude",
        "deep/",
        "--exclude=./a.tf",
        ".",
        "in/deep/d.tfvars",
        "in/deep",
    ],
    input: b"",
    entries: SMALL,
    making: false,
    in_place: false,
    text: None,
    lines: &[
        (b"b.tf", Said::Written(b"b.tf", b"b = 1\n")),
        (b"link.tf", Said::Written(b"in/c", b"c = 1\n")),
    ],
};

#[test]
fn other_kinds_and_exclusions_are_left_alone(rt: HostRuntime) {
    shows(&rt, rt.alloc(), &OTHER_KINDS);
    shows(&rt, rt.alloc(), &EXCLUDED);
}

static ALL: Words = &["tffmt-all"];

fn at_all() -> At {
    At {
        words: ALL,
        devices: steady_devices(SINK_ROOM),
    }
}

#[test]
fn a_large_file_is_written(rt: HostRuntime) {
    let old = repeat_text(&rt, rt.alloc(), b"a=1\n", 20_000);
    let new = repeat_text(&rt, rt.alloc(), b"a = 1\n", 20_000);
    let entries = [
        MemoryEntry {
            name: b"",
            stands: Stands::Folder,
        },
        MemoryEntry {
            name: b"a.tf",
            stands: Stands::File(old.as_slice()),
        },
    ];
    let run = run(rt.alloc(), ALL, b"", &entries, &at_all().devices).expect(&rt, "memory");
    same_bytes(&rt, run.out.bytes(), b"a.tf\n", at_all());
    same_number(&rt, u64::from(run.status), 0, at_all());
    let found = run.tree.bytes_of(b"a.tf");
    holds(&rt, found == Some(new.as_slice()), at_all());
}

// The output and the status of a run with these bytes as words, and these entries.
fn shows_bytes(
    rt: &impl Abort,
    alloc: Global,
    words: &[&[u8]],
    entries: &[MemoryEntry<'_>],
    (out, err, status): (&[u8], &[u8], u8),
) {
    let run = run_bytes(alloc, words, b"", entries, &at_all().devices).expect(rt, "memory");
    same_bytes(rt, run.out.bytes(), out, at_all());
    same_bytes(rt, run.err.bytes(), err, at_all());
    same_number(rt, u64::from(run.status), u64::from(status), at_all());
}

// A name that isn't UTF-8 is reported, and the others are formatted; alone it doesn't stand for the current folder.
#[test]
fn a_name_that_is_not_utf8_is_told(rt: HostRuntime) {
    let told = (
        b"b.tf\n".as_slice(),
        b"\xff.tf: the name isn't UTF-8\n1 file formatted, 1 unchanged, 1 failed\n".as_slice(),
        4,
    );
    let words: [&[u8]; 4] = [b"tffmt-all", b"\xff.tf", b"a.tf", b"b.tf"];
    shows_bytes(&rt, rt.alloc(), &words, SMALL, told);
    let alone = (
        b"".as_slice(),
        b"-\xff: the name isn't UTF-8\n0 files formatted, 0 unchanged, 1 failed\n".as_slice(),
        4,
    );
    let words: [&[u8]; 2] = [b"\xff", b"-\xff"];
    shows_bytes(&rt, rt.alloc(), &words, SMALL, alone);
    let listed = (b"".as_slice(), NAMES_TWICE.as_bytes(), 2);
    let words: [&[u8]; 3] = [b"tffmt-all", b"--null", b"\xff"];
    shows_bytes(&rt, rt.alloc(), &words, SMALL, listed);
}

// Files whose names are quoted, or have a blank.
static ODD: [MemoryEntry<'static>; 4] = [
    MemoryEntry {
        name: b"",
        stands: Stands::Folder,
    },
    MemoryEntry {
        name: b"a\n+++ b\\\".tf",
        stands: Stands::File(b"a=1\n"),
    },
    MemoryEntry {
        name: b"b c.tf",
        stands: Stands::File(b"a=1\n"),
    },
    MemoryEntry {
        name: b"d\x1b\x7f.tf",
        stands: Stands::File(b"=\n"),
    },
];

static SHOWN_ODD: &[u8] = b"\
--- \"old/a\\n+++ b\\\\\\\".tf\"
+++ \"new/a\\n+++ b\\\\\\\".tf\"
@@ -1 +1 @@
-a=1
+a = 1
--- old/b c.tf\t
+++ new/b c.tf\t
@@ -1 +1 @@
-a=1
+a = 1
";

static REFUSED_ODD: &[u8] = b"\"d\\033\\177.tf\":1:1: ";

#[test]
fn names_are_quoted_where_they_are_shown(rt: HostRuntime) {
    let words: [&[u8]; 3] = [b"tffmt-all", b"--quiet", b"--diff"];
    let run = run_bytes(rt.alloc(), &words, b"", &ODD, &at_all().devices).expect(&rt, "memory");
    same_bytes(&rt, run.out.bytes(), SHOWN_ODD, at_all());
    holds(&rt, run.err.bytes().starts_with(REFUSED_ODD), at_all());
    same_number(&rt, u64::from(run.status), 2, at_all());
}

#[test]
fn names_are_listed_quoted_or_raw(rt: HostRuntime) {
    let shown = (
        b"\"a\\n+++ b\\\\\\\".tf\"\nb c.tf\n".as_slice(),
        b"".as_slice(),
        3,
    );
    let words: [&[u8]; 5] = [
        b"tffmt-all",
        b"--quiet",
        b"--list",
        b"a\n+++ b\\\".tf",
        b"b c.tf",
    ];
    shows_bytes(&rt, rt.alloc(), &words, &ODD, shown);
    let words: [&[u8]; 4] = [b"tffmt-all", b"--quiet", b"--list", b"--null"];
    let input = b"b c.tf\0a\n+++ b\\\".tf\0";
    let run = run_bytes(rt.alloc(), &words, input, &ODD, &at_all().devices).expect(&rt, "memory");
    same_bytes(&rt, run.out.bytes(), b"a\n+++ b\\\".tf\0b c.tf\0", at_all());
    same_bytes(&rt, run.err.bytes(), b"", at_all());
    same_number(&rt, u64::from(run.status), 3, at_all());
}

// A check that shows the differences too has the status of the check.
#[test]
fn a_check_may_show_differences(rt: HostRuntime) {
    let shown = (
        b"--- old/b.tf\n+++ new/b.tf\n@@ -1 +1 @@\n-b=1\n+b = 1\n".as_slice(),
        b"1 file not formatted, 1 unchanged\n".as_slice(),
        3,
    );
    let words: [&[u8]; 5] = [b"tffmt-all", b"--check", b"--diff", b"a.tf", b"b.tf"];
    shows_bytes(&rt, rt.alloc(), &words, SMALL, shown);
}

// If nothing is found, the run says so, unless it is to be quiet.
#[test]
fn no_files_are_told(rt: HostRuntime) {
    let empty = [MemoryEntry {
        name: b"",
        stands: Stands::Folder,
    }];
    let words: [&[u8]; 1] = [b"tffmt-all"];
    let told = (b"".as_slice(), b"no files found\n".as_slice(), 0);
    shows_bytes(&rt, rt.alloc(), &words, &empty, told);
    let words: [&[u8]; 2] = [b"tffmt-all", b"--quiet"];
    shows_bytes(&rt, rt.alloc(), &words, &empty, (b"", b"", 0));
}

// A file of two names, and links to it under either.
static LINKED: [MemoryEntry<'static>; 7] = [
    MemoryEntry {
        name: b"",
        stands: Stands::Folder,
    },
    MemoryEntry {
        name: b"b.tf",
        stands: Stands::File(b"a=1\n"),
    },
    MemoryEntry {
        name: b"c.tf",
        stands: Stands::Same(b"a=1\n", b"b.tf"),
    },
    MemoryEntry {
        name: b"a.tf",
        stands: Stands::Link(b"c.tf"),
    },
    MemoryEntry {
        name: b"d.tf",
        stands: Stands::Link(b"notes"),
    },
    MemoryEntry {
        name: b"e.tf",
        stands: Stands::Link(b"notes"),
    },
    MemoryEntry {
        name: b"notes",
        stands: Stands::File(b"n=1\n"),
    },
];

// A link to a file that is found under another name is passed over: under one that is no link, or under an earlier link. Two
// names of a file that are no links are each looked at.
#[test]
fn each_file_is_told_once_where_links_lead_to_it(rt: HostRuntime) {
    let words: [&[u8]; 2] = [b"tffmt-all", b"--list"];
    let told = (
        b"b.tf\nc.tf\nd.tf\n".as_slice(),
        b"3 files not formatted, 0 unchanged\n".as_slice(),
        3,
    );
    shows_bytes(&rt, rt.alloc(), &words, &LINKED, told);
    let words: [&[u8]; 1] = [b"tffmt-all"];
    let written = (
        b"b.tf\nc.tf\nd.tf\n".as_slice(),
        b"3 files formatted, 0 unchanged\n".as_slice(),
        0,
    );
    shows_bytes(&rt, rt.alloc(), &words, &LINKED, written);
}

// A named link is looked at, unless its file is named as well.
#[test]
fn links_may_be_named(rt: HostRuntime) {
    let words: [&[u8]; 4] = [b"tffmt-all", b"--quiet", b"--list", b"a.tf"];
    shows_bytes(&rt, rt.alloc(), &words, &LINKED, (b"a.tf\n", b"", 3));
    let words: [&[u8]; 5] = [b"tffmt-all", b"--quiet", b"--list", b"a.tf", b"c.tf"];
    shows_bytes(&rt, rt.alloc(), &words, &LINKED, (b"c.tf\n", b"", 3));
    let words: [&[u8]; 5] = [b"tffmt-all", b"--quiet", b"--list", b"e.tf", b"./d.tf"];
    shows_bytes(&rt, rt.alloc(), &words, &LINKED, (b"d.tf\n", b"", 3));
}

// A file that is refused because of its second line.
static REFUSED: [MemoryEntry<'static>; 2] = [
    MemoryEntry {
        name: b"",
        stands: Stands::Folder,
    },
    MemoryEntry {
        name: b"bad.tf",
        stands: Stands::File(b"a = 1\n\tb = ]\n"),
    },
];

// The message about it, with lines of faults shown and without.
fn tells_refused(rt: &impl Abort, alloc: Global, shows: bool, told: &[u8]) {
    let at = At {
        words: ALL,
        devices: Devices {
            shows,
            ..steady_devices(SINK_ROOM)
        },
    };
    let words: [&[u8]; 2] = [b"tffmt-all", b"--quiet"];
    let run = run_bytes(alloc, &words, b"", &REFUSED, &at.devices).expect(rt, "memory");
    same_bytes(rt, run.out.bytes(), b"", at);
    same_bytes(rt, run.err.bytes(), told, at);
    same_number(rt, u64::from(run.status), 2, at);
}

#[test]
fn lines_of_faults_are_shown_on_a_terminal(rt: HostRuntime) {
    let told = b"bad.tf:2:6: unexpected token\n   b = ]\n       ^\n";
    tells_refused(&rt, rt.alloc(), true, told);
}

#[test]
fn lines_of_faults_are_shown_nowhere_else(rt: HostRuntime) {
    let told = b"bad.tf:2:6: unexpected token\n";
    tells_refused(&rt, rt.alloc(), false, told);
}
