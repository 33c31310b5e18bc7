//! Runs in which every call of a device fails in turn: each open, each read, each write and the flush that a run
//! reaches, and then each write of the message too, with one byte per call and with many.

use crate::compared::{Files, Shown, first_text, front, holds, join, same_bytes, same_number};
use crate::lint_devices::{Devices, flushes_at_the_end, run, steady_devices};
use crate::lint_runs::{USAGE, Words};
use crate::memory_files::FileFailure;
use hcl_scan::{ByteSink, SINK_ROOM};
use std::alloc::Global;
use std::process::Abort;

static WRITE_FAILED: &[u8] = b"tfrules: error: write failed\n";

// More calls of one device than any run here makes.
const CALLS: usize = 1_000;

// A run, its files in the order of their opens, and its result if nothing fails, with the parts in which it writes its
// report.
#[derive(Clone, Copy)]
struct Row<'a> {
    words: &'a [&'a str],
    files: Files<'a>,
    parts: &'a [&'a str],
    shown: Shown<'a>,
}

// The bytes of this many good calls of a report that is written part by part.
fn report_front(
    rt: &impl Abort,
    alloc: Global,
    parts: &[&str],
    calls: usize,
    most: usize,
) -> Vec<u8> {
    let mut front = Vec::new(alloc);
    let mut left = calls;
    for part in parts {
        for chunk in part.as_bytes().chunks(most.max(1)) {
            if left == 0 {
                return front;
            }
            front.extend_from_slice(chunk).expect(rt, "memory");
            left = left.saturating_sub(1);
        }
    }
    front
}

// Runs over devices whose message fails after this many good writes: the run has the expected result, or of the message
// only the bytes of these writes. Returns whether that write was reached.
fn message_fails(
    rt: &impl Abort,
    alloc: Global,
    row: &Row<'_>,
    others: Devices,
    good: usize,
    (out, message, status): Shown<'_>,
) -> bool {
    let devices = Devices {
        message: Some(good),
        ..others
    };
    let run = run(alloc, row.words, row.files, &devices);
    let failed = run.err.has_failed();
    if failed {
        let told = front(message, good, devices.most);
        run.check(rt, (out, told, 1), row.files);
    } else {
        run.check(rt, (out, message, status), row.files);
    }
    failed
}

// Lets each write of a message fail in turn, beside other failures; the run is to have this result. Returns how many
// writes the message takes.
fn fail_messages(
    rt: &impl Abort,
    alloc: Global,
    row: &Row<'_>,
    others: Devices,
    wanted: Shown<'_>,
) -> u64 {
    for good in 0..CALLS {
        if !message_fails(rt, alloc, row, others, good, wanted) {
            return good as u64;
        }
    }
    CALLS as u64
}

// A kind of call, except the writes of a message: an open, a read of the file opened at this number, a write, a flush.
#[derive(Clone, Copy)]
enum Kind {
    Opening,
    Read(usize),
    Write,
    Flush,
}

// Devices whose call of this kind fails after this many good ones. A flush fails at once.
fn failing_devices(kind: Kind, good: usize, most: usize) -> Devices {
    let others = steady_devices(most);
    match kind {
        Kind::Opening => Devices {
            file: FileFailure::Opening(good),
            ..others
        },
        Kind::Read(number) => Devices {
            file: FileFailure::Read(number, good),
            ..others
        },
        Kind::Write => Devices {
            write: Some(good),
            ..others
        },
        Kind::Flush => Devices {
            flush: good == 0,
            ..others
        },
    }
}

// The line about the file of this number.
fn line_about(
    rt: &impl Abort,
    alloc: Global,
    files: Files<'_>,
    number: usize,
    text: &str,
) -> Vec<u8> {
    let name = match files.get(number) {
        Some((name, _)) => name,
        None => "",
    };
    join(rt, alloc, &["tfrules: error: ", name, ": ", text, "\n"])
}

// The message of a run whose call of this kind fails after this many good ones.
fn message_after(
    rt: &impl Abort,
    alloc: Global,
    row: &Row<'_>,
    kind: Kind,
    good: usize,
) -> Vec<u8> {
    match kind {
        Kind::Opening => line_about(rt, alloc, row.files, good, "cannot be opened"),
        Kind::Read(number) => line_about(rt, alloc, row.files, number, "read failed"),
        Kind::Write | Kind::Flush => join(rt, alloc, &["tfrules: error: write failed\n"]),
    }
}

// The part of its report that such a run writes, with at most this many bytes per call.
fn report_after(
    rt: &impl Abort,
    alloc: Global,
    row: &Row<'_>,
    kind: Kind,
    good: usize,
    most: usize,
) -> Vec<u8> {
    match kind {
        Kind::Opening | Kind::Read(_) => Vec::new(alloc),
        Kind::Write => report_front(rt, alloc, row.parts, good, most),
        Kind::Flush => join(rt, alloc, row.parts),
    }
}

// Whether a run over devices reaches the call of this kind that fails. If not, it has the result of the row.
fn fails(rt: &impl Abort, alloc: Global, row: &Row<'_>, devices: &Devices, kind: Kind) -> bool {
    let run = run(alloc, row.words, row.files, devices);
    let failed = match kind {
        Kind::Opening | Kind::Read(_) => run.has_file_failed,
        Kind::Write | Kind::Flush => run.out.has_failed(),
    };
    if !failed {
        run.check(rt, row.shown, row.files);
    }
    failed
}

// How many calls of a kind there are, and how many failures there were.
type Count = (u64, u64);

// Lets each call of this kind fail in turn.
fn fail_kind(rt: &impl Abort, alloc: Global, row: &Row<'_>, most: usize, kind: Kind) -> Count {
    let mut failures = 0_u64;
    for good in 0..CALLS {
        let devices = failing_devices(kind, good, most);
        if !fails(rt, alloc, row, &devices, kind) {
            return (good as u64, failures);
        }
        let report = report_after(rt, alloc, row, kind, good, most);
        let message = message_after(rt, alloc, row, kind, good);
        let messages = fail_messages(rt, alloc, row, devices, (&report, &message, 1));
        failures = failures.saturating_add(1).saturating_add(messages);
    }
    (CALLS as u64, failures)
}

// Lets each read of each file fail in turn.
fn fail_reads(rt: &impl Abort, alloc: Global, row: &Row<'_>, most: usize) -> Count {
    let mut reads = 0_u64;
    let mut failures = 0_u64;
    for number in 0..row.files.len() {
        let (more, by_these) = fail_kind(rt, alloc, row, most, Kind::Read(number));
        reads = reads.saturating_add(more);
        failures = failures.saturating_add(by_these);
    }
    (reads, failures)
}

// The number of opens, reads, writes, flushes and writes of its message in a run, and the number of failures.
type Counts = (u64, u64, u64, u64, u64, u64);

// Lets each call of a run fail in turn, with at most this many bytes per call, and compares the numbers of calls and
// failures.
fn fail_each(rt: &impl Abort, alloc: Global, row: &Row<'_>, most: usize, wanted: Counts) {
    let messages = fail_messages(rt, alloc, row, steady_devices(most), row.shown);
    let (openings, by_openings) = fail_kind(rt, alloc, row, most, Kind::Opening);
    let (reads, by_reads) = fail_reads(rt, alloc, row, most);
    let (writes, by_writes) = fail_kind(rt, alloc, row, most, Kind::Write);
    let (flushes, by_flushes) = fail_kind(rt, alloc, row, most, Kind::Flush);
    let all = messages
        .saturating_add(by_openings)
        .saturating_add(by_reads)
        .saturating_add(by_writes)
        .saturating_add(by_flushes);
    let text = first_text(row.files);
    same_number(rt, openings, wanted.0, text);
    same_number(rt, reads, wanted.1, text);
    same_number(rt, writes, wanted.2, text);
    same_number(rt, flushes, wanted.3, text);
    same_number(rt, messages, wanted.4, text);
    same_number(rt, all, wanted.5, text);
}

type Module = &'static [(&'static str, &'static [u8])];

const REGISTRY: Module = &[(
    "main.tf",
    b"module \"m\" {\n  source = \"hashicorp/consul/aws\"\n}\n",
)];

// The report of that module, as it is written.
const VERSION: &[&str] = &[
    "1 issue(s) found:\n\nmain.tf:1:1: Warning - module \"m\" has no version (terraform_module_version)\n",
];

const USED: Module = &[
    ("a.tf", b"variable \"n\" { type = string }\n"),
    (
        "b.tf",
        b"output \"o\" {\n  value = <<EOT\n${var.n}\nEOT\n}\n",
    ),
];

const FAULTY: Module = &[
    ("a.tf", b"variable \"n\" {}\n"),
    ("b.tf", b"a=\n"),
    ("c.tf", b"c = 1\n"),
];

const ONE: Module = &[("a.tf", b"a = 1\n")];

// Words and a module, the parts of the report, the message and the status, and the calls with one byte each and with many.
static RUNS: [(Words, Module, &[&str], &[u8], u8, Counts, Counts); 9] = [
    // reports
    (
        &["tfrules", "main.tf"],
        REGISTRY,
        VERSION,
        b"",
        2,
        (1, 50, 95, 1, 0, 4_823),
        (1, 2, 1, 1, 0, 10),
    ),
    (
        &["tfrules", "--force", "main.tf"],
        REGISTRY,
        VERSION,
        b"",
        0,
        (1, 50, 95, 1, 0, 4_823),
        (1, 2, 1, 1, 0, 10),
    ),
    // files without issues; one of them comes again
    (
        &["tfrules", "a.tf", "b.tf", "a.tf"],
        USED,
        &[],
        b"",
        0,
        (2, 77, 0, 0, 0, 2_775),
        (2, 4, 0, 0, 0, 12),
    ),
    // refusals
    (
        &["tfrules", "a.tf", "b.tf", "c.tf"],
        FAULTY,
        &[],
        b"tfrules: error: b.tf:1:3: unexpected token\n",
        1,
        (2, 21, 0, 0, 43, 858),
        (2, 4, 0, 0, 1, 13),
    ),
    (
        &["tfrules", "a.tf"],
        &[("a.tf", b"\xff")],
        &[],
        b"tfrules: error: a.tf:1:1: invalid UTF-8\n",
        1,
        (1, 2, 0, 0, 40, 150),
        (1, 2, 0, 0, 1, 7),
    ),
    // words that open nothing
    (
        &["tfrules", "--help"],
        ONE,
        &[USAGE],
        b"",
        0,
        (0, 0, 146, 1, 0, 4_410),
        (0, 0, 1, 1, 0, 4),
    ),
    (
        &["tfrules", "--rules", "nope", "a.tf"],
        ONE,
        &[],
        b"tfrules: error: unknown rule\n",
        1,
        (0, 0, 0, 0, 29, 29),
        (0, 0, 0, 0, 1, 1),
    ),
    (
        &["tfrules", "--naming", "x", "a.tf"],
        ONE,
        &[],
        b"tfrules: error: unknown naming\n",
        1,
        (0, 0, 0, 0, 31, 31),
        (0, 0, 0, 0, 1, 1),
    ),
    (
        &["tfrules", "--minimum-failure-severity", "x", "a.tf"],
        ONE,
        &[],
        b"tfrules: error: unknown severity\n",
        1,
        (0, 0, 0, 0, 33, 33),
        (0, 0, 0, 0, 1, 1),
    ),
];

#[test]
fn each_call_fails(rt: HostRuntime) {
    for (words, files, parts, message, status, one, many) in &RUNS {
        let report = join(&rt, rt.alloc(), parts);
        let row = Row {
            words,
            files,
            parts,
            shown: (&report, message, *status),
        };
        fail_each(&rt, rt.alloc(), &row, 1, *one);
        fail_each(&rt, rt.alloc(), &row, SINK_ROOM, *many);
        flushes_at_the_end(&rt, rt.alloc(), words, files, row.shown);
    }
}

// No operand: the usage line is the message.
#[test]
fn each_write_of_the_usage_fails(rt: HostRuntime) {
    let row = Row {
        words: &["tfrules"],
        files: ONE,
        parts: &[],
        shown: (b"", USAGE.as_bytes(), 1),
    };
    fail_each(&rt, rt.alloc(), &row, 1, (0, 0, 0, 0, 146, 146));
    fail_each(&rt, rt.alloc(), &row, SINK_ROOM, (0, 0, 0, 0, 1, 1));
}

#[test]
fn both_writers_fail(rt: HostRuntime) {
    let devices = Devices {
        most: 5,
        write: Some(0),
        message: Some(1),
        ..steady_devices(5)
    };
    let run = run(rt.alloc(), &["tfrules", "main.tf"], REGISTRY, &devices);
    run.check(&rt, (b"", b"tfrul", 1), REGISTRY);
}

#[test]
fn a_full_writer_fails(rt: HostRuntime) {
    let alloc = rt.alloc();
    let text = join(&rt, alloc, &["variable \"n\" {}\n"; 80]);
    let files = [("a.tf", text.as_slice())];
    let words = ["tfrules", "--rules", "terraform_typed_variables", "a.tf"];
    let run = run(alloc, &words, &files, &steady_devices(SINK_ROOM));
    let (report, message, status) = run.outputs();
    same_number(&rt, report.len() as u64, SINK_ROOM as u64, &text);
    holds(
        &rt,
        report.starts_with(b"80 issue(s) found:\n\na.tf:1:1: Warning - "),
        &text,
    );
    same_bytes(&rt, message, WRITE_FAILED, &text);
    same_number(&rt, u64::from(status), 1, &text);
}

// For a variable without a type on each of 1,000 lines: some 80 bytes each, which no buffer of 8 KiB holds.
#[test]
fn a_long_report_is_flushed_once(rt: HostRuntime) {
    let alloc = rt.alloc();
    let mut text = Vec::new(alloc);
    let mut report = join(&rt, alloc, &["1000 issue(s) found:\n\n"]);
    for line in 1..1001_u32 {
        let issue = format!(in alloc;
            "a.tf:{line}:1: Warning - variable \"n\" has no type (terraform_typed_variables)\n"
        ).expect(&rt, "memory");
        report
            .extend_from_slice(issue.as_bytes())
            .expect(&rt, "memory");
        text.extend_from_slice(b"variable \"n\" {}\n")
            .expect(&rt, "memory");
    }
    let words = ["tfrules", "--rules", "terraform_typed_variables", "a.tf"];
    let files = [("a.tf", text.as_slice())];
    flushes_at_the_end(&rt, alloc, &words, &files, (&report, b"", 2));
}
