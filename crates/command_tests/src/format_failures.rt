//! Runs in which every call of a device fails in turn: each read, each write and the flush that a run reaches, and then
//! each write of the message too, with one byte per call and with many.

ghost use Rattle.std.specs.Prelude.{◌≡◌, false};

use crate::compared::{Shown, front, holds, same_number, same_shown};
use crate::devices::sink;
use crate::format_rows::{PRINT, repeat_parts};
use hcl_scan::{ByteSink, ByteSource, MemorySink, MemorySource, SINK_ROOM};
use std::alloc::Global;
use std::process::Abort;
use tffmt_command::run::program;

static READ_FAILED: &[u8] = b"tffmt: error: read failed\n";

static WRITE_FAILED: &[u8] = b"tffmt: error: write failed\n";

// More calls of one device than any run here makes.
const CALLS: usize = 1_000;

// A run, and its result if nothing fails.
#[derive(Clone, Copy)]
struct Row<'a> {
    words: &'a [&'a str],
    input: &'a [u8],
    shown: Shown<'a>,
}

// How many bytes a call of each device moves at most, and the failing calls: of each kind the one after this many good
// ones.
#[derive(Clone, Copy)]
struct Devices {
    most_read: usize,
    most_written: usize,
    most_told: usize,
    read: Option<usize>,
    write: Option<usize>,
    flush: bool,
    message: Option<usize>,
}

// Devices that don't fail.
fn steady_devices(most: usize) -> Devices {
    Devices {
        most_read: most,
        most_written: most,
        most_told: most,
        read: None,
        write: None,
        flush: false,
        message: None,
    }
}

// The state at the end of a run.
#[derive(Drop)]
struct Outcome {
    has_read_failed: bool,
    out: MemorySink,
    err: MemorySink,
    status: u8,
}

impl Outcome {
    fn check(&self, rt: &impl Abort, wanted: Shown<'_>, input: &[u8]) {
        let shown = (self.out.bytes(), self.err.bytes(), self.status);
        same_shown(rt, shown, wanted, input);
    }
}

fn source(bytes: &[u8], most: usize, read: Option<usize>) -> MemorySource<'_>
    ensures { result.has_failed ≡ false }
{
    let source = MemorySource::new(bytes, most.max(1));
    match read {
        Some(good) => source.failing_after(good),
        None => source,
    }
}

fn run(alloc: Global, row: &Row<'_>, devices: &Devices) -> Outcome {
    let mut input = source(row.input, devices.most_read, devices.read);
    let mut out = sink(devices.most_written, devices.write, devices.flush);
    let mut err = sink(devices.most_told, devices.message, false);
    let status = program(alloc, row.words, &mut input, &mut out, &mut err);
    Outcome {
        has_read_failed: input.has_failed(),
        out,
        err,
        status,
    }
}

// Runs over devices whose message fails after this many good writes: the run has the expected result, or of the message
// only the bytes of these writes. Returns whether that write was reached.
fn message_fails(
    rt: &impl Abort,
    alloc: Global,
    row: &Row<'_>,
    others: Devices,
    good: usize,
    (out, message, status): Shown<'_>,
) -> bool {
    let devices = Devices {
        message: Some(good),
        ..others
    };
    let run = run(alloc, row, &devices);
    let failed = run.err.has_failed();
    if failed {
        let told = front(message, good, devices.most_told);
        run.check(rt, (out, told, 4), row.input);
    } else {
        run.check(rt, (out, message, status), row.input);
    }
    failed
}

// Lets each write of a message fail in turn, beside other failures; the run is to have this result. Returns how many
// writes the message takes.
fn fail_messages(
    rt: &impl Abort,
    alloc: Global,
    row: &Row<'_>,
    others: Devices,
    wanted: Shown<'_>,
) -> usize {
    for good in 0..CALLS {
        if !message_fails(rt, alloc, row, others, good, wanted) {
            return good;
        }
    }
    CALLS
}

// A kind of call, except the writes of a message.
#[derive(Clone, Copy)]
enum Kind {
    Read,
    Write,
    Flush,
}

// Devices whose call of this kind fails after this many good ones. A flush fails at once.
fn failing_devices(kind: Kind, good: usize, most: usize) -> Devices {
    let others = steady_devices(most);
    match kind {
        Kind::Read => Devices {
            read: Some(good),
            ..others
        },
        Kind::Write => Devices {
            write: Some(good),
            ..others
        },
        Kind::Flush => Devices {
            flush: good == 0,
            ..others
        },
    }
}

// The result of a run whose call of this kind fails after this many good ones.
fn shown_after<'a>(row: &Row<'a>, kind: Kind, good: usize, most: usize) -> Shown<'a> {
    match kind {
        Kind::Read => (b"", READ_FAILED, 4),
        Kind::Write => (front(row.shown.0, good, most), WRITE_FAILED, 4),
        Kind::Flush => (row.shown.0, WRITE_FAILED, 4),
    }
}

// Whether a run over devices reaches the call of this kind that fails. If not, it has the result of the row.
fn fails(rt: &impl Abort, alloc: Global, row: &Row<'_>, devices: &Devices, kind: Kind) -> bool {
    let run = run(alloc, row, devices);
    let failed = match kind {
        Kind::Read => run.has_read_failed,
        Kind::Write | Kind::Flush => run.out.has_failed(),
    };
    if !failed {
        run.check(rt, row.shown, row.input);
    }
    failed
}

// Lets each call of this kind fail in turn. Returns how many there are, and how many failures there were.
fn fail_kind(rt: &impl Abort, alloc: Global, row: &Row<'_>, most: usize, kind: Kind) -> (u64, u64) {
    let mut failures = 0_u64;
    for good in 0..CALLS {
        let devices = failing_devices(kind, good, most);
        if !fails(rt, alloc, row, &devices, kind) {
            return (good as u64, failures);
        }
        let wanted = shown_after(row, kind, good, most);
        let messages = fail_messages(rt, alloc, row, devices, wanted);
        failures = failures.saturating_add(1).saturating_add(messages as u64);
    }
    (CALLS as u64, failures)
}

// The number of reads, writes, flushes and writes of its message in a run, and the number of failures.
type Counts = (u64, u64, u64, u64, u64);

// Lets each call of a run fail in turn, with at most this many bytes per call, and compares the numbers of calls and
// failures.
fn fail_each(rt: &impl Abort, alloc: Global, row: &Row<'_>, most: usize, wanted: Counts) {
    let messages = fail_messages(rt, alloc, row, steady_devices(most), row.shown) as u64;
    let (reads, by_reads) = fail_kind(rt, alloc, row, most, Kind::Read);
    let (writes, by_writes) = fail_kind(rt, alloc, row, most, Kind::Write);
    let (flushes, by_flushes) = fail_kind(rt, alloc, row, most, Kind::Flush);
    same_number(rt, reads, wanted.0, row.input);
    same_number(rt, writes, wanted.1, row.input);
    same_number(rt, flushes, wanted.2, row.input);
    same_number(rt, messages, wanted.3, row.input);
    let all = messages
        .saturating_add(by_reads)
        .saturating_add(by_writes)
        .saturating_add(by_flushes);
    same_number(rt, all, wanted.4, row.input);
}

// A row of a run over these words and this input.
fn row_of<'a>(words: &'a [&'a str], input: &'a [u8], shown: Shown<'a>) -> Row<'a> {
    Row {
        words,
        input,
        shown,
    }
}

type Words = &'static [&'static str];

// A run and its result, and its calls with one byte each and with many.
static RUNS: [(Words, &[u8], Shown<'static>, Counts, Counts); 11] = [
    // prints
    (
        &["tffmt"],
        b"a=1\n",
        (b"a = 1\n", b"", 0),
        (5, 6, 1, 0, 331),
        (2, 1, 1, 0, 8),
    ),
    (
        &["tffmt"],
        b"a = 1\n",
        (b"a = 1\n", b"", 0),
        (7, 6, 1, 0, 385),
        (2, 1, 1, 0, 8),
    ),
    (
        &["tffmt"],
        b"",
        (b"", b"", 0),
        (1, 0, 0, 0, 27),
        (1, 0, 0, 0, 2),
    ),
    // checks
    (
        &["tffmt", "--check"],
        b"a = 1\n",
        (b"", b"", 0),
        (7, 0, 0, 0, 189),
        (2, 0, 0, 0, 4),
    ),
    (
        &["tffmt", "--check"],
        b"a=1\n",
        (b"", b"", 3),
        (5, 0, 0, 0, 135),
        (2, 0, 0, 0, 4),
    ),
    // refusals
    (
        &["tffmt"],
        b"a=\n",
        (b"", b"tffmt: error: 1:3: unexpected token\n", 2),
        (4, 0, 0, 36, 144),
        (2, 0, 0, 1, 5),
    ),
    (
        &["tffmt", "--check"],
        b"a=\n",
        (b"", b"tffmt: error: 1:3: unexpected token\n", 2),
        (4, 0, 0, 36, 144),
        (2, 0, 0, 1, 5),
    ),
    (
        &["tffmt"],
        b"a=\"",
        (b"", b"tffmt: error: 1:3: unterminated quote\n", 2),
        (4, 0, 0, 38, 146),
        (2, 0, 0, 1, 5),
    ),
    (
        &["tffmt"],
        b"\xff",
        (b"", b"tffmt: error: 1:1: invalid UTF-8\n", 2),
        (2, 0, 0, 33, 87),
        (2, 0, 0, 1, 5),
    ),
    // words that read nothing
    (
        &["tffmt", "--help"],
        b"a=1\n",
        (b"usage: tffmt [--check] [--help]\n", b"", 0),
        (0, 32, 1, 0, 924),
        (0, 1, 1, 0, 4),
    ),
    (
        &["tffmt", "x"],
        b"a=1\n",
        (b"", b"usage: tffmt [--check] [--help]\n", 2),
        (0, 0, 0, 32, 32),
        (0, 0, 0, 1, 1),
    ),
];

#[test]
fn each_call_fails(rt: HostRuntime) {
    for (words, input, shown, one, many) in &RUNS {
        let row = row_of(words, input, *shown);
        fail_each(&rt, rt.alloc(), &row, 1, *one);
        fail_each(&rt, rt.alloc(), &row, SINK_ROOM, *many);
    }
}

// Checks that a print over devices has this result.
fn shows(rt: &impl Abort, alloc: Global, devices: &Devices, shown: Shown<'_>) {
    let row = row_of(&PRINT, b"a=1\n", shown);
    run(alloc, &row, devices).check(rt, row.shown, row.input);
}

#[test]
fn a_device_fails(rt: HostRuntime) {
    let steady = steady_devices(100);
    let read = Devices {
        most_read: 2,
        read: Some(1),
        ..steady
    };
    shows(&rt, rt.alloc(), &read, (b"", READ_FAILED, 4));
    let write = Devices {
        most_written: 1,
        write: Some(2),
        ..steady
    };
    shows(&rt, rt.alloc(), &write, (b"a ", WRITE_FAILED, 4));
    let no_room = Devices {
        most_written: 0,
        ..steady
    };
    shows(&rt, rt.alloc(), &no_room, (b"", WRITE_FAILED, 4));
    let flush = Devices {
        flush: true,
        ..steady
    };
    shows(&rt, rt.alloc(), &flush, (b"a = 1\n", WRITE_FAILED, 4));
}

// The text with this many bytes after it.
fn lengthen(rt: &impl Abort, alloc: Global, text: &[u8]) -> Vec<u8> {
    let parts = [(text, 1), (b"x", 5_000)];
    repeat_parts(rt, alloc, &parts)
}

#[test]
fn a_full_writer_fails(rt: HostRuntime) {
    let alloc = rt.alloc();
    let print = lengthen(&rt, alloc, b"a = 1\n#");
    let shown = (front(&print, 1, SINK_ROOM), WRITE_FAILED, 4);
    for start in [b"a = 1\n#".as_slice(), b"a=1\n#"] {
        let input = lengthen(&rt, alloc, start);
        let row = row_of(&PRINT, &input, shown);
        run(alloc, &row, &steady_devices(10_000)).check(&rt, row.shown, row.input);
    }
}

#[test]
fn a_writer_of_messages_takes_nothing(rt: HostRuntime) {
    let devices = Devices {
        most_told: 0,
        ..steady_devices(100)
    };
    let row = row_of(&PRINT, b"a=\n", (b"", b"", 4));
    let run = run(rt.alloc(), &row, &devices);
    run.check(&rt, row.shown, row.input);
    holds(&rt, !run.out.has_failed(), row.input);
}
