//! Runs in which every call fails in turn: each call of the tree, each read of each file, each read of the names, each
//! write of standard output and the flush that a run reaches, and with each of them each write of the messages, with
//! one byte per call of a stream and with many.

use crate::checks::check;
use crate::compared::{At, same_number};
use crate::devices::{Devices, Ended, run, steady_devices};
use crate::rows::{
    BAD_WORD, CHECKS, LISTS, NAMES_GIVEN, OF_EACH_KIND, ONLY_IN_PLACE, Row, SHOWS, SYNCS, VERSION,
    WRITES, WRITES_IN_PLACE,
};
use hcl_scan::{ByteSink, SINK_ROOM};
use std::alloc::Global;
use std::process::Abort;
use tree_devices::calls::{Failures, STEADY};

// More calls of one kind than any run here makes.
const CALLS: usize = 1_000;

// More files than any run here opens.
const FILES: usize = 10;

// A kind of call: one of the tree, a read of the file that is opened at this number, a read of the names, a write of standard
// output, its flush, a write of a message.
#[derive(Clone, Copy)]
enum Kind {
    Tree,
    File(usize),
    Input,
    Write,
    Flush,
    Message,
}

// These devices with a further failure: the call of this kind after this many good ones. A flush fails at once.
fn failing_devices(kind: Kind, good: usize, others: Devices) -> Devices {
    match kind {
        Kind::Tree => Devices {
            tree: Failures {
                call: Some(good),
                ..others.tree
            },
            ..others
        },
        Kind::File(number) => Devices {
            tree: Failures {
                read: Some((number, good)),
                ..others.tree
            },
            ..others
        },
        Kind::Input => Devices {
            read: Some(good),
            ..others
        },
        Kind::Write => Devices {
            write: Some(good),
            ..others
        },
        Kind::Flush => Devices {
            flush: good == 0,
            ..others
        },
        Kind::Message => Devices {
            message: Some(good),
            ..others
        },
    }
}

// Whether a run reached the call of this kind that fails.
fn is_reached(kind: Kind, run: &Ended<'_>) -> bool {
    match kind {
        Kind::Tree | Kind::File(_) => run.tree.calls().failed_step().is_some(),
        Kind::Input => run.has_read_failed,
        Kind::Write | Kind::Flush => run.out.has_failed(),
        Kind::Message => run.err.has_failed(),
    }
}

// Runs over these devices and checks the result. Returns whether the call of this kind failed.
fn fails(rt: &impl Abort, alloc: Global, row: &Row, devices: &Devices, kind: Kind) -> bool {
    let run = run(alloc, row.words, row.input, row.entries, devices).expect(rt, "memory");
    check(rt, alloc, row, devices, &run);
    is_reached(kind, &run)
}

// Lets each write of the messages fail in turn, beside other failures. Returns how many failed.
fn fail_messages(rt: &impl Abort, alloc: Global, row: &Row, others: Devices) -> u64 {
    for good in 0..CALLS {
        let devices = failing_devices(Kind::Message, good, others);
        if !fails(rt, alloc, row, &devices, Kind::Message) {
            return good as u64;
        }
    }
    CALLS as u64
}

// Lets each call of this kind fail in turn, and with it each write of the messages. Returns how many runs failed.
fn fail_kind(rt: &impl Abort, alloc: Global, row: &Row, others: Devices, kind: Kind) -> u64 {
    let mut failures = 0_u64;
    for good in 0..CALLS {
        let devices = failing_devices(kind, good, others);
        if !fails(rt, alloc, row, &devices, kind) {
            return failures;
        }
        let messages = fail_messages(rt, alloc, row, devices);
        failures = failures.saturating_add(1).saturating_add(messages);
    }
    failures
}

// Lets each read of each file fail in turn.
fn fail_files(rt: &impl Abort, alloc: Global, row: &Row, others: Devices) -> u64 {
    let mut failures = 0_u64;
    for number in 0..FILES {
        let more = fail_kind(rt, alloc, row, others, Kind::File(number));
        failures = failures.saturating_add(more);
    }
    failures
}

// Lets each call of a run fail in turn. Returns how many runs failed.
fn fail_each(rt: &impl Abort, alloc: Global, row: &Row, others: Devices) -> u64 {
    let mut failures = fail_messages(rt, alloc, row, others);
    for kind in [Kind::Tree, Kind::Input, Kind::Write, Kind::Flush] {
        let more = fail_kind(rt, alloc, row, others, kind);
        failures = failures.saturating_add(more);
    }
    failures.saturating_add(fail_files(rt, alloc, row, others))
}

// Lets each call of a run fail in turn, with at most this many bytes per call of a stream. Returns how many runs
// failed.
fn fail_by(rt: &impl Abort, alloc: Global, row: &Row, tree: Failures, most: usize) -> u64 {
    let tree = Failures {
        making: row.making,
        ..tree
    };
    let devices = Devices {
        tree,
        ..steady_devices(most)
    };
    fail_each(rt, alloc, row, devices)
}

// Lets each call of a run fail in turn, with this many bytes per call of a stream, and compares how many runs failed.
fn fail_at(rt: &impl Abort, alloc: Global, row: &Row, tree: Failures, most: usize, wanted: u64) {
    let at = At {
        words: row.words,
        devices: steady_devices(most),
    };
    same_number(rt, fail_by(rt, alloc, row, tree, most), wanted, at);
}

// Lets each call of a run fail in turn, with one byte per call and with many, and compares how many runs failed.
fn fail_row(
    rt: &impl Abort,
    alloc: Global,
    row: &Row,
    tree: Failures,
    (by_bytes, by_rooms): (u64, u64),
) {
    fail_at(rt, alloc, row, tree, 1, by_bytes);
    fail_at(rt, alloc, row, tree, SINK_ROOM, by_rooms);
}

#[test]
fn each_call_fails(rt: HostRuntime) {
    fail_row(&rt, rt.alloc(), &WRITES, STEADY, (4_014, 606));
}

// A file that was made beside another and can't be removed is left there.
#[test]
fn each_removal_fails(rt: HostRuntime) {
    let tree = Failures {
        removal: true,
        ..STEADY
    };
    fail_row(&rt, rt.alloc(), &WRITES, tree, (4_014, 606));
}

#[test]
fn each_call_fails_where_files_are_flushed(rt: HostRuntime) {
    fail_row(&rt, rt.alloc(), &SYNCS, STEADY, (4_281, 648));
}

#[test]
fn each_call_fails_where_files_are_written_over(rt: HostRuntime) {
    fail_row(&rt, rt.alloc(), &WRITES_IN_PLACE, STEADY, (3_741, 564));
}

#[test]
fn each_call_fails_where_no_file_can_be_made(rt: HostRuntime) {
    fail_row(&rt, rt.alloc(), &ONLY_IN_PLACE, STEADY, (3_618, 543));
}

#[test]
fn each_call_fails_where_names_are_given(rt: HostRuntime) {
    fail_row(&rt, rt.alloc(), &NAMES_GIVEN, STEADY, (2_763, 354));
}

#[test]
fn each_call_fails_beside_files_of_each_kind(rt: HostRuntime) {
    fail_at(&rt, rt.alloc(), &OF_EACH_KIND, STEADY, 1, 8_875);
}

#[test]
fn each_call_of_many_bytes_fails_beside_files_of_each_kind(rt: HostRuntime) {
    fail_at(&rt, rt.alloc(), &OF_EACH_KIND, STEADY, SINK_ROOM, 1_193);
}

#[test]
fn each_call_fails_where_files_are_checked(rt: HostRuntime) {
    fail_row(&rt, rt.alloc(), &CHECKS, STEADY, (3_280, 602));
}

#[test]
fn each_call_fails_where_files_are_listed(rt: HostRuntime) {
    fail_row(&rt, rt.alloc(), &LISTS, STEADY, (1_573, 206));
}

#[test]
fn each_call_fails_where_differences_are_shown(rt: HostRuntime) {
    fail_row(&rt, rt.alloc(), &SHOWS, STEADY, (2_287, 148));
}

#[test]
fn each_call_fails_where_no_file_is_looked_at(rt: HostRuntime) {
    fail_row(&rt, rt.alloc(), &VERSION, STEADY, (544, 4));
    fail_row(&rt, rt.alloc(), &BAD_WORD, STEADY, (230, 1));
}
