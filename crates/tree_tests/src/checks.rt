//! Checks the output and the files of a run, by its row and its failures.

use crate::compared::{At, Words, holds, same_bytes, same_number};
use crate::devices::{Devices, Ended};
use crate::expected::{Line, Said, Shown, lines_after, lines_of, shown_lines, shown_text};
use crate::rows::Row;
use hcl_scan::ByteSink;
use std::alloc::Global;
use std::process::Abort;
use tree_devices::calls::Step;
use tree_devices::entry::{MemoryEntry, Stands};

static READ_FAILED: &[u8] = b"tffmt-all: error: read failed\n";

// Whether a file gets its format although this failed: it is overwritten.
fn is_made_good(row: &Row, step: Step) -> bool {
    row.in_place && matches!(step, Step::Making | Step::Renaming)
}

// The expected message for each name.
fn wanted_lines(rt: &impl Abort, alloc: Global, row: &Row, run: &Ended<'_>) -> Vec<Line> {
    let calls = run.tree.calls();
    match calls.failed_step() {
        Some(step) if !is_made_good(row, step) => {
            let failed = (step, calls.failed_name(), calls.fault(step));
            lines_after(rt, alloc, row.lines, failed)
        }
        _ => lines_of(rt, alloc, row.lines),
    }
}

// Whether files are written with these words, and whether the run is quiet.
fn manner_of(words: Words) -> (bool, bool) {
    let mut manner = (true, false);
    for word in words {
        manner = match *word {
            "--check" | "--list" | "--diff" => (false, manner.1),
            "--quiet" => (manner.0, true),
            _ => manner,
        };
    }
    manner
}

// The expected output.
fn expected_run(
    rt: &impl Abort,
    alloc: Global,
    row: &Row,
    lines: &[Line],
    devices: &Devices,
    run: &Ended<'_>,
) -> Shown {
    if run.has_read_failed {
        return shown_text(rt, alloc, (b"", READ_FAILED, 4), devices);
    }
    match row.text {
        Some((out, err, status)) => {
            let text = (out.as_bytes(), err.as_bytes(), status);
            shown_text(rt, alloc, text, devices)
        }
        None => shown_lines(rt, alloc, lines, devices, manner_of(row.words)),
    }
}

fn old_bytes(entry: &MemoryEntry<'static>) -> Option<&'static [u8]> {
    match entry.stands {
        Stands::File(bytes) | Stands::Busy(bytes) | Stands::Same(bytes, _) => Some(bytes),
        _ => None,
    }
}

// The expected bytes of a file after looks at these lines.
fn wanted_bytes(lines: &[Line], entry: &MemoryEntry<'static>) -> Option<&'static [u8]> {
    for line in lines {
        if let Said::Written(name, bytes) = line.said {
            if name == entry.name {
                return Some(bytes);
            }
        }
    }
    old_bytes(entry)
}

// Each file is new if its line says so, and otherwise old.
fn check_files(rt: &impl Abort, row: &Row, lines: &[Line], run: &Ended<'_>, at: At) {
    for entry in row.entries {
        let found = run.tree.bytes_of(entry.name);
        let wanted = wanted_bytes(lines, entry);
        holds(rt, found == wanted, at);
    }
}

// No file is beside others, unless one can't be removed.
fn check_beside(rt: &impl Abort, devices: &Devices, run: &Ended<'_>, at: At) {
    let calls = run.tree.calls();
    let is_left = match calls.failed_step() {
        Some(step) => devices.tree.removal && step.has_file_beside(),
        None => false,
    };
    same_number(rt, calls.beside_count() as u64, u64::from(is_left), at);
}

// The observer is told of each look and each report, and of the end.
fn check_watcher(
    rt: &impl Abort,
    row: &Row,
    (looked, reported): (usize, usize),
    run: &Ended<'_>,
    at: At,
) {
    let ended = u64::from(row.text.is_none() && !run.has_read_failed);
    same_number(rt, run.watcher.looked, looked as u64, at);
    same_number(rt, run.watcher.reported, reported as u64, at);
    same_number(rt, run.watcher.ended, ended, at);
}

/// Checks the output and the files of a run over these devices.
pub fn check(rt: &impl Abort, alloc: Global, row: &Row, devices: &Devices, run: &Ended<'_>) {
    let at = At {
        words: row.words,
        devices: *devices,
    };
    let lines = wanted_lines(rt, alloc, row, run);
    let wanted = expected_run(rt, alloc, row, lines.as_slice(), devices, run);
    same_bytes(rt, run.out.bytes(), wanted.out.as_slice(), at);
    same_bytes(rt, run.err.bytes(), wanted.err.as_slice(), at);
    same_number(rt, u64::from(run.status), u64::from(wanted.status), at);
    let told = (wanted.looked, wanted.told);
    let lines = lines.as_slice().split_at(wanted.looked.min(lines.len())).0;
    check_files(rt, row, lines, run, at);
    check_beside(rt, devices, run, at);
    check_watcher(rt, row, told, run, at);
}
