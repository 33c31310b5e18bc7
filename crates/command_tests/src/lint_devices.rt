//! Runs of the linter over devices in memory, with calls that can fail.

use crate::compared::{Files, Shown, first_text, same_number, same_shown};
use crate::devices::{Writer, sink};
use crate::memory_files::{FileFailure, MemoryFiles};
use hcl_scan::{ByteSink, MemorySink, SINK_ROOM, ToWrite};
use std::alloc::Global;
use std::process::Abort;
use tfrules_command::module_files::ModuleFiles;
use tfrules_command::run::program;

/// How many bytes a call moves at most, and the failing calls: of each kind the one after this many good ones.
#[derive(Clone, Copy)]
pub struct Devices {
    pub most: usize,
    pub file: FileFailure,
    pub write: Option<usize>,
    pub flush: bool,
    pub message: Option<usize>,
}

/// Devices that don't fail.
pub fn steady_devices(most: usize) -> Devices {
    Devices {
        most,
        file: FileFailure::None,
        write: None,
        flush: false,
        message: None,
    }
}

/// The state at the end of a run.
#[derive(Drop)]
pub struct Outcome {
    pub opened: u64,
    pub given_back: u64,
    pub has_file_failed: bool,
    pub out: MemorySink,
    pub err: MemorySink,
    pub status: u8,
}

impl Outcome {
    pub fn outputs(&self) -> Shown<'_> {
        (self.out.bytes(), self.err.bytes(), self.status)
    }

    /// Checks the result of the run over these files.
    pub fn check(&self, rt: &impl Abort, wanted: Shown<'_>, files: Files<'_>) {
        same_shown(rt, self.outputs(), wanted, first_text(files));
    }
}

/// Runs the program on a module.
pub fn run(alloc: Global, words: &[&str], files: Files<'_>, devices: &Devices) -> Outcome {
    let mut module = MemoryFiles::new(files, devices.most, devices.file);
    let mut out = sink(devices.most, devices.write, devices.flush);
    let mut err = sink(devices.most, devices.message, false);
    let status = program(alloc, words, &mut module, &mut out, &mut err);
    Outcome {
        opened: module.open_count() as u64,
        given_back: module.given_back() as u64,
        has_file_failed: module.has_failed(),
        out,
        err,
        status,
    }
}

/// Runs the program on a module over writers that count, and compares its result, and that it flushes once everything
/// is written, or not at all if nothing is.
pub fn flushes_at_the_end(
    rt: &impl Abort,
    alloc: Global,
    words: &[&str],
    files: Files<'_>,
    wanted: Shown<'_>,
) {
    let mut module = MemoryFiles::new(files, SINK_ROOM, FileFailure::None);
    let mut written = Writer::new(alloc, 0, 0);
    let mut told = Writer::new(alloc, 0, 0);
    let mut out = ToWrite::new(&mut written);
    let mut err = ToWrite::new(&mut told);
    let status = program(alloc, words, &mut module, &mut out, &mut err);
    let text = first_text(files);
    let shown = (written.taken.as_slice(), told.taken.as_slice(), status);
    same_shown(rt, shown, wanted, text);
    let flushes = u64::from(!wanted.0.is_empty());
    same_number(rt, u64::from(written.flushes), flushes, text);
    same_number(rt, written.at_flush, wanted.0.len() as u64, text);
    same_number(rt, u64::from(told.flushes), 0, text);
}
