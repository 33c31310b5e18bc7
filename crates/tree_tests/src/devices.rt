//! Runs of the program over a tree and devices in memory, with calls that can fail.

ghost use Rattle.std.specs.Prelude.{◌≡◌, false};

use command_line::Streams;
use hcl_scan::{ByteSource, MemorySink, MemorySource};
use std::alloc::{AllocError, Global};
use tree_command::run::program;
use tree_devices::calls::{Failures, STEADY};
use tree_devices::entry::MemoryEntry;
use tree_devices::memory_tree::MemoryTree;
use tree_format::outcome::Outcome;
use tree_format::progress::Progress;

/// Whether lines of faults are shown, how many bytes a call of a stream moves at most, which calls of the tree fail,
/// and which of the streams: of each kind the one after this many good ones.
#[derive(Clone, Copy, Debug)]
pub struct Devices {
    pub shows: bool,
    pub most: usize,
    pub tree: Failures,
    pub read: Option<usize>,
    pub write: Option<usize>,
    pub flush: bool,
    pub message: Option<usize>,
}

/// Devices that don't fail.
pub fn steady_devices(most: usize) -> Devices {
    Devices {
        shows: false,
        most,
        tree: STEADY,
        read: None,
        write: None,
        flush: false,
        message: None,
    }
}

/// Counts the events of a run, and shows lines of faults or doesn't.
#[derive(Clone, Copy, Drop)]
pub struct Watcher {
    pub shows: bool,
    pub looked: u64,
    pub reported: u64,
    pub ended: u64,
}

impl Progress for Watcher {
    ghost shows = { λ w. w.shows };

    fn shows_lines(&self) -> bool {
        self.shows
    }

    fn after_look(&mut self, _outcome: &Outcome) {
        self.looked = self.looked.saturating_add(1);
    }

    fn after_report(&mut self) {
        self.reported = self.reported.saturating_add(1);
    }

    fn end(&mut self) {
        self.ended = self.ended.saturating_add(1);
    }
}

/// The state at the end of a run.
#[derive(Drop)]
pub struct Ended<'a> {
    pub tree: MemoryTree<'a>,
    pub watcher: Watcher,
    pub has_read_failed: bool,
    pub out: MemorySink,
    pub err: MemorySink,
    pub status: u8,
}

fn source(bytes: &[u8], most: usize, read: Option<usize>) -> MemorySource<'_>
    ensures { result.has_failed ≡ false }
{
    let source = MemorySource::new(bytes, most.max(1));
    match read {
        Some(good) => source.failing_after(good),
        None => source,
    }
}

fn sink(most: usize, write: Option<usize>, flush: bool) -> MemorySink
    ensures { result.has_failed ≡ false }
{
    let sink = match write {
        Some(good) => MemorySink::new(most).failing_after(good),
        None => MemorySink::new(most),
    };
    if flush { sink.failing_flush() } else { sink }
}

/// The words as the process has them.
pub fn words_as_bytes<'a>(alloc: Global, words: &[&'a str]) -> Result<Vec<&'a [u8]>, AllocError> {
    let mut all = Vec::new(alloc);
    for word in words {
        if all.push(word.as_bytes()).is_err() {
            return Err(AllocError);
        }
    }
    Ok(all)
}

/// Runs the program on a tree of these entries, with words that are texts. If there is no memory for the tree, it
/// doesn't run.
pub fn run<'a>(
    alloc: Global,
    words: &[&str],
    names: &[u8],
    entries: &'a [MemoryEntry<'a>],
    devices: &Devices,
) -> Result<Ended<'a>, AllocError> {
    let words = words_as_bytes(alloc, words)?;
    run_bytes(alloc, words.as_slice(), names, entries, devices)
}

/// Runs the program on a tree of these entries, with words that may be any bytes.
pub fn run_bytes<'a>(
    alloc: Global,
    words: &[&[u8]],
    names: &[u8],
    entries: &'a [MemoryEntry<'a>],
    devices: &Devices,
) -> Result<Ended<'a>, AllocError> {
    let mut tree = MemoryTree::new(alloc, entries, devices.tree)?;
    let mut watcher = Watcher {
        shows: devices.shows,
        looked: 0,
        reported: 0,
        ended: 0,
    };
    let mut input = source(names, devices.most, devices.read);
    let mut streams = Streams {
        out: sink(devices.most, devices.write, devices.flush),
        err: sink(devices.most, devices.message, false),
    };
    let status = program(
        alloc,
        words,
        &mut tree,
        &mut watcher,
        &mut input,
        &mut streams,
    );
    let Streams { out, err } = streams;
    Ok(Ended {
        has_read_failed: input.has_failed(),
        tree,
        watcher,
        out,
        err,
        status,
    })
}
