//! The expected output of a run, from the message for each name: worked out by the stated rules, apart from the
//! program.

use crate::devices::Devices;
use file_tree::fault::TreeFault;
use std::alloc::Global;
use std::process::Abort;
use tree_devices::calls::Step;

/// The outcome for a name.
#[derive(Clone, Copy)]
pub enum Said {
    Formatted,
    /// The file of this name then has these bytes.
    Written(&'static [u8], &'static [u8]),
    Listed,
    NotFormatted,
    Shown(&'static [u8]),
    /// Refused at a line and a column.
    Refused(&'static str, &'static str, &'static str),
    Failed(TreeFault),
}

impl Said {
    fn is_formatted(self) -> bool {
        matches!(self, Said::Formatted)
    }

    /// The status that it gives.
    fn status(self) -> u8 {
        match self {
            Said::Formatted | Said::Written(_, _) => 0,
            Said::Listed | Said::NotFormatted | Said::Shown(_) => 3,
            Said::Refused(_, _, _) => 2,
            Said::Failed(_) => 4,
        }
    }
}

/// How many of the lines have this status.
fn count_of(lines: &[Line], status: u8) -> usize {
    lines
        .iter()
        .filter(|line| line.said.status() == status)
        .count()
}

/// The outcomes for the found names, in order.
pub type Lines = &'static [(&'static [u8], Said)];

/// A name and its outcome.
#[derive(Drop)]
pub struct Line {
    pub name: Vec<u8>,
    pub said: Said,
}

fn add_line(rt: &impl Abort, alloc: Global, lines: &mut Vec<Line>, name: &[u8], said: Said) {
    let name = Vec::from_slice(alloc, name).expect(rt, "memory");
    lines.push(Line { name, said }).expect(rt, "memory");
}

/// The lines of a run in which no call of the tree fails.
pub fn lines_of(rt: &impl Abort, alloc: Global, all: Lines) -> Vec<Line> {
    let mut lines = Vec::new(alloc);
    for (name, said) in all {
        add_line(rt, alloc, &mut lines, name, *said);
    }
    lines
}

/// Whether a name is below a folder, which may end with a slash.
fn is_below(folder: &[u8], name: &[u8]) -> bool {
    if folder == b"./".as_slice() || folder == b".".as_slice() {
        return true;
    }
    let folder = folder.strip_suffix(b"/".as_slice()).unwrap_or(folder);
    match name.strip_prefix(folder) {
        Some(rest) => rest.starts_with(b"/"),
        None => false,
    }
}

/// Whether the only outcome for a name is that this failed.
fn hides(step: Step, failed: &[u8], name: &[u8]) -> bool {
    match step {
        Step::Kind | Step::EntryKind | Step::Listing => name == failed || is_below(failed, name),
        _ => name == failed,
    }
}

/// The lines of a run in which a call of the tree fails: they say so, in place of everything that the failure hides.
pub fn lines_after(
    rt: &impl Abort,
    alloc: Global,
    all: Lines,
    (step, failed, fault): (Step, &[u8], TreeFault),
) -> Vec<Line> {
    let mut lines = Vec::new(alloc);
    let mut is_told = false;
    for (name, said) in all {
        if !is_told && failed < *name {
            add_line(rt, alloc, &mut lines, failed, Said::Failed(fault));
            is_told = true;
        }
        if !hides(step, failed, name) {
            add_line(rt, alloc, &mut lines, name, *said);
        }
    }
    if !is_told {
        add_line(rt, alloc, &mut lines, failed, Said::Failed(fault));
    }
    lines
}

/// A writer that takes at most this many bytes per call, and fails after this many good calls.
#[derive(Drop)]
struct Writer {
    taken: Vec<u8>,
    most: usize,
    good: Option<usize>,
    has_failed: bool,
}

impl Writer {
    fn new(alloc: Global, most: usize, good: Option<usize>) -> Writer {
        Writer {
            taken: Vec::new(alloc),
            most,
            good,
            has_failed: false,
        }
    }

    fn take(&mut self, rt: &impl Abort, part: &[u8]) {
        if self.has_failed || self.good == Some(0) {
            self.has_failed = true;
            return;
        }
        self.good = match self.good {
            Some(good) => Some(good.saturating_sub(1)),
            None => None,
        };
        self.taken.extend_from_slice(part).expect(rt, "memory");
    }

    fn push_chunks(&mut self, rt: &impl Abort, text: &[u8]) {
        for part in text.chunks(self.most.max(1)) {
            self.take(rt, part);
        }
    }

    fn put_all(&mut self, rt: &impl Abort, parts: &[&[u8]]) {
        for part in parts {
            self.push_chunks(rt, part);
        }
    }
}

/// Both streams of a run.
#[derive(Drop)]
struct Streams {
    out: Writer,
    err: Writer,
}

impl Streams {
    fn new(alloc: Global, devices: &Devices) -> Streams {
        Streams {
            out: Writer::new(alloc, devices.most, devices.write),
            err: Writer::new(alloc, devices.most, devices.message),
        }
    }

    fn has_failed(&self) -> bool {
        self.out.has_failed || self.err.has_failed
    }

    fn tell_about(&mut self, rt: &impl Abort, name: &[u8], text: &str) {
        self.err.put_all(rt, &[name, b": ", text.as_bytes(), b"\n"]);
    }

    fn tell_place(
        &mut self,
        rt: &impl Abort,
        name: &[u8],
        (line, column): (&str, &str),
        text: &str,
    ) {
        let line = line.as_bytes();
        let column = column.as_bytes();
        let text = text.as_bytes();
        self.err
            .put_all(rt, &[name, b":", line, b":", column, b": ", text, b"\n"]);
    }

    fn tell(&mut self, rt: &impl Abort, line: &Line) {
        let name = line.name.as_slice();
        match line.said {
            Said::Formatted => {}
            Said::Written(_, _) | Said::Listed => self.out.put_all(rt, &[name, b"\n"]),
            Said::NotFormatted => self.tell_about(rt, name, "not formatted"),
            Said::Shown(text) => self.out.push_chunks(rt, text),
            Said::Refused(line, column, text) => self.tell_place(rt, name, (line, column), text),
            Said::Failed(fault) => self.tell_about(rt, name, fault.text()),
        }
    }

    /// Writes the lines up to the first that can't be written. Returns how many there were, how many of them were
    /// written, and the status.
    fn tell_all(&mut self, rt: &impl Abort, lines: &[Line]) -> (usize, usize, u8) {
        let mut count = 0_usize;
        let mut status = 0;
        for line in lines {
            count = count.saturating_add(1);
            self.tell(rt, line);
            if self.has_failed() {
                return (count, count.saturating_sub(1), 4);
            }
            status = worse_status(status, line.said.status());
        }
        (count, count, status)
    }

    /// Reports that standard output failed, if it did.
    fn finish(&mut self, rt: &impl Abort) {
        if self.out.has_failed && !self.err.has_failed {
            self.err
                .push_chunks(rt, b"tffmt-all: error: write failed\n");
        }
    }

    fn tell_number(&mut self, rt: &impl Abort, alloc: Global, number: usize) {
        let text = format!(in alloc; "{number}").expect(rt, "memory");
        self.err.push_chunks(rt, text.as_bytes());
    }

    /// Writes how many files have this outcome, if any.
    fn tell_count(&mut self, rt: &impl Abort, alloc: Global, number: usize, word: &[u8]) {
        if number > 0 {
            self.err.push_chunks(rt, b", ");
            self.tell_number(rt, alloc, number);
            self.err.push_chunks(rt, word);
        }
    }

    /// Writes the outcomes of all files.
    fn tell_tally(&mut self, rt: &impl Abort, alloc: Global, lines: &[Line], writes: bool) {
        if lines.is_empty() {
            self.err.push_chunks(rt, b"no files found\n");
            return;
        }
        let refused = count_of(lines, 2);
        let failed = count_of(lines, 4);
        let unchanged = lines.iter().filter(|line| line.said.is_formatted()).count();
        let others = refused.saturating_add(failed).saturating_add(unchanged);
        let changed = lines.len().saturating_sub(others);
        self.tell_number(rt, alloc, changed);
        self.err
            .push_chunks(rt, if changed == 1 { b" file" } else { b" files" });
        self.err.push_chunks(
            rt,
            if writes {
                b" formatted, "
            } else {
                b" not formatted, "
            },
        );
        self.tell_number(rt, alloc, unchanged);
        self.err.push_chunks(rt, b" unchanged");
        self.tell_count(rt, alloc, refused, b" refused");
        self.tell_count(rt, alloc, failed, b" failed");
        self.err.push_chunks(rt, b"\n");
    }

    /// Writes the last messages of a run over these lines.
    fn end(
        &mut self,
        rt: &impl Abort,
        alloc: Global,
        lines: &[Line],
        (writes, quiet): (bool, bool),
    ) {
        self.finish(rt);
        if !quiet && !self.has_failed() {
            self.tell_tally(rt, alloc, lines, writes);
        }
    }
}

// 4 is worse than 2, and 2 than 3.
fn worse_status(one: u8, other: u8) -> u8 {
    for status in [4, 2, 3] {
        if one == status || other == status {
            return status;
        }
    }
    0
}

/// The output of a run, the number of lines that it has looked at, and the number that it wrote.
#[derive(Drop)]
pub struct Shown {
    pub out: Vec<u8>,
    pub err: Vec<u8>,
    pub status: u8,
    pub looked: usize,
    /// The number that it wrote whole.
    pub told: usize,
}

impl Shown {
    fn of(streams: Streams, status: u8, (looked, told): (usize, usize)) -> Shown {
        let status = if streams.has_failed() { 4 } else { status };
        Shown {
            out: streams.out.taken,
            err: streams.err.taken,
            status,
            looked,
            told,
        }
    }
}

/// The output of a run with these lines, given whether it writes files and is quiet.
pub fn shown_lines(
    rt: &impl Abort,
    alloc: Global,
    lines: &[Line],
    devices: &Devices,
    manner: (bool, bool),
) -> Shown {
    let mut streams = Streams::new(alloc, devices);
    let (looked, told, status) = streams.tell_all(rt, lines);
    streams.end(rt, alloc, lines, manner);
    Shown::of(streams, status, (looked, told))
}

/// The output of a run that looks at nothing and writes one text to each stream.
pub fn shown_text(
    rt: &impl Abort,
    alloc: Global,
    (out, err, status): (&[u8], &[u8], u8),
    devices: &Devices,
) -> Shown {
    let mut streams = Streams::new(alloc, devices);
    streams.out.push_chunks(rt, out);
    if devices.flush && !out.is_empty() {
        streams.out.has_failed = true;
    }
    streams.finish(rt);
    streams.err.push_chunks(rt, err);
    Shown::of(streams, status, (0, 0))
}
