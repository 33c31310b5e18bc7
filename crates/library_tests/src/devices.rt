//! Devices over readers and writers of std that fail once and then work. No contract sees how often a device calls the
//! reader or writer below it.

use crate::checks::{check_same, flushes, holds, reads, same_bytes, writes_fully};
use hcl_source::{Failed, FromRead, LoadError, Source, ToWrite, WriteFault};
use std::alloc::Global;
use std::io;
use std::io::{ErrorKind, Read, Write};
use std::process::Abort;

// A call that is interrupted is what a loop would most likely repeat.
const KINDS: [ErrorKind; 3] = [
    ErrorKind::Interrupted,
    ErrorKind::WouldBlock,
    ErrorKind::BrokenPipe,
];

// Gives one byte per call, and fails at one call.
#[derive(Drop)]
struct Flaky {
    bytes: &'static [u8],
    calls: u32,
    fails_at: u32,
    kind: ErrorKind,
}

impl Read for Flaky {
    fn read(&mut self, buf: &mut [u8]) -> io::Result<usize> {
        self.calls = self.calls.saturating_add(1);
        if self.calls == self.fails_at {
            return Err(io::Error::from(self.kind));
        }
        match (self.bytes.split_first(), buf.first_mut()) {
            (Some((byte, rest)), Some(place)) => {
                *place = *byte;
                self.bytes = rest;
                Ok(1)
            }
            _ => Ok(0),
        }
    }
}

// Takes at most three bytes per call. One write fails, or takes nothing if no kind is given, and one flush.
#[derive(Drop)]
struct Choppy {
    taken: Vec<u8>,
    writes: u32,
    flushes: u32,
    bad_write: u32,
    bad_flush: u32,
    kind: Option<ErrorKind>,
}

impl Write for Choppy {
    fn write(&mut self, buf: &[u8]) -> io::Result<usize> {
        self.writes = self.writes.saturating_add(1);
        let is_bad = self.writes == self.bad_write;
        match self.kind {
            Some(kind) if is_bad => Err(io::Error::from(kind)),
            _ => {
                let most = if is_bad { 0 } else { buf.len().min(3) };
                self.taken.extend_from_slice(&buf[..most])?;
                Ok(most)
            }
        }
    }

    fn flush(&mut self) -> io::Result<()> {
        self.flushes = self.flushes.saturating_add(1);
        match self.kind {
            Some(kind) if self.flushes == self.bad_flush => Err(io::Error::from(kind)),
            _ => Ok(()),
        }
    }
}

/// A reader of `a=1` and a line feed.
fn flaky_reader(fails_at: u32, kind: ErrorKind) -> Flaky {
    Flaky {
        bytes: b"a=1\n",
        calls: 0,
        fails_at,
        kind,
    }
}

/// A writer that has taken nothing yet.
fn choppy_writer(alloc: Global, bad_write: u32, bad_flush: u32, kind: Option<ErrorKind>) -> Choppy {
    Choppy {
        taken: Vec::new(alloc),
        writes: 0,
        flushes: 0,
        bad_write,
        bad_flush,
        kind,
    }
}

/// Checks how often the writer was called, and the bytes that it has taken.
fn was_called(rt: &impl Abort, writer: &Choppy, writes: u32, flushes: u32, taken: &[u8]) {
    check_same(rt, &writer.writes, &writes, "the count of writes");
    check_same(rt, &writer.flushes, &flushes, "the count of flushes");
    same_bytes(rt, writer.taken.as_slice(), taken, "the bytes taken");
}

#[test]
fn a_failed_read_is_not_tried_again(rt: HostRuntime) {
    for kind in KINDS {
        let mut reader = flaky_reader(2, kind);
        let mut from = FromRead::new(&mut reader);
        let mut buffer = [0; 8];
        reads(&rt, &mut from, &mut buffer, Ok(1));
        reads(&rt, &mut from, &mut buffer, Err(Failed));
        check_same(&rt, &reader.calls, &2, "the count of reads");
        same_bytes(&rt, reader.bytes, b"=1\n", "the bytes left");
    }
}

#[test]
fn no_source_after_a_failed_read(rt: HostRuntime) {
    for kind in KINDS {
        let mut reader = flaky_reader(3, kind);
        let loaded = Source::read_from(rt.alloc(), &mut FromRead::new(&mut reader));
        let is_failed = matches!(loaded, Err(LoadError::ReadFailed));
        holds(&rt, is_failed, "a failed read");
        check_same(&rt, &reader.calls, &3, "the count of reads");
    }
}

#[test]
fn a_failed_write_is_not_repeated(rt: HostRuntime) {
    for kind in [None, Some(KINDS[0]), Some(KINDS[1]), Some(KINDS[2])] {
        let mut writer = choppy_writer(rt.alloc(), 2, 0, kind);
        let mut to = ToWrite::new(&mut writer);
        writes_fully(&rt, &mut to, b"a = 1\n", Err(WriteFault { written: 3 }));
        was_called(&rt, &writer, 2, 0, b"a =");
    }
}

#[test]
fn a_flush_is_handed_on(rt: HostRuntime) {
    let mut writer = choppy_writer(rt.alloc(), 0, 2, Some(ErrorKind::Interrupted));
    let mut to = ToWrite::new(&mut writer);
    writes_fully(&rt, &mut to, b"a = 1\n", Ok(()));
    flushes(&rt, &mut to, Ok(()));
    flushes(&rt, &mut to, Err(Failed));
    was_called(&rt, &writer, 2, 2, b"a = 1\n");
}
