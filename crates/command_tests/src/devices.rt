//! Devices that count their calls, and a sink with calls that can fail.

ghost use Rattle.std.specs.Prelude.{◌≡◌, false};

use hcl_scan::MemorySink;
use std::alloc::Global;
use std::io;
use std::io::{ErrorKind, Read, Write};

/// Gives its bytes at one call, counts its calls, and fails at one of them.
#[derive(Drop)]
pub struct Reader<'a> {
    pub bytes: &'a [u8],
    pub calls: u32,
    pub fails_at: u32,
}

impl<'a> Reader<'a> {
    pub fn new(bytes: &'a [u8], fails_at: u32) -> Self {
        Reader {
            bytes,
            calls: 0,
            fails_at,
        }
    }
}

impl<'a> Read for Reader<'a> {
    fn read(&mut self, buf: &mut [u8]) -> io::Result<usize> {
        self.calls = self.calls.saturating_add(1);
        if self.calls == self.fails_at {
            return Err(io::Error::from(ErrorKind::Interrupted));
        }
        let mut bytes = self.bytes;
        let count = bytes.read(buf)?;
        self.bytes = bytes;
        Ok(count)
    }
}

/// Takes all, counts its calls, and fails at one of them. A failed call works when it is made again.
#[derive(Drop)]
pub struct Writer {
    pub taken: Vec<u8>,
    pub writes: u32,
    pub flushes: u32,
    /// How many bytes it had taken at the last flush.
    pub at_flush: u64,
    pub bad_write: u32,
    pub bad_flush: u32,
}

impl Writer {
    pub fn new(alloc: Global, bad_write: u32, bad_flush: u32) -> Writer {
        Writer {
            taken: Vec::new(alloc),
            writes: 0,
            flushes: 0,
            at_flush: 0,
            bad_write,
            bad_flush,
        }
    }
}

impl Write for Writer {
    fn write(&mut self, buf: &[u8]) -> io::Result<usize> {
        self.writes = self.writes.saturating_add(1);
        if self.writes == self.bad_write {
            return Err(io::Error::from(ErrorKind::Interrupted));
        }
        self.taken.extend_from_slice(buf)?;
        Ok(buf.len())
    }

    fn flush(&mut self) -> io::Result<()> {
        self.flushes = self.flushes.saturating_add(1);
        self.at_flush = self.taken.len() as u64;
        if self.flushes == self.bad_flush {
            return Err(io::Error::from(ErrorKind::Interrupted));
        }
        Ok(())
    }
}

/// A sink that takes at most this many bytes per call, whose write after this many good ones fails, and whose flush may.
pub fn sink(most: usize, write: Option<usize>, flush: bool) -> MemorySink
    ensures { result.has_failed ≡ false }
{
    let sink = match write {
        Some(good) => MemorySink::new(most).failing_after(good),
        None => MemorySink::new(most),
    };
    if flush { sink.failing_flush() } else { sink }
}
