//! Devices in memory, for tests of code that runs over devices.

ghost use Rattle.std.specs.Prelude.{◌≡◌, ◌<◌, ◌≤◌, ◌==◌, ◌&&◌, ◌++◌, [], Some, None, true, false, length, take, drop, IfOk, OnOk, OnErr, is_err};
ghost use Rattle.hcl_source.specs.Devices.{one_more};
ghost use Rattle.hcl_source.specs.Memory.{sink_room, is_due, one_less, read_len, write_len, write_fails};

use crate::device::{ByteSink, ByteSource, Failed, Flushes};
use std::marker::Model;

/// The most bytes that a `MemorySink` takes.
pub const SINK_ROOM: usize = 4_096;

/// No good call remains before the one that fails.
fn is_due(good: Option<usize>) -> bool
    ensures { result ≡ is_due good }
{
    match good {
        None => false,
        Some(good) => good == 0,
    }
}

/// The good calls that remain after one of them.
fn one_less(good: Option<usize>) -> Option<usize>
    ensures { result ≡ one_less good }
{
    match good {
        None => None,
        Some(good) => Some(good.saturating_sub(1)),
    }
}

/// A source that gives at most a set number of bytes per call, and can be set to fail at one call. A failed call moves
/// nothing.
#[derive(Drop)]
pub struct MemorySource<'a> {
    rest: &'a [u8],
    most: usize,
    good_reads: Option<usize>,
    has_failed: bool,
}

impl<'a> Model for MemorySource<'a> {
    ghost use Rattle.std.specs.Prelude.{◌<◌};
    ghost use Rattle.hcl_source.specs.Memory.{Giving};

    ghost Value = { Giving };

    ghost view = { λ s. record {
      rest = s.rest.now;
      most = s.most;
      good_reads = s.good_reads;
      has_failed = s.has_failed;
    } };

    ghost invariant = { λ s. 0 < s.most };
}

impl<'a> MemorySource<'a> {
    /// A source of these bytes that doesn't fail.
    pub fn new(bytes: &'a [u8], most: usize) -> Self
        requires { 0 < most }
        ensures { result ≡ record {
          rest = bytes.now;
          most = most;
          good_reads = None;
          has_failed = false;
        } }
    {
        MemorySource {
            rest: bytes,
            most,
            good_reads: None,
            has_failed: false,
        }
    }

    /// This source, set to fail at the read after a number of reads.
    pub fn failing_after(self, reads: usize) -> Self
        ensures { result ≡ record self.entry { good_reads = Some reads } }
    {
        MemorySource {
            rest: self.rest,
            most: self.most,
            good_reads: Some(reads),
            has_failed: self.has_failed,
        }
    }

    /// The remaining bytes.
    pub fn rest(&self) -> &'a [u8]
        ensures { result.now ≡ self.now.rest }
    {
        self.rest
    }

    /// Fills the buffer from its front with as many bytes as a call gives, or fails.
    pub fn give(&mut self, buffer: &mut [u8]) -> Result<usize, Failed>
        requires { self.old.has_failed ≡ false }
        ensures fails { is_err result ≡ is_due self.old.good_reads }
        ensures count { IfOk result (λ n. n ≡ read_len self.old (length buffer.old)) }
        ensures bytes { IfOk result (λ n. buffer.new ≡ take n self.old.rest ++ drop n buffer.old) }
        ensures ok { IfOk result (λ n. self.new
            ≡ record self.old {
              rest = drop n self.old.rest;
              good_reads = one_less self.old.good_reads;
            }) }
        ensures end { IfOk result (λ n. n ≡ 0 → 0 < length buffer.old → self.old.rest ≡ []) }
        ensures err { OnErr result (self.new ≡ record self.old { has_failed = true }) }
        ensures unmoved { OnErr result (buffer.new ≡ buffer.old) }
    {
        if is_due(self.good_reads) {
            self.has_failed = true;
            return Err(Failed);
        }
        let count = self.most.min(buffer.len()).min(self.rest.len());
        let (front, rest) = self.rest.split_at(count);
        buffer[..count].copy_from_slice(front);
        self.rest = rest;
        self.good_reads = one_less(self.good_reads);
        Ok(count)
    }
}

impl<'a> ByteSource for MemorySource<'a> {
    ghost left = { λ s. Some s.rest };

    ghost failed = { λ s. s.has_failed };

    fn read(&mut self, buffer: &mut [u8]) -> Result<usize, Failed> {
        self.give(buffer)
    }

    fn has_failed(&self) -> bool {
        self.has_failed
    }
}

/// A sink with room for `SINK_ROOM` bytes, which doesn't grow. It takes at most a set number of bytes per call. It
/// fails if it can take none of some bytes, and it can be set to fail at one write and at the first flush. A failed
/// call moves nothing.
#[derive(Drop)]
pub struct MemorySink {
    buffer: [u8; SINK_ROOM],
    len: usize,
    most: usize,
    good_writes: Option<usize>,
    flush_fails: bool,
    has_failed: bool,
    is_flushed: bool,
    flushes: Flushes,
}

impl Model for MemorySink {
    ghost use Rattle.std.specs.Prelude.{◌≤◌, take};
    ghost use Rattle.hcl_source.specs.Memory.{Taking, sink_room};

    ghost Value = { Taking };

    ghost view = { λ s. record {
      bytes = take s.len s.buffer;
      most = s.most;
      good_writes = s.good_writes;
      flush_fails = s.flush_fails;
      has_failed = s.has_failed;
      is_flushed = s.is_flushed;
      flushes = s.flushes;
    } };

    ghost invariant = { λ s. s.len ≤ sink_room };
}

impl MemorySink {
    /// An empty sink that fails only if it can take none of some bytes.
    pub fn new(most: usize) -> Self
        ensures { result ≡ record {
          bytes = [];
          most = most;
          good_writes = None;
          flush_fails = false;
          has_failed = false;
          is_flushed = true;
          flushes = Flushes.Never;
        } }
    {
        MemorySink {
            buffer: [0; SINK_ROOM],
            len: 0,
            most,
            good_writes: None,
            flush_fails: false,
            has_failed: false,
            is_flushed: true,
            flushes: Flushes::Never,
        }
    }

    /// This sink, set to fail at the write after a number of writes.
    pub fn failing_after(mut self, writes: usize) -> Self
        ensures { result ≡ record self { good_writes = Some writes } }
    {
        self.good_writes = Some(writes);
        self
    }

    /// This sink, set to fail at the first flush.
    pub fn failing_flush(mut self) -> Self
        ensures { result ≡ record self { flush_fails = true } }
    {
        self.flush_fails = true;
        self
    }

    /// The bytes taken.
    pub fn bytes(&self) -> &[u8]
        ensures value { result.now ≡ self.now.bytes }
        ensures small { length result.now ≤ sink_room }
    {
        &self.buffer[..self.len]
    }

    /// Whether all taken bytes have been flushed.
    pub fn is_flushed(&self) -> bool
        ensures { result ≡ self.now.is_flushed }
    {
        self.is_flushed
    }

    /// How often it was flushed.
    pub fn flushes(&self) -> Flushes
        ensures { result ≡ self.now.flushes }
    {
        self.flushes
    }

    /// Takes as many of the bytes from their front as a call takes, or fails.
    pub fn accept(&mut self, bytes: &[u8]) -> Result<usize, Failed>
        requires { self.old.has_failed ≡ false }
        ensures fails { is_err result ≡ write_fails self.old bytes.now }
        ensures count { IfOk result (λ n. n ≡ write_len self.old bytes.now) }
        ensures ok { IfOk result (λ n. self.new
            ≡ record self.old {
              bytes = self.old.bytes ++ take n bytes.now;
              good_writes = one_less self.old.good_writes;
              is_flushed = self.old.is_flushed && n == 0;
            }) }
        ensures err { OnErr result (self.new ≡ record self.old { has_failed = true }) }
    {
        let count = self.most.min(bytes.len()).min(SINK_ROOM - self.len);
        if is_due(self.good_writes) || (!bytes.is_empty() && count == 0) {
            self.has_failed = true;
            return Err(Failed);
        }
        self.buffer[self.len..self.len + count].copy_from_slice(&bytes[..count]);
        self.len += count;
        self.good_writes = one_less(self.good_writes);
        self.is_flushed = self.is_flushed && count == 0;
        Ok(count)
    }

    /// Flushes the bytes taken, or fails.
    pub fn hand_on(&mut self) -> Result<(), Failed>
        requires { self.old.has_failed ≡ false }
        ensures fails { is_err result ≡ self.old.flush_fails }
        ensures ok { OnOk result (self.new
            ≡ record self.old { is_flushed = true; flushes = one_more self.old.flushes }) }
        ensures err { OnErr result (self.new
            ≡ record self.old { has_failed = true; flushes = one_more self.old.flushes }) }
    {
        self.flushes = self.flushes.one_more();
        if self.flush_fails {
            self.has_failed = true;
            return Err(Failed);
        }
        self.is_flushed = true;
        Ok(())
    }
}

impl ByteSink for MemorySink {
    ghost taken = { λ s. Some s.bytes };

    ghost failed = { λ s. s.has_failed };

    ghost flushed = { λ s. s.is_flushed };

    ghost flushes = { λ s. s.flushes };

    fn write(&mut self, bytes: &[u8]) -> Result<usize, Failed> {
        self.accept(bytes)
    }

    fn flush(&mut self) -> Result<(), Failed> {
        self.hand_on()
    }

    fn has_failed(&self) -> bool {
        self.has_failed
    }
}
