//! Sources and sinks of bytes.

ghost use Rattle.std.specs.Prelude.{◌≡◌, ℕ, ◌<◌, ◌≤◌, ◌+◌, Bool, true, false, List, Option, length, take, IfOk, IfErr, OnOk, OnErr, is_err};
ghost use Rattle.std.specs.Io.KnownBytes.{Keeps, Appends, WriteAppends, Consumes, ReadConsumes, IsAtEnd};
ghost use Rattle.std.specs.Io.{ReadsAtMost};
ghost use Rattle.std.specs.Vec.{vec_len};
ghost use Rattle.hcl_source.specs.Load.{max_source};
ghost use Rattle.hcl_source.specs.Devices.{one_more, TookSome};
ghost use Rattle.hcl_source.specs.Inner.Reads.{is_read_failed};
ghost use Rattle.hcl_source.specs.declared.device.Flushes.{Flushes};

use std::alloc::Global;
use std::io::{Read, Write};

/// A call of a device failed. It moved no byte.
#[derive(Clone, Copy, Debug, PartialEq, Eq)]
pub struct Failed;

/// A source of bytes.
pub trait ByteSource {
    /// The remaining bytes, if the device tells them.
    ghost left: { Self → Option (List ℕ) };

    /// A call has failed.
    ghost failed: { Self → Bool };

    /// Fills a part of the buffer from its front, and returns how many bytes came. 0 for a buffer with room is the end
    /// of the input.
    fn read(&mut self, buffer: &mut [u8]) -> Result<usize, Failed>
        requires { failed self.old ≡ false }
        ensures bound { ReadsAtMost result buffer.new }
        ensures bytes { ReadConsumes (left self.old) (left self.new) result buffer.new }
        ensures failed { failed self.new ≡ is_err result };

    /// Whether a call has failed so far.
    fn has_failed(&self) -> bool
        ensures { result ≡ failed self.now };
}

/// How often a sink was flushed, as precisely as a run needs it.
#[derive(Clone, Copy)]
pub enum Flushes {
    Never,
    Once,
    /// Twice or more.
    Often,
}

impl Flushes {
    /// The count after one more flush.
    pub fn one_more(self) -> Flushes
        ensures { result ≡ one_more self }
    {
        match self {
            Flushes::Never => Flushes::Once,
            Flushes::Once | Flushes::Often => Flushes::Often,
        }
    }
}

/// A sink of bytes.
pub trait ByteSink {
    /// The bytes taken so far, if the device tells them.
    ghost taken: { Self → Option (List ℕ) };

    /// A call has failed.
    ghost failed: { Self → Bool };

    /// All taken bytes have been flushed.
    ghost flushed: { Self → Bool };

    /// How often it was flushed. A failed flush counts too.
    ghost flushes: { Self → Flushes };

    /// Takes a part of the bytes from their front, and returns how many: at least one, if there is one.
    fn write(&mut self, bytes: &[u8]) -> Result<usize, Failed>
        requires { failed self.old ≡ false }
        ensures bound { IfOk result (λ n. n ≤ length bytes.now) }
        ensures some { IfOk result (λ n. 0 < length bytes.now → 0 < n) }
        ensures bytes { WriteAppends (taken self.old) (taken self.new) result bytes.now }
        ensures failed { failed self.new ≡ is_err result }
        ensures pending { TookSome result → flushed self.new ≡ false }
        ensures flushes { flushes self.new ≡ flushes self.old };

    /// Passes on the bytes that were taken and not yet passed on.
    fn flush(&mut self) -> Result<(), Failed>
        requires { failed self.old ≡ false }
        ensures bytes { Keeps (taken self.old) (taken self.new) }
        ensures failed { failed self.new ≡ is_err result }
        ensures flushed { OnOk result (flushed self.new ≡ true) }
        ensures flushes { flushes self.new ≡ one_more (flushes self.old) };

    /// Whether a call has failed so far.
    fn has_failed(&self) -> bool
        ensures { result ≡ failed self.now };
}

/// A reader of std as a device. Any error of the reader is a failed call.
#[derive(Drop)]
pub struct FromRead<R: Drop> {
    reader: R,
    has_failed: bool,
}

impl<R: Read + Drop> FromRead<R> {
    pub fn new(reader: R) -> Self
        ensures left { ⟦<FromRead<R> as ByteSource>⟧.left result ≡ R.remaining reader }
        ensures fresh { ⟦<FromRead<R> as ByteSource>⟧.failed result ≡ false }
    {
        FromRead {
            reader,
            has_failed: false,
        }
    }
}

impl<R: Read + Drop> ByteSource for FromRead<R> {
    ghost left = { λ s. R.remaining s.reader };

    ghost failed = { λ s. s.has_failed };

    fn read(&mut self, buffer: &mut [u8]) -> Result<usize, Failed> {
        match self.reader.read(buffer) {
            Ok(n) => Ok(n),
            Err(_) => {
                self.has_failed = true;
                Err(Failed)
            }
        }
    }

    fn has_failed(&self) -> bool {
        self.has_failed
    }
}

/// A writer of std as a device. Any error of the writer is a failed call, and so is a write that takes none of some
/// bytes.
#[derive(Drop)]
pub struct ToWrite<W: Drop> {
    writer: W,
    has_failed: bool,
    is_flushed: bool,
    flushes: Flushes,
}

impl<W: Write + Drop> ToWrite<W> {
    pub fn new(writer: W) -> Self
        ensures taken { ⟦<ToWrite<W> as ByteSink>⟧.taken result ≡ W.contents writer }
        ensures fresh { ⟦<ToWrite<W> as ByteSink>⟧.failed result ≡ false }
        ensures flushes { ⟦<ToWrite<W> as ByteSink>⟧.flushes result ≡ Flushes.Never }
    {
        ToWrite {
            writer,
            has_failed: false,
            is_flushed: false,
            flushes: Flushes::Never,
        }
    }
}

impl<W: Write + Drop> ByteSink for ToWrite<W> {
    ghost taken = { λ s. W.contents s.writer };

    ghost failed = { λ s. s.has_failed };

    ghost flushed = { λ s. s.is_flushed };

    ghost flushes = { λ s. s.flushes };

    fn write(&mut self, bytes: &[u8]) -> Result<usize, Failed> {
        match self.writer.write(bytes) {
            Ok(n) if n > 0 || bytes.is_empty() => {
                self.is_flushed = false;
                Ok(n)
            }
            _ => {
                self.has_failed = true;
                Err(Failed)
            }
        }
    }

    fn flush(&mut self) -> Result<(), Failed> {
        self.flushes = self.flushes.one_more();
        match self.writer.flush() {
            Ok(()) => {
                self.is_flushed = true;
                Ok(())
            }
            Err(_) => {
                self.has_failed = true;
                Err(Failed)
            }
        }
    }

    fn has_failed(&self) -> bool {
        self.has_failed
    }
}

/// A write failed after this many bytes went out.
#[derive(Clone, Copy, Debug, PartialEq, Eq)]
pub struct WriteFault {
    pub written: u64,
}

/// Writes all of the bytes, or those before the first write that fails. Nothing is flushed.
pub fn write_fully<W: ByteSink>(sink: &mut W, bytes: &[u8]) -> Result<(), WriteFault>
    requires { W.failed sink.old ≡ false }
    ensures ok { OnOk result (Appends (W.taken sink.old) (W.taken sink.new) bytes.now) }
    ensures err { IfErr result (λ fault. Appends (W.taken sink.old) (W.taken sink.new)
        (take fault.written bytes.now)) }
    ensures written { IfErr result (λ fault. fault.written < length bytes.now) }
    ensures pending { OnOk result (0 < length bytes.now → W.flushed sink.new ≡ false) }
    ensures failed { W.failed sink.new ≡ is_err result }
    ensures flushes { W.flushes sink.new ≡ W.flushes sink.old }
{
    let mut done = 0;
    while done < bytes.len() {
        let (_, rest) = bytes.split_at(done);
        match sink.write(rest) {
            Ok(n) => done += n,
            Err(Failed) => {
                return Err(WriteFault {
                    written: done as u64,
                });
            }
        }
    }
    Ok(())
}

/// Why nothing was read.
#[derive(Clone, Copy)]
pub(crate) enum ReadError {
    Failed,
    OutOfMemory,
}

/// The bytes that a source gives, up to its end or to one byte more than `limit`.
pub(crate) fn read_up_to<R: ByteSource>(
    alloc: Global,
    source: &mut R,
    limit: usize,
) -> Result<Vec<u8>, ReadError>
    requires ready { R.failed source.old ≡ false }
    requires small { limit ≤ max_source }
    ensures given { IfOk result (λ v. Consumes (R.left source.old) (R.left source.new) v.items) }
    ensures taken { (bytes : List ℕ) × Consumes (R.left source.old) (R.left source.new) bytes
        × (length bytes ≤ limit + 1) }
    ensures len { IfOk result (λ v. vec_len v ≤ limit + 1) }
    ensures all { IfOk result (λ v. vec_len v ≤ limit → IsAtEnd (R.left source.new)) }
    ensures failed { R.failed source.new ≡ is_read_failed result }
{
    let mut bytes = Vec::new(alloc);
    let mut buffer = [0; 16_384];
    while bytes.len() <= limit {
        let room = (limit + 1 - bytes.len()).min(16_384);
        match source.read(&mut buffer[..room]) {
            Ok(0) => return Ok(bytes),
            Ok(n) => {
                if bytes.extend_from_slice(&buffer[..n]).is_err() {
                    return Err(ReadError::OutOfMemory);
                }
            }
            Err(Failed) => return Err(ReadError::Failed),
        }
    }
    Ok(bytes)
}
