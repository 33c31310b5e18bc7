//! The bytes that wait.

ghost use Rattle.std.specs.Prelude.{◌≡◌, ◌≤◌, ◌++◌, [], false, drop, length, ℕ, List};
ghost use Rattle.std.specs.Io.KnownBytes.{Consumes};
ghost use Rattle.tfls_command.specs.Inner.Steps.{Fills, FillsToEnd, is_failed_fill};

use crate::incoming::Received;
use hcl_source::{ByteSource, Failed};
use std::alloc::{AllocError, Global};
use std::marker::Model;

/// How many bytes a read takes at most.
const ROOM: usize = 16_384;

/// The bytes that were read and not yet taken, in their order. To take some of them moves none of the others.
#[derive(Drop)]
pub struct Inbox {
    bytes: Vec<u8>,
    start: usize,
}

impl Model for Inbox {
    ghost use Rattle.std.specs.Prelude.{◌≤◌, ℕ, List, drop, length};

    ghost Value = { List ℕ };

    ghost view = { λ i. drop i.start i.bytes.items };

    ghost invariant = { λ i. i.start ≤ length i.bytes.items };
}

impl Inbox {
    /// Nothing waits.
    pub fn new(alloc: Global) -> Self
        ensures { result ≡ [] }
    {
        Inbox {
            bytes: Vec::new(alloc),
            start: 0,
        }
    }

    /// All that waits.
    pub(crate) fn waiting(&self) -> &[u8]
        ensures { result.now ≡ self.now }
    {
        let (_, rest) = self.bytes.as_slice().split_at(self.start);
        rest
    }

    /// Takes these many bytes from the front.
    pub(crate) fn pass(&mut self, count: usize)
        requires { count ≤ length self.old }
        ensures { self.new ≡ drop count self.old }
    {
        self.start += count;
    }

    /// Moves what waits to memory of its own, if anything was taken. What waits then is the beginning of one message, so
    /// each byte is moved once at most; and a large message's memory is given back.
    fn free_taken(&mut self, alloc: Global) -> Result<(), AllocError>
        ensures { self.new ≡ self.old }
    {
        if self.start == 0 {
            return Ok(());
        }
        let (_, rest) = self.bytes.as_slice().split_at(self.start);
        let rest = Vec::from_slice(alloc, rest)?;
        self.bytes = rest;
        self.start = 0;
        Ok(())
    }

    /// Reads once, and adds what came to what waits. Nothing where bytes came.
    pub(crate) fn fill<R: ByteSource>(&mut self, alloc: Global, source: &mut R) -> Option<Received>
        requires { R.failed source.old ≡ false }
        ensures fills { (bytes : List ℕ) × Consumes (R.left source.old) (R.left source.new) bytes
            × Fills self.old self.new bytes result }
        ensures end { FillsToEnd result (R.left source.new) }
        ensures failed { R.failed source.new ≡ is_failed_fill result }
    {
        if self.free_taken(alloc).is_err() {
            return Some(Received::OutOfMemory);
        }
        read_once(source, &mut self.bytes)
    }
}

/// Reads once, and adds what came at the end of the bytes. There is room for it before the read, so none of it is lost.
fn read_once<R: ByteSource>(source: &mut R, bytes: &mut Vec<u8>) -> Option<Received>
    requires { R.failed source.old ≡ false }
    ensures fills { (more : List ℕ) × Consumes (R.left source.old) (R.left source.new) more
        × Fills bytes.old.items bytes.new.items more result }
    ensures end { FillsToEnd result (R.left source.new) }
    ensures failed { R.failed source.new ≡ is_failed_fill result }
{
    if bytes.reserve(ROOM).is_err() {
        return Some(Received::OutOfMemory);
    }
    let mut buffer = [0; ROOM];
    match source.read(&mut buffer) {
        Ok(0) => Some(Received::End),
        Ok(n) => match bytes.extend_from_slice(&buffer[..n]) {
            Ok(()) => None,
            Err(_) => Some(Received::OutOfMemory),
        },
        Err(Failed) => Some(Received::Failed),
    }
}
