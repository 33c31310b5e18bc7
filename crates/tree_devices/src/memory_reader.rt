//! A file in memory that was opened.

ghost use Rattle.std.specs.Prelude.{◌≡◌, Some, false};

use hcl_scan::{ByteSource, Failed};
use std::io::{Cursor, Read};

/// An opened file in memory.
#[derive(Drop)]
pub struct MemoryReader {
    cursor: Cursor<Vec<u8>>,
    good_reads: Option<usize>,
    has_failed: bool,
}

impl MemoryReader {
    /// A reader of these bytes. The read after this many good ones fails, if one is to fail.
    pub fn new(bytes: Vec<u8>, good_reads: Option<usize>) -> MemoryReader
        ensures left { ⟦<MemoryReader as ByteSource>⟧.left result ≡ Some bytes.items }
        ensures fresh { ⟦<MemoryReader as ByteSource>⟧.failed result ≡ false }
    {
        MemoryReader {
            cursor: Cursor::new(bytes),
            good_reads,
            has_failed: false,
        }
    }
}

impl ByteSource for MemoryReader {
    ghost left = { λ s. ⟦<Cursor<Vec<u8>> as Read>⟧.remaining s.cursor };

    ghost failed = { λ s. s.has_failed };

    fn read(&mut self, buffer: &mut [u8]) -> Result<usize, Failed> {
        if self.good_reads == Some(0) {
            self.has_failed = true;
            return Err(Failed);
        }
        self.good_reads = match self.good_reads {
            Some(good) => Some(good.saturating_sub(1)),
            None => None,
        };
        match self.cursor.read(buffer) {
            Ok(n) => Ok(n),
            Err(_) => {
                self.has_failed = true;
                Err(Failed)
            }
        }
    }

    fn has_failed(&self) -> bool {
        self.has_failed
    }
}
