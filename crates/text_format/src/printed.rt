//! A print in memory.

ghost use Rattle.std.specs.Prelude.{◌≡◌, Some, [], false};

use hcl_scan::{ByteSink, Failed, Flushes};
use std::alloc::Global;

/// A sink that stores the bytes that it takes. It fails if memory runs out.
#[derive(Drop)]
pub struct Printed {
    bytes: Vec<u8>,
    has_failed: bool,
    is_flushed: bool,
    flushes: Flushes,
}

impl Printed {
    pub fn new(alloc: Global) -> Printed
        ensures empty { ⟦<Printed as ByteSink>⟧.taken result ≡ Some [] }
        ensures fresh { ⟦<Printed as ByteSink>⟧.failed result ≡ false }
    {
        Printed {
            bytes: Vec::new(alloc),
            has_failed: false,
            is_flushed: true,
            flushes: Flushes::Never,
        }
    }

    pub fn bytes(&self) -> &[u8]
        ensures { Some result.now ≡ ⟦<Printed as ByteSink>⟧.taken self.now }
    {
        self.bytes.as_slice()
    }

    pub fn into_bytes(self) -> Vec<u8>
        ensures { Some result.items ≡ ⟦<Printed as ByteSink>⟧.taken self }
    {
        self.bytes
    }
}

impl ByteSink for Printed {
    ghost taken = { λ s. Some s.bytes.items };

    ghost failed = { λ s. s.has_failed };

    ghost flushed = { λ s. s.is_flushed };

    ghost flushes = { λ s. s.flushes };

    fn write(&mut self, bytes: &[u8]) -> Result<usize, Failed> {
        match self.bytes.extend_from_slice(bytes) {
            Ok(()) => {
                self.is_flushed = false;
                Ok(bytes.len())
            }
            Err(_) => {
                self.has_failed = true;
                Err(Failed)
            }
        }
    }

    fn flush(&mut self) -> Result<(), Failed> {
        self.flushes = self.flushes.one_more();
        self.is_flushed = true;
        Ok(())
    }

    fn has_failed(&self) -> bool {
        self.has_failed
    }
}
