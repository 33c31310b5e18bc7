//! A digest of a run's output.

ghost use Rattle.std.specs.Prelude.{◌≡◌, false, None};

use hcl_scan::{ByteSink, Failed};
use hcl_source::Flushes;

const FACTOR: u64 = 0x9e37_79b9_7f4a_7c15;

/// A digest of bytes, however the calls divide them.
#[derive(Clone, Copy)]
pub struct Digest {
    mixed: u64,
    /// The bytes that are no whole word yet, the first one lowest, and their number.
    begun: u64,
    count: u32,
    length: u64,
}

impl Digest {
    pub fn new() -> Digest {
        Digest {
            mixed: 0,
            begun: 0,
            count: 0,
            length: 0,
        }
    }

    fn mix(&mut self, word: u64) {
        self.mixed = (self.mixed ^ word).wrapping_mul(FACTOR).rotate_left(29);
    }

    fn add_byte(&mut self, byte: u8) {
        self.begun = (self.begun >> 8) | ((byte as u64) << 56);
        self.count = self.count.saturating_add(1);
        if self.count >= 8 {
            let word = self.begun;
            self.mix(word);
            self.count = 0;
        }
    }

    fn add_bytes(&mut self, bytes: &[u8]) {
        for byte in bytes {
            self.add_byte(*byte);
        }
    }

    /// Adds bytes, most of them in words of eight.
    pub fn add(&mut self, bytes: &[u8]) {
        self.length = self.length.saturating_add(bytes.len() as u64);
        let missing = if self.count == 0 || self.count > 8 {
            0
        } else {
            (8 - self.count) as usize
        };
        if bytes.len() < missing {
            return self.add_bytes(bytes);
        }
        let (first, rest) = bytes.split_at(missing);
        self.add_bytes(first);
        let words = rest.chunks_exact(8);
        let last = words.remainder();
        for word in words {
            let [a, b, c, d, e, f, g, h] = word else {
                return;
            };
            self.mix(u64::from_le_bytes([*a, *b, *c, *d, *e, *f, *g, *h]));
        }
        self.add_bytes(last);
    }

    /// Adds a status.
    pub fn add_status(&mut self, status: u8) {
        self.add(&[status]);
    }

    /// Adds another digest.
    pub fn add_words(&mut self, other: Digest) {
        let (mixed, length) = other.value();
        self.add(&mixed.to_le_bytes());
        self.add(&length.to_le_bytes());
    }

    /// The digest, and the number of bytes.
    pub fn value(mut self) -> (u64, u64) {
        let length = self.length;
        let begun = self.begun;
        self.mix(begun);
        self.mix(length);
        (self.mixed, length)
    }
}

/// A sink that keeps only a digest. It never fails and tells nothing.
#[derive(Clone, Copy)]
pub struct DigestSink {
    digest: Digest,
    is_flushed: bool,
    flushes: Flushes,
}

impl DigestSink {
    /// A sink that continues with a digest.
    pub fn new(digest: Digest) -> DigestSink
        ensures { ⟦<DigestSink as ByteSink>⟧.failed result ≡ false }
    {
        DigestSink {
            digest,
            is_flushed: true,
            flushes: Flushes::Never,
        }
    }

    /// The digest with what was written.
    pub fn digest(&self) -> Digest {
        self.digest
    }
}

impl ByteSink for DigestSink {
    ghost taken = { λ s. None };

    ghost failed = { λ s. false };

    ghost flushed = { λ s. s.is_flushed };

    ghost flushes = { λ s. s.flushes };

    fn write(&mut self, bytes: &[u8]) -> Result<usize, Failed> {
        self.digest.add(bytes);
        self.is_flushed = false;
        Ok(bytes.len())
    }

    fn flush(&mut self) -> Result<(), Failed> {
        self.flushes = self.flushes.one_more();
        self.is_flushed = true;
        Ok(())
    }

    fn has_failed(&self) -> bool {
        false
    }
}
