//! A text that is read like a file.

ghost use Rattle.std.specs.Prelude.{◌≡◌, false, None};

use hcl_scan::{ByteSource, Failed};

/// A text that was made. It tells no bytes and never fails.
#[derive(Drop)]
pub struct MadeText {
    text: Vec<u8>,
    at: usize,
}

impl MadeText {
    pub fn new(text: Vec<u8>) -> MadeText
        ensures { ⟦<MadeText as ByteSource>⟧.failed result ≡ false }
    {
        MadeText { text, at: 0 }
    }
}

impl ByteSource for MadeText {
    ghost left = { λ s. None };

    ghost failed = { λ s. false };

    fn read(&mut self, buffer: &mut [u8]) -> Result<usize, Failed> {
        let at = self.at.min(self.text.len());
        let (_, rest) = self.text.as_slice().split_at(at);
        let count = rest.len().min(buffer.len());
        buffer[..count].copy_from_slice(&rest[..count]);
        self.at = at + count;
        Ok(count)
    }

    fn has_failed(&self) -> bool {
        false
    }
}
