//! The text of one file, and the places in it.

ghost use Rattle.std.specs.Prelude.{◌≡◌, ℕ, List, ◌+◌, ◌-◌, ◌<◌, ◌≤◌, ◌==◌, true, false, length, drop, slice_index, IfOk, IfErr, MatchOption};
ghost use Rattle.std.specs.List.{after_last};
ghost use Rattle.std.specs.Str.{IsCharBoundary, IsValidUpTo};
ghost use Rattle.std.specs.Io.KnownBytes.{Consumes};
ghost use Rattle.hcl_source.specs.Places.{place};
ghost use Rattle.hcl_source.specs.Load.{max_source, has_byte_order_mark, IsText, IsLoadFault, IsLoadError, Loads, is_failed_load};

use crate::columns::clusters;
use crate::device::{ByteSource, ReadError, read_up_to};
use crate::fault::{Fault, FaultKind, LoadError, Position};
use crate::lines::line_ends;
use std::alloc::Global;
use std::marker::Model;

/// The most bytes that a source has.
pub const MAX_SOURCE: usize = 4_194_304;

/// UTF-8 text of at most `MAX_SOURCE` bytes that does not begin with a byte order mark.
#[derive(Debug, Drop)]
pub struct Source {
    content: String,
}

impl Model for Source {
    ghost use Rattle.std.specs.Prelude.{List, ℕ};
    ghost use Rattle.std.specs.String.{string_bytes};

    ghost Value = { List ℕ };

    ghost use Rattle.hcl_source.specs.Load.{IsText};

    ghost view = { λ s. string_bytes s.content };

    ghost invariant = { λ s. IsText (string_bytes s.content) };
}

/// The start of the last line of a text: after its last LF, or at 0.
fn line_start(bytes: &[u8]) -> usize
    ensures within { result ≤ length bytes.now }
    ensures start { drop result bytes.now ≡ after_last (λ b. b == 10) bytes.now }
    ensures after_lf { 0 < result → slice_index bytes.now (result - 1) ≡ 10 }
{
    let mut start = bytes.len();
    while start > 0 && bytes[start - 1] != b'\n' {
        start -= 1;
    }
    start
}

/// The place of the end of a text.
fn end_of(text: &str) -> Position
    requires { length text.now ≤ max_source }
    ensures { result ≡ place text.now (length text.now) }
{
    let bytes = text.as_bytes();
    let line = &text[line_start(bytes)..];
    Position {
        line: line_ends(bytes) as u32 + 1,
        column: clusters(line) as u32 + 1,
    }
}

/// The fault of bytes that are UTF-8 up to an offset and no further.
fn invalid_utf8(bytes: &[u8], valid: usize) -> Fault
    requires small { length bytes.now ≤ max_source }
    requires valid { IsValidUpTo bytes.now valid }
    ensures { IsLoadFault bytes.now result }
{
    let Ok(front) = simdutf8::compat::from_utf8(&bytes[..valid]) else {
        unreachable!();
    };
    Fault {
        kind: FaultKind::InvalidUtf8,
        at: end_of(front),
    }
}

fn has_byte_order_mark(bytes: &[u8]) -> bool
    ensures { result ≡ has_byte_order_mark bytes.now }
{
    bytes.starts_with(&[0xEF, 0xBB, 0xBF])
}

/// The fault of bytes that are no source.
pub(crate) fn load_fault(bytes: &[u8]) -> Option<Fault>
    ensures { MatchOption result (IsText bytes.now) (IsLoadFault bytes.now) }
{
    let start = end_of("");
    if bytes.len() > MAX_SOURCE {
        return Some(Fault {
            kind: FaultKind::TooLarge,
            at: start,
        });
    }
    if let Err(error) = simdutf8::compat::from_utf8(bytes) {
        return Some(invalid_utf8(bytes, error.valid_up_to()));
    }
    if has_byte_order_mark(bytes) {
        return Some(Fault {
            kind: FaultKind::ByteOrderMark,
            at: start,
        });
    }
    None
}

impl Source {
    /// A copy of the bytes, if they are a source. It never returns `ReadFailed`.
    pub fn from_bytes(alloc: Global, bytes: &[u8]) -> Result<Source, LoadError>
        ensures loaded { IfOk result (λ s. (s ≡ bytes.now) × IsText bytes.now) }
        ensures refused { IfErr result (IsLoadError bytes.now) }
    {
        if let Some(fault) = load_fault(bytes) {
            return Err(LoadError::Fault(fault));
        }
        match Vec::from_slice(alloc, bytes) {
            Ok(copy) => Ok(Source::of_checked(copy)),
            Err(_) => Err(LoadError::OutOfMemory),
        }
    }

    /// The rest of a device's bytes, if they are a source. It takes at most `MAX_SOURCE` + 1 bytes, and returns
    /// `ReadFailed` if and only if a read failed.
    pub fn read_from<R: ByteSource>(alloc: Global, from: &mut R) -> Result<Source, LoadError>
        requires { R.failed from.old ≡ false }
        ensures loaded { (bytes : List ℕ) × Consumes (R.left from.old) (R.left from.new) bytes
            × (length bytes ≤ max_source + 1) × Loads bytes (R.left from.new) result }
        ensures failed { R.failed from.new ≡ is_failed_load result }
    {
        match read_up_to(alloc, from, MAX_SOURCE) {
            Ok(bytes) => match load_fault(&bytes) {
                Some(fault) => Err(LoadError::Fault(fault)),
                None => Ok(Source::of_checked(bytes)),
            },
            Err(ReadError::Failed) => Err(LoadError::ReadFailed),
            Err(ReadError::OutOfMemory) => Err(LoadError::OutOfMemory),
        }
    }

    /// The bytes as a source, without a copy.
    fn of_checked(bytes: Vec<u8>) -> Source
        requires { IsText bytes.items }
        ensures { result ≡ bytes.items }
    {
        // SAFETY: the condition says that the bytes are UTF-8.
        let content = unsafe { String::from_utf8_unchecked(bytes) };
        Source { content }
    }

    /// The text.
    pub fn text(&self) -> &str
        ensures value { result.now ≡ self.now }
        ensures is_text { IsText self.now }
    {
        self.content.as_str()
    }

    /// The place of a byte offset that lies between two characters or at an end. It walks the text
    /// before the offset, so it takes time linear in the offset.
    pub fn position(&self, offset: usize) -> Position
        requires { IsCharBoundary self.now offset }
        ensures { result ≡ place self.now offset }
    {
        end_of(&self.text()[..offset])
    }
}
