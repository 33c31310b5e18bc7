//! Devices of the tests.

ghost use Rattle.std.specs.Prelude.{◌≡◌, false};

use hcl_source::{MemorySink, MemorySource};

/// A source of these bytes, whose reads give this many at most. The read after this many good ones fails.
pub fn source(bytes: &[u8], most: usize, reads: Option<usize>) -> MemorySource<'_>
    ensures { result.has_failed ≡ false }
{
    let source = MemorySource::new(bytes, most.max(1));
    match reads {
        Some(reads) => source.failing_after(reads),
        None => source,
    }
}

/// A sink whose writes take this many bytes at most. The write after this many good ones fails, and perhaps the flush.
pub fn sink(most: usize, writes: Option<usize>, flush: bool) -> MemorySink
    ensures { result.has_failed ≡ false }
{
    let sink = match writes {
        Some(writes) => MemorySink::new(most).failing_after(writes),
        None => MemorySink::new(most),
    };
    if flush { sink.failing_flush() } else { sink }
}
