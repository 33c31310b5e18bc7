//! Devices in memory, compared with answers worked out by hand.

use crate::checks::{flushes, holds, reads, same_bytes, same_text, writes, writes_fully};
use hcl_source::{
    ByteSink, ByteSource, Failed, LoadError, MemorySink, MemorySource, SINK_ROOM, Source,
    WriteFault,
};
use std::process::Abort;
use std::test::Fail;

#[test]
fn a_read_gives_so_many(rt: HostRuntime) {
    let mut source = MemorySource::new(b"a=1\n", 3);
    let mut buffer = *b"........";
    for (room, count, kept) in [
        (0, 0, b"........"),
        (8, 3, b"a=1....."),
        (2, 1, b"\n=1....."),
        (8, 0, b"\n=1....."),
    ] {
        reads(&rt, &mut source, &mut buffer[..room.min(8)], Ok(count));
        same_bytes(&rt, &buffer, kept, "a read of the source");
    }
}

/// Checks that this many reads of a byte are good, and that the next one fails and takes nothing.
fn reads_then_fails(rt: &impl Abort, good: usize, rest: &[u8]) {
    let mut source = MemorySource::new(b"a=1\n", 1).failing_after(good);
    for _ in 0..good {
        let mut buffer = *b"..";
        reads(rt, &mut source, &mut buffer, Ok(1));
    }
    let mut buffer = *b"..";
    reads(rt, &mut source, &mut buffer, Err(Failed));
    same_bytes(rt, &buffer, b"..", "the buffer");
    same_bytes(rt, source.rest(), rest, "the rest");
}

#[test]
fn a_read_fails(rt: HostRuntime) {
    reads_then_fails(&rt, 0, b"a=1\n");
    reads_then_fails(&rt, 1, b"=1\n");
    reads_then_fails(&rt, 4, b"");
}

#[test]
fn a_load_fails_at_its_read(rt: HostRuntime) -> Result<(), Fail> {
    // Two bytes, two bytes, and the end.
    for good in 0..3 {
        let mut source = MemorySource::new(b"a=1\n", 2).failing_after(good);
        let loaded = Source::read_from(rt.alloc(), &mut source);
        let is_failed = matches!(loaded, Err(LoadError::ReadFailed));
        holds(&rt, is_failed, "a failed read");
    }
    let mut source = MemorySource::new(b"a=1\n", 2).failing_after(3);
    let loaded = Source::read_from(rt.alloc(), &mut source)?;
    same_text(&rt, loaded.text(), "a=1\n", "no failed read");
    Ok(())
}

#[test]
fn a_write_takes_so_many(rt: HostRuntime) {
    for (most, good, wanted, taken) in [
        (1, 3, Err(WriteFault { written: 3 }), b"a =".as_slice()),
        (4, 1, Err(WriteFault { written: 4 }), b"a = "),
        (4, 2, Ok(()), b"a = 1\n"),
        (100, 0, Err(WriteFault { written: 0 }), b""),
        (100, 1, Ok(()), b"a = 1\n"),
        (0, 9, Err(WriteFault { written: 0 }), b""),
    ] {
        let mut sink = MemorySink::new(most).failing_after(good);
        writes_fully(&rt, &mut sink, b"a = 1\n", wanted);
        same_bytes(&rt, sink.bytes(), taken, "the bytes taken");
    }
}

#[test]
fn nothing_can_be_written_to_any_sink(rt: HostRuntime) {
    let mut sink = MemorySink::new(0);
    writes(&rt, &mut sink, b"", Ok(0));
    holds(&rt, sink.is_flushed(), "is_flushed");
    writes(&rt, &mut sink, b"a", Err(Failed));
}

#[test]
fn a_full_sink_fails(rt: HostRuntime) {
    let bytes = [b'x'; SINK_ROOM + 1];
    let mut sink = MemorySink::new(5_000);
    writes(&rt, &mut sink, &bytes[..4_000], Ok(4_000));
    writes(&rt, &mut sink, &bytes, Ok(96));
    writes(&rt, &mut sink, b"", Ok(0));
    writes(&rt, &mut sink, b"x", Err(Failed));
    same_bytes(&rt, sink.bytes(), &bytes[..4_096], "the bytes taken");
}

/// Checks that a text written to the sink waits for a flush, and the answer of the flush.
fn flushes_text(rt: &impl Abort, sink: &mut MemorySink, wanted: Result<(), Failed>) {
    writes_fully(rt, sink, b"a = 1\n", Ok(()));
    holds(rt, !sink.is_flushed(), "is_flushed before");
    flushes(rt, sink, wanted);
    holds(rt, sink.is_flushed() == wanted.is_ok(), "is_flushed after");
    same_bytes(rt, sink.bytes(), b"a = 1\n", "the bytes taken");
}

#[test]
fn a_flush_fails(rt: HostRuntime) {
    flushes_text(&rt, &mut MemorySink::new(3), Ok(()));
    flushes_text(&rt, &mut MemorySink::new(3).failing_flush(), Err(Failed));
}
