//! Messages from sources, and into sinks.

use crate::checks::{holds, push_copies, same_bytes, with_copies};
use crate::devices::{sink, source};
use hcl_source::{ByteSource, MemorySink, MemorySource, SINK_ROOM};
use std::alloc::Global;
use std::process::Abort;
use tfls_command::{Inbox, Received, receive, write_frame};

/// Why no more is received.
fn ending(received: &Received) -> &'static [u8] {
    match received {
        Received::Message(_) => b"message",
        Received::End => b"end",
        Received::Malformed => b"malformed",
        Received::Failed => b"failed",
        Received::OutOfMemory => b"memory",
    }
}

/// The bodies of the messages of a source, each with a bar after it, and then why no more is received.
fn receive_all(rt: &impl Abort, alloc: Global, source: &mut MemorySource<'_>) -> Vec<u8> {
    let mut inbox = Inbox::new(alloc);
    let mut found = Vec::new(alloc);
    for _ in 0..100_000 {
        if source.has_failed() {
            return found;
        }
        let received = receive(alloc, source, &mut inbox);
        let Received::Message(body) = received else {
            push_copies(rt, &mut found, ending(&received), 1);
            return found;
        };
        push_copies(rt, &mut found, &body, 1);
        push_copies(rt, &mut found, b"|", 1);
    }
    found
}

/// An input, and what is received of it.
type Row = (&'static [u8], &'static [u8]);

static ROWS: [Row; 34] = [
    (b"", b"end"),
    (b"Content-Length: 2\r\n\r\n{}", b"{}|end"),
    (b"Content-Length: 0\r\n\r\n", b"|end"),
    (b"Content-Length: 6\r\n\r\na\r\n\r\nb", b"a\r\n\r\nb|end"),
    // the name in any case, and blanks around the number
    (b"content-LENGTH: 2\r\n\r\nab", b"ab|end"),
    (b"Content-Length:2\r\n\r\nab", b"ab|end"),
    (b"Content-Length: \t 2\t \r\n\r\nab", b"ab|end"),
    (b"Content-Length: 002\r\n\r\nab", b"ab|end"),
    // no number, or none that a body can have
    (b"Content-Length:\r\n\r\n", b"malformed"),
    (b"Content-Length: \r\n\r\n", b"malformed"),
    (b"Content-Length: x\r\n\r\nab", b"malformed"),
    (b"Content-Length: 2x\r\n\r\nab", b"malformed"),
    (b"Content-Length: 1 1\r\n\r\nab", b"malformed"),
    (b"Content-Length: -2\r\n\r\nab", b"malformed"),
    (b"Content-Length: +2\r\n\r\nab", b"malformed"),
    (b"Content-Length: 67108864\r\n\r\n", b"end"),
    (b"Content-Length: 67108865\r\n\r\n", b"malformed"),
    (
        b"Content-Length: 18446744073709551618\r\n\r\nab",
        b"malformed",
    ),
    // other fields are passed over
    (
        b"Content-Type: x; charset=utf-8\r\nContent-Length: 1\r\n\r\na",
        b"a|end",
    ),
    (b"Content-Length: 1\r\nContent-Type: x\r\n\r\na", b"a|end"),
    (b"x\r\nContent-Length: 1\r\n\r\na", b"a|end"),
    (b"Content-Type: x\r\n\r\na", b"malformed"),
    (b"Content-Length : 1\r\n\r\na", b"malformed"),
    (b"X-Content-Length: 1\r\n\r\na", b"malformed"),
    (b"\r\n\r\n", b"malformed"),
    // of two lengths the first counts
    (b"Content-Length: 1\r\nContent-Length: 2\r\n\r\na", b"a|end"),
    (
        b"Content-Length: x\r\nContent-Length: 2\r\n\r\na",
        b"malformed",
    ),
    // many messages
    (
        b"Content-Length: 1\r\n\r\naContent-Length: 0\r\n\r\nContent-Length: 2\r\n\r\nbc",
        b"a||bc|end",
    ),
    (b"Content-Length: 1\r\n\r\naX: 1\r\n\r\n", b"a|malformed"),
    // the input ends within a message
    (b"Content-Length: 1\r\n\r\naCont", b"a|end"),
    (
        b"Content-Length: 1\r\n\r\naContent-Length: 2\r\n\r",
        b"a|end",
    ),
    (
        b"Content-Length: 1\r\n\r\naContent-Length: 2\r\n\r\nb",
        b"a|end",
    ),
    // a field ends with CR LF alone
    (b"Content-Length: 2\n\n{}", b"end"),
    (b"Content-Length: 2\r\r{}", b"end"),
];

/// Checks what is received of an input, whose reads give this many bytes at most.
fn gives(rt: &impl Abort, alloc: Global, input: &[u8], most: usize, wanted: &[u8]) {
    let mut source = source(input, most, None);
    let found = receive_all(rt, alloc, &mut source);
    same_bytes(rt, &found, wanted, input);
}

#[test]
fn messages_of_inputs(rt: HostRuntime) {
    for (input, wanted) in ROWS {
        gives(&rt, rt.alloc(), input, 1, wanted);
        gives(&rt, rt.alloc(), input, 7, wanted);
        gives(&rt, rt.alloc(), input, 1_000, wanted);
    }
}

/// Two messages of 22 bytes.
static TWO: &[u8] = b"Content-Length: 1\r\n\r\naContent-Length: 1\r\n\r\nb";

/// How many bytes a read gives at most, after how many reads one fails, and what is received of two messages.
static FAILED: [(usize, usize, &[u8]); 7] = [
    (44, 0, b"failed"),
    (44, 1, b"a|b|failed"),
    (44, 2, b"a|b|end"),
    (22, 1, b"a|failed"),
    (1, 21, b"failed"),
    (1, 22, b"a|failed"),
    (1, 43, b"a|failed"),
];

#[test]
fn a_read_fails(rt: HostRuntime) {
    for (most, reads, wanted) in FAILED {
        let mut source = source(TWO, most, Some(reads));
        let found = receive_all(&rt, rt.alloc(), &mut source);
        same_bytes(&rt, &found, wanted, TWO);
    }
}

/// Heads of 4,096 and of 4,097 bytes, with the empty line.
#[test]
fn long_heads(rt: HostRuntime) {
    let alloc = rt.alloc();
    let last = b"\r\nContent-Length: 1\r\n\r\na";
    let input = with_copies(&rt, alloc, b"x:", (b"y", 4_071), last);
    gives(&rt, alloc, &input, 1_000, b"a|end");
    let input = with_copies(&rt, alloc, b"x:", (b"y", 4_072), last);
    gives(&rt, alloc, &input, 1_000, b"malformed");
    let input = with_copies(&rt, alloc, b"x:", (b"y", 4_093), b"");
    gives(&rt, alloc, &input, 1_000, b"end");
    let input = with_copies(&rt, alloc, b"x:", (b"y", 4_094), b"");
    gives(&rt, alloc, &input, 1_000, b"malformed");
}

#[test]
fn large_inputs(rt: HostRuntime) {
    let alloc = rt.alloc();
    let input = with_copies(
        &rt,
        alloc,
        b"",
        (b"Content-Length: 1\r\n\r\na", 20_000),
        b"",
    );
    let wanted = with_copies(&rt, alloc, b"", (b"a|", 20_000), b"end");
    gives(&rt, alloc, &input, 100_000, &wanted);
    let first = b"Content-Length: 1000000\r\n\r\n";
    let input = with_copies(&rt, alloc, first, (b"0123456789", 100_000), b"");
    let wanted = with_copies(&rt, alloc, b"", (b"0123456789", 100_000), b"|end");
    gives(&rt, alloc, &input, 100_000, &wanted);
}

/// How many bytes a write takes at most, after how many writes one fails, whether the flush fails, whether the message
/// of the body `ab` is written, and what the sink takes of it.
type Sink = (usize, Option<usize>, bool, bool, &'static [u8]);

static SINKS: [Sink; 8] = [
    (100, None, false, true, b"Content-Length: 2\r\n\r\nab"),
    (1, None, false, true, b"Content-Length: 2\r\n\r\nab"),
    (100, None, true, false, b"Content-Length: 2\r\n\r\nab"),
    (100, Some(0), false, false, b""),
    (1, Some(3), false, false, b"Con"),
    (1, Some(22), false, false, b"Content-Length: 2\r\n\r\na"),
    (1, Some(23), false, true, b"Content-Length: 2\r\n\r\nab"),
    (0, None, false, false, b""),
];

#[test]
fn messages_into_sinks(rt: HostRuntime) {
    for (most, writes, flush, is_written, wanted) in SINKS {
        let mut sink = sink(most, writes, flush);
        let result = write_frame(&mut sink, b"ab");
        holds(&rt, result.is_ok() == is_written, wanted);
        holds(&rt, sink.is_flushed() || !is_written, wanted);
        same_bytes(&rt, sink.bytes(), wanted, b"ab");
    }
}

#[test]
fn lengths_of_bodies(rt: HostRuntime) {
    let alloc = rt.alloc();
    for (body, count) in [
        (0, b"0".as_slice()),
        (9, b"9"),
        (10, b"10"),
        (4_000, b"4000"),
    ] {
        let mut sink = MemorySink::new(SINK_ROOM);
        let body = with_copies(&rt, alloc, b"", (b"x", body), b"");
        let head = with_copies(&rt, alloc, b"Content-Length: ", (count, 1), b"\r\n\r\n");
        let wanted = with_copies(&rt, alloc, &head, (&body, 1), b"");
        let result = write_frame(&mut sink, &body);
        holds(&rt, result.is_ok(), count);
        same_bytes(&rt, sink.bytes(), &wanted, count);
    }
}
