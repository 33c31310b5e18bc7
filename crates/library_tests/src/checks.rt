//! The comparisons of the tests and the calls of devices, each proved once. A failure shows `what`.

use hcl_source::{ByteSink, ByteSource, Failed, WriteFault, write_fully};
use std::fmt::Debug;
use std::process::Abort;

/// Ends the test with `what` unless this holds.
pub(crate) fn holds(rt: &impl Abort, is_so: bool, what: &str) {
    if !is_so {
        rt.panic(what)
    }
}

/// Ends the test unless this holds, with the expectation and the row.
pub(crate) fn holds_at(rt: &impl Abort, is_so: bool, what: &str, row: &str) {
    assert!(rt; is_so, "{what}: {row}");
}

/// Checks that two values are the same.
pub(crate) fn check_same<T: Debug + PartialEq>(rt: &impl Abort, found: &T, wanted: &T, what: &str) {
    assert!(rt; *found == *wanted, "{found:?}, not {wanted:?}, at {what}");
}

/// Checks that two texts are the same.
pub(crate) fn same_text(rt: &impl Abort, found: &str, wanted: &str, what: &str) {
    assert!(rt; found == wanted, "{found:?}, not {wanted:?}, at {what:?}");
}

/// Checks that both have the same bytes.
pub(crate) fn same_bytes(rt: &impl Abort, found: &[u8], wanted: &[u8], what: &str) {
    assert!(rt; found == wanted, "{found:?}, not {wanted:?}, at {what}");
}

/// Checks the answer of a source that hasn't failed, and that it has failed if the answer is an error.
pub(crate) fn reads<S: ByteSource>(
    rt: &impl Abort,
    source: &mut S,
    buffer: &mut [u8],
    wanted: Result<usize, Failed>,
) {
    assert!(rt; !source.has_failed());
    let answer = source.read(buffer);
    check_same(rt, &answer, &wanted, "a read");
    holds(rt, source.has_failed() == wanted.is_err(), "has_failed");
}

/// Checks the answer of a sink that hasn't failed, and that it has failed if the answer is an error.
pub(crate) fn writes<S: ByteSink>(
    rt: &impl Abort,
    sink: &mut S,
    bytes: &[u8],
    wanted: Result<usize, Failed>,
) {
    assert!(rt; !sink.has_failed());
    let answer = sink.write(bytes);
    check_same(rt, &answer, &wanted, "a write");
    holds(rt, sink.has_failed() == wanted.is_err(), "has_failed");
}

/// Checks that all of the bytes, or this many, are written, and that the sink has failed if not all are.
pub(crate) fn writes_fully<S: ByteSink>(
    rt: &impl Abort,
    sink: &mut S,
    bytes: &[u8],
    wanted: Result<(), WriteFault>,
) {
    assert!(rt; !sink.has_failed());
    let answer = write_fully(sink, bytes);
    check_same(rt, &answer, &wanted, "write_fully");
    holds(rt, sink.has_failed() == wanted.is_err(), "has_failed");
}

/// Checks the answer of a flush, and that the sink has failed if it is an error.
pub(crate) fn flushes<S: ByteSink>(rt: &impl Abort, sink: &mut S, wanted: Result<(), Failed>) {
    assert!(rt; !sink.has_failed());
    let answer = sink.flush();
    check_same(rt, &answer, &wanted, "a flush");
    holds(rt, sink.has_failed() == wanted.is_err(), "has_failed");
}
