//! Calls with ample memory, compared with answers worked out by hand.

use crate::checks::{check_same, flushes, holds, same_text, writes_fully};
use hcl_source::{
    ByteSource, Fault, FaultKind, FromRead, LoadError, MAX_SOURCE, Position, Source, ToWrite,
};
use std::alloc::Global;
use std::process::Abort;
use std::test::Fail;

fn place(line: u32, column: u32) -> Position {
    Position { line, column }
}

#[test]
fn copies_bytes(rt: HostRuntime) -> Result<(), Fail> {
    for text in ["a=1\n", ""] {
        let source = Source::from_bytes(rt.alloc(), text.as_bytes())?;
        same_text(&rt, source.text(), text, "a copy");
    }
    Ok(())
}

#[test]
fn reads_to_the_end(rt: HostRuntime) -> Result<(), Fail> {
    let mut input = FromRead::new(b"a=1".as_slice());
    let source = Source::read_from(rt.alloc(), &mut input)?;
    same_text(&rt, source.text(), "a=1", "what was read");
    holds(&rt, !input.has_failed(), "has_failed");
    Ok(())
}

/// Why bytes are no source, or `None` if they are one.
fn load_fault(alloc: Global, bytes: &[u8]) -> Option<Fault> {
    match Source::from_bytes(alloc, bytes) {
        Err(LoadError::Fault(fault)) => Some(fault),
        _ => None,
    }
}

/// Checks why bytes are refused.
fn check_load(rt: &impl Abort, alloc: Global, bytes: &[u8], kind: FaultKind, at: Position) {
    let fault = load_fault(alloc, bytes);
    check_same(rt, &fault, &Some(Fault { kind, at }), "a load's fault");
}

#[test]
fn refuses_what_is_no_source(rt: HostRuntime) -> Result<(), Fail> {
    let alloc = rt.alloc();
    check_load(&rt, alloc, b"a=\xff", FaultKind::InvalidUtf8, place(1, 3));
    check_load(&rt, alloc, b"e\xcc", FaultKind::InvalidUtf8, place(1, 2));
    check_load(
        &rt,
        alloc,
        b"\xef\xbb\xbfa=1\n",
        FaultKind::ByteOrderMark,
        place(1, 1),
    );
    let large = vec![in alloc; b'\n'; MAX_SOURCE + 1]?;
    check_load(&rt, alloc, &large, FaultKind::TooLarge, place(1, 1));
    let largest = vec![in alloc; b'\n'; MAX_SOURCE]?;
    let source = Source::from_bytes(alloc, &largest)?;
    check_same(&rt, &source.text().len(), &MAX_SOURCE, "the largest source");
    Ok(())
}

#[test]
fn counts_lines_and_clusters(rt: HostRuntime) -> Result<(), Fail> {
    let source = Source::from_bytes(rt.alloc(), b"ab\ne\xcc\x81\tx")?;
    check_same(&rt, &source.position(0), &place(1, 1), "the front");
    check_same(&rt, &source.position(2), &place(1, 3), "the end of a line");
    check_same(&rt, &source.position(3), &place(2, 1), "the next line");
    check_same(&rt, &source.position(6), &place(2, 2), "after a cluster");
    check_same(&rt, &source.position(8), &place(2, 4), "the end");
    Ok(())
}

#[test]
fn writes_all(rt: HostRuntime) -> Result<(), Fail> {
    let mut sink = ToWrite::new(Vec::new(rt.alloc()));
    writes_fully(&rt, &mut sink, b"a = 1\n", Ok(()));
    flushes(&rt, &mut sink, Ok(()));
    Ok(())
}
