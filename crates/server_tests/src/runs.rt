//! Whole runs of the program over memory.

ghost use Rattle.std.specs.Prelude.{◌≡◌, false};

use crate::checks::{holds, push_copies, same_bytes, with_copies};
use crate::devices::{sink, source};
use crate::disk::host_of;
use hcl_source::{ByteSink, ByteSource, MemorySink, SINK_ROOM};
use std::alloc::Global;
use std::process::Abort;
use tfls_command::run::program;

/// A message of an editor, and what is written because of it.
type Said = (&'static [u8], &'static [u8]);

static SESSION: [Said; 6] = [
    (
        b"Content-Length: 75\r\n\r\n{\"jsonrpc\":\"2.0\",\"id\":0,\"method\":\"initialize\",\"params\":{\"capabilities\":{}}}",
        b"Content-Length: 342\r\n\r\n{\"jsonrpc\":\"2.0\",\"id\":0,\"result\":{\"capabilities\":{\"positionEncoding\":\"utf-16\",\"textDocumentSync\":{\"openClose\":true,\"change\":1},\"documentFormattingProvider\":true,\"documentSymbolProvider\":true,\"foldingRangeProvider\":true,\"definitionProvider\":true,\"referencesProvider\":true,\"renameProvider\":true},\"serverInfo\":{\"name\":\"tfls\",\"version\":\"0.3.0\"}}}",
    ),
    (
        b"Content-Length: 107\r\n\r\n{\"jsonrpc\":\"2.0\",\"method\":\"textDocument/didOpen\",\"params\":{\"textDocument\":{\"uri\":\"a\",\"text\":\"a=1\\nb = 2\"}}}",
        b"Content-Length: 98\r\n\r\n{\"jsonrpc\":\"2.0\",\"method\":\"textDocument/publishDiagnostics\",\"params\":{\"uri\":\"a\",\"diagnostics\":[]}}",
    ),
    (
        b"Content-Length: 99\r\n\r\n{\"jsonrpc\":\"2.0\",\"id\":\"x\",\"method\":\"textDocument/formatting\",\"params\":{\"textDocument\":{\"uri\":\"a\"}}}",
        b"Content-Length: 133\r\n\r\n{\"jsonrpc\":\"2.0\",\"id\":\"x\",\"result\":[{\"range\":{\"start\":{\"line\":0,\"character\":0},\"end\":{\"line\":1,\"character\":0}},\"newText\":\"a = 1\\n\"}]}",
    ),
    (
        b"Content-Length: 1\r\n\r\n{",
        b"Content-Length: 72\r\n\r\n{\"jsonrpc\":\"2.0\",\"id\":null,\"error\":{\"code\":-32700,\"message\":\"not JSON\"}}",
    ),
    (
        b"Content-Length: 28\r\n\r\n{\"id\":2,\"method\":\"shutdown\"}",
        b"Content-Length: 38\r\n\r\n{\"jsonrpc\":\"2.0\",\"id\":2,\"result\":null}",
    ),
    (b"Content-Length: 17\r\n\r\n{\"method\":\"exit\"}", b""),
];

/// The output of a run, its message and its status.
type Shown<'a> = (&'a [u8], &'a [u8], u8);

/// How many bytes a call of a device moves at most, and the calls that fail: of each kind the one after this many good
/// ones.
#[derive(Clone, Copy)]
struct Devices {
    most: usize,
    read: Option<usize>,
    write: Option<usize>,
    flush: bool,
    told: Option<usize>,
}

/// Devices that don't fail.
const STEADY: Devices = Devices {
    most: 1,
    read: None,
    write: None,
    flush: false,
    told: None,
};

/// Runs the program, and checks what it shows. Returns whether a device failed.
fn shows(
    rt: &impl Abort,
    alloc: Global,
    words: &[&str],
    input: &[u8],
    devices: Devices,
    wanted: Shown<'_>,
) -> bool {
    let mut from = source(input, devices.most, devices.read);
    let mut out = sink(devices.most, devices.write, devices.flush);
    let mut err = sink(devices.most, devices.told, false);
    let host = host_of(alloc, &[], None);
    let status = program(alloc, &host, words, &mut from, &mut out, &mut err);
    same_bytes(rt, out.bytes(), wanted.0, input);
    same_bytes(rt, err.bytes(), wanted.1, input);
    holds(rt, status == wanted.2, input);
    from.has_failed() || out.has_failed() || err.has_failed()
}

/// Runs the server, and checks what it shows. Returns whether a device failed.
fn serves(
    rt: &impl Abort,
    alloc: Global,
    input: &[u8],
    devices: Devices,
    wanted: Shown<'_>,
) -> bool {
    shows(rt, alloc, &["tfls"], input, devices, wanted)
}

/// The input of the session.
fn input(rt: &impl Abort, alloc: Global) -> Vec<u8> {
    let mut bytes = Vec::new(alloc);
    for (message, _) in SESSION {
        push_copies(rt, &mut bytes, message, 1);
    }
    bytes
}

/// What is written after this many bytes of the input.
fn output_after(rt: &impl Abort, alloc: Global, count: usize) -> Vec<u8> {
    let mut bytes = Vec::new(alloc);
    let mut left = count;
    for (message, reply) in SESSION {
        if message.len() > left {
            return bytes;
        }
        left -= message.len();
        push_copies(rt, &mut bytes, reply, 1);
    }
    bytes
}

const NOT_ENDED: &[u8] = b"tfls: error: input ended without exit\n";

const NOT_READ: &[u8] = b"tfls: error: read failed\n";

const NOT_WRITTEN: &[u8] = b"tfls: error: write failed\n";

const MALFORMED: &[u8] = b"tfls: error: malformed message\n";

/// Each read fails in turn, and then the input ends there.
#[test]
fn reads_fail_and_end(rt: HostRuntime) {
    let alloc = rt.alloc();
    let input = input(&rt, alloc);
    for count in 0..input.len() {
        let wanted = output_after(&rt, alloc, count);
        let devices = Devices {
            read: Some(count),
            ..STEADY
        };
        let failed = serves(&rt, alloc, &input, devices, (&wanted, NOT_READ, 1));
        holds(&rt, failed, &input);
        let (front, _) = input.as_slice().split_at(count);
        serves(&rt, alloc, front, STEADY, (&wanted, NOT_ENDED, 1));
    }
    let wanted = output_after(&rt, alloc, input.len());
    for most in [1, 100, SINK_ROOM] {
        let devices = Devices { most, ..STEADY };
        let failed = serves(&rt, alloc, &input, devices, (&wanted, b"", 0));
        holds(&rt, !failed, &input);
    }
}

/// Each write fails in turn, and the first flush.
#[test]
fn writes_fail(rt: HostRuntime) {
    let alloc = rt.alloc();
    let input = input(&rt, alloc);
    let output = output_after(&rt, alloc, input.len());
    for count in 0..output.len() {
        let (front, _) = output.as_slice().split_at(count);
        let devices = Devices {
            write: Some(count),
            ..STEADY
        };
        let failed = serves(&rt, alloc, &input, devices, (front, NOT_WRITTEN, 1));
        holds(&rt, failed, &input);
    }
    let (_, first) = SESSION[0];
    let devices = Devices {
        most: SINK_ROOM,
        flush: true,
        ..STEADY
    };
    serves(&rt, alloc, &input, devices, (first, NOT_WRITTEN, 1));
}

/// Each write of a message fails in turn. The status stays.
#[test]
fn messages_fail(rt: HostRuntime) {
    for count in 0..NOT_ENDED.len() {
        let (front, _) = NOT_ENDED.split_at(count);
        let devices = Devices {
            told: Some(count),
            ..STEADY
        };
        let failed = serves(&rt, rt.alloc(), b"", devices, (b"", front, 1));
        holds(&rt, failed, b"");
    }
}

const NO_REQUEST: &[u8] =
    b"Content-Length: 77\r\n\r\n{\"jsonrpc\":\"2.0\",\"id\":null,\"error\":{\"code\":-32600,\"message\":\"not a request\"}}";

static INPUTS: [(&[u8], Shown<'static>); 6] = [
    (b"", (b"", NOT_ENDED, 1)),
    (b"x\r\n\r\n", (b"", MALFORMED, 1)),
    (
        b"Content-Length: 17\r\n\r\n{\"method\":\"exit\"}",
        (b"", b"", 1),
    ),
    // what follows `exit` is not read
    (
        b"Content-Length: 17\r\n\r\n{\"method\":\"exit\"}x\r\n\r\n",
        (b"", b"", 1),
    ),
    (
        b"Content-Length: 2\r\n\r\n{}x\r\n\r\n",
        (NO_REQUEST, MALFORMED, 1),
    ),
    (b"Content-Length: 67108865\r\n\r\n", (b"", MALFORMED, 1)),
];

#[test]
fn inputs(rt: HostRuntime) {
    for (input, wanted) in INPUTS {
        serves(&rt, rt.alloc(), input, STEADY, wanted);
    }
}

#[test]
fn many_messages(rt: HostRuntime) {
    let alloc = rt.alloc();
    let message = (
        b"Content-Length: 14\r\n\r\n{\"method\":\"x\"}".as_slice(),
        20_000,
    );
    let input = with_copies(&rt, alloc, b"", message, SESSION[5].0);
    let devices = Devices {
        most: 1_000_000,
        ..STEADY
    };
    serves(&rt, alloc, &input, devices, (b"", b"", 1));
}

const USAGE: &[u8] = b"usage: tfls [--stdio] [--help]\n";

static LINES: [(&[&str], Shown<'static>); 6] = [
    (&["tfls", "--help"], (USAGE, b"", 0)),
    (&["tfls", "-h"], (USAGE, b"", 0)),
    (&["tfls", "--stdio", "--help"], (USAGE, b"", 0)),
    (&["tfls", "x"], (b"", USAGE, 2)),
    (&["tfls", "--bogus"], (b"", USAGE, 2)),
    (&["tfls", "--stdio"], (b"", NOT_ENDED, 1)),
];

#[test]
fn words_of_lines(rt: HostRuntime) {
    for (words, wanted) in LINES {
        shows(&rt, rt.alloc(), words, b"", STEADY, wanted);
    }
    let devices = Devices {
        write: Some(3),
        ..STEADY
    };
    shows(
        &rt,
        rt.alloc(),
        &["tfls", "-h"],
        b"",
        devices,
        (b"usa", NOT_WRITTEN, 1),
    );
}
