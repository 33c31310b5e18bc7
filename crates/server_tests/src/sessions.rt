//! What the server says to messages, one after another.

use crate::checks::{holds, push_copies, same_bytes, with_copies};
use crate::disk::FewFiles;
use editor_modules::ToldMessage;
use editor_session::{Session, Turn};
use std::alloc::Global;
use std::process::Abort;
use tf_rules::Hashing;

/// The body of a message, and the message that it leads to: none is `-`, and the end of the run is its status.
pub type Said = (&'static str, &'static str);

/// What a step leads to: messages in turn each have a line.
fn said(rt: &impl Abort, alloc: Global, turn: &Turn) -> Vec<u8> {
    let mut text = Vec::new(alloc);
    match turn {
        Turn::Quiet => push_copies(rt, &mut text, b"-", 1),
        Turn::Say(body) => push_copies(rt, &mut text, body, 1),
        Turn::Publish(messages) => push_bodies(rt, &mut text, messages),
        Turn::End(0) => push_copies(rt, &mut text, b"0", 1),
        Turn::End(1) => push_copies(rt, &mut text, b"1", 1),
        Turn::End(_) => push_copies(rt, &mut text, b"another status", 1),
    }
    text
}

/// Appends the bodies of these messages, with a newline between two.
fn push_bodies(rt: &impl Abort, text: &mut Vec<u8>, messages: &[ToldMessage]) {
    for message in messages {
        if !text.is_empty() {
            push_copies(rt, text, b"\n", 1);
        }
        push_copies(rt, text, message.body.as_slice(), 1);
    }
}

/// Checks the answer to a message.
fn says(
    rt: &impl Abort,
    alloc: Global,
    session: &mut Session,
    disk: &FewFiles,
    body: &[u8],
    wanted: &[u8],
) {
    match session.step(alloc, disk, body) {
        Ok(turn) => same_bytes(rt, &said(rt, alloc, &turn), wanted, body),
        Err(_) => holds(rt, false, body),
    }
}

/// A session that no message has reached.
pub fn new_session(alloc: Global) -> Session {
    Session::new(alloc, Hashing::with_shared_seed())
}

/// Checks the answers to messages in a session, with these files on the disk.
pub fn goes_on(
    rt: &impl Abort,
    alloc: Global,
    session: &mut Session,
    disk: &FewFiles,
    messages: &[Said],
) {
    for (body, wanted) in messages {
        says(rt, alloc, session, disk, body.as_bytes(), wanted.as_bytes());
    }
}

/// The same from the first message on.
pub fn plays_over(rt: &impl Abort, alloc: Global, disk: &FewFiles, messages: &[Said]) {
    goes_on(rt, alloc, &mut new_session(alloc), disk, messages);
}

/// The same with no file on the disk.
fn plays(rt: &impl Abort, alloc: Global, messages: &[Said]) {
    plays_over(rt, alloc, &FewFiles::new(alloc, &[], None), messages);
}

const NOT_BEGUN: &str =
    r#"{"jsonrpc":"2.0","id":1,"error":{"code":-32002,"message":"not initialized"}}"#;

const NO_REQUEST: &str =
    r#"{"jsonrpc":"2.0","id":null,"error":{"code":-32600,"message":"not a request"}}"#;

const NO_JSON: &str = r#"{"jsonrpc":"2.0","id":null,"error":{"code":-32700,"message":"not JSON"}}"#;

const SHUT_DOWN: &str = r#"{"jsonrpc":"2.0","id":1,"error":{"code":-32600,"message":"shut down"}}"#;

const NOT_KNOWN: &str =
    r#"{"jsonrpc":"2.0","id":1,"error":{"code":-32801,"message":"the text of this document is not known"}}"#;

const NO_FAULT: &str =
    r#"{"jsonrpc":"2.0","method":"textDocument/publishDiagnostics","params":{"uri":"a","diagnostics":[]}}"#;

const NO_EDITS: &str = r#"{"jsonrpc":"2.0","id":1,"result":[]}"#;

const NOTHING: &str = r#"{"jsonrpc":"2.0","id":1,"result":null}"#;

const IN_UTF16: &str =
    r#"{"jsonrpc":"2.0","id":1,"result":{"capabilities":{"positionEncoding":"utf-16","textDocumentSync":{"openClose":true,"change":1},"documentFormattingProvider":true,"documentSymbolProvider":true,"foldingRangeProvider":true,"definitionProvider":true,"referencesProvider":true,"renameProvider":true},"serverInfo":{"name":"tfls","version":"0.3.0"}}}"#;

const IN_BYTES: &str =
    r#"{"jsonrpc":"2.0","id":1,"result":{"capabilities":{"positionEncoding":"utf-8","textDocumentSync":{"openClose":true,"change":1},"documentFormattingProvider":true,"documentSymbolProvider":true,"foldingRangeProvider":true,"definitionProvider":true,"referencesProvider":true,"renameProvider":true},"serverInfo":{"name":"tfls","version":"0.3.0"}}}"#;

pub const BEGIN: Said = (
    r#"{"jsonrpc":"2.0","id":1,"method":"initialize","params":{}}"#,
    IN_UTF16,
);

const BEGIN_IN_BYTES: Said = (
    r#"{"id":1,"method":"initialize","params":{"capabilities":{"general":{"positionEncodings":["utf-16",8,"utf-8"]}}}}"#,
    IN_BYTES,
);

const SHUTDOWN: &str = r#"{"jsonrpc":"2.0","id":1,"method":"shutdown"}"#;

const EXIT: &str = r#"{"jsonrpc":"2.0","method":"exit"}"#;

const FORMAT: &str =
    r#"{"jsonrpc":"2.0","id":1,"method":"textDocument/formatting","params":{"textDocument":{"uri":"a"}}}"#;

const OPEN: &str =
    r#"{"method":"textDocument/didOpen","params":{"textDocument":{"uri":"a","text":"a=1\n"}}}"#;

const ONE_EDIT: &str =
    r#"{"jsonrpc":"2.0","id":1,"result":[{"range":{"start":{"line":0,"character":0},"end":{"line":1,"character":0}},"newText":"a = 1\n"}]}"#;

/// Before `initialize`, after it, and after `shutdown`.
static PHASES: [Said; 21] = [
    (SHUTDOWN, NOT_BEGUN),
    (FORMAT, NOT_BEGUN),
    (r#"{"id":1,"method":"x"}"#, NOT_BEGUN),
    (OPEN, "-"),
    (r#"{"method":"initialize"}"#, "-"),
    (EXIT, "1"),
    BEGIN,
    (FORMAT, NOT_KNOWN),
    (
        r#"{"id":1,"method":"initialize"}"#,
        r#"{"jsonrpc":"2.0","id":1,"error":{"code":-32600,"message":"initialized already"}}"#,
    ),
    (
        r#"{"id":1,"method":"textDocument/hover"}"#,
        r#"{"jsonrpc":"2.0","id":1,"error":{"code":-32601,"message":"unknown method"}}"#,
    ),
    (r#"{"method":"initialized","params":{}}"#, "-"),
    (r#"{"method":"$/cancelRequest","params":{"id":1}}"#, "-"),
    (OPEN, NO_FAULT),
    (EXIT, "1"),
    (SHUTDOWN, NOTHING),
    (SHUTDOWN, SHUT_DOWN),
    (FORMAT, SHUT_DOWN),
    (r#"{"id":1,"method":"initialize"}"#, SHUT_DOWN),
    (r#"{"id":1,"method":"x"}"#, SHUT_DOWN),
    ("[]", NO_REQUEST),
    (EXIT, "0"),
];

/// What is no message, or none of a method, and ids.
static MESSAGES: [Said; 24] = [
    ("", NO_JSON),
    ("{", NO_JSON),
    ("{} {}", NO_JSON),
    ("{\"id\":\"\\ud800\"}", NO_JSON),
    ("[]", NO_REQUEST),
    ("1", NO_REQUEST),
    ("null", NO_REQUEST),
    ("{}", NO_REQUEST),
    (r#"{"id":1.5,"method":"x"}"#, NO_REQUEST),
    (r#"{"id":1e2,"method":"x"}"#, NO_REQUEST),
    (r#"{"id":1E2,"method":"x"}"#, NO_REQUEST),
    (r#"{"id":null,"method":"x"}"#, NO_REQUEST),
    (r#"{"id":[1],"method":"x"}"#, NO_REQUEST),
    (r#"{"id":{},"method":"shutdown"}"#, NO_REQUEST),
    (
        r#"{"id":1}"#,
        r#"{"jsonrpc":"2.0","id":1,"error":{"code":-32600,"message":"not a request"}}"#,
    ),
    (
        r#"{"id":"b","method":1}"#,
        r#"{"jsonrpc":"2.0","id":"b","error":{"code":-32600,"message":"not a request"}}"#,
    ),
    // a response, with a result or an error
    (r#"{"id":1,"result":null}"#, "-"),
    (r#"{"id":1,"error":{"code":1,"message":""}}"#, "-"),
    // an id is repeated as it is
    (
        r#"{"id":-0,"method":"x"}"#,
        r#"{"jsonrpc":"2.0","id":-0,"error":{"code":-32002,"message":"not initialized"}}"#,
    ),
    (
        r#"{"id":123456789012345678901234567890,"method":"x"}"#,
        r#"{"jsonrpc":"2.0","id":123456789012345678901234567890,"error":{"code":-32002,"message":"not initialized"}}"#,
    ),
    (
        r#"{"id":"1.5","method":"x"}"#,
        r#"{"jsonrpc":"2.0","id":"1.5","error":{"code":-32002,"message":"not initialized"}}"#,
    ),
    (
        "{\"id\":\"\\u00e9\\\"\\n\",\"method\":\"x\"}",
        "{\"jsonrpc\":\"2.0\",\"id\":\"\u{e9}\\\"\\n\",\"error\":{\"code\":-32002,\"message\":\"not initialized\"}}",
    ),
    // of members that come twice the last counts
    (r#"{"id":2,"method":"x","id":1}"#, NOT_BEGUN),
    (r#"{"id":1,"method":"x","method":"exit"}"#, NOT_BEGUN),
];

/// Offers of encodings that don't have the text `utf-8`.
static OFFERS: [&str; 5] = [
    r#"{"id":1,"method":"initialize"}"#,
    r#"{"id":1,"method":"initialize","params":{"capabilities":{"general":{"positionEncodings":"utf-8"}}}}"#,
    r#"{"id":1,"method":"initialize","params":{"capabilities":{"general":{"positionEncodings":["utf-16","UTF-8"]}}}}"#,
    r#"{"id":1,"method":"initialize","params":{"capabilities":{"general":["utf-8"]}}}"#,
    r#"{"id":1,"method":"initialize","params":["utf-8"]}"#,
];

#[test]
fn phases_and_messages(rt: HostRuntime) {
    plays(&rt, rt.alloc(), &PHASES);
    plays(&rt, rt.alloc(), &MESSAGES);
    for offer in OFFERS {
        plays(&rt, rt.alloc(), &[(offer, IN_UTF16)]);
    }
}

/// Documents that are opened, changed and closed.
static DOCUMENTS: [Said; 34] = [
    BEGIN,
    (FORMAT, NOT_KNOWN),
    (OPEN, NO_FAULT),
    (FORMAT, ONE_EDIT),
    (FORMAT, ONE_EDIT),
    // another document
    (
        r#"{"method":"textDocument/didOpen","params":{"textDocument":{"uri":"A","text":"b\n"}}}"#,
        r#"{"jsonrpc":"2.0","method":"textDocument/publishDiagnostics","params":{"uri":"A","diagnostics":[{"range":{"start":{"line":0,"character":1},"end":{"line":0,"character":1}},"severity":1,"source":"tfls","message":"unexpected token"}]}}"#,
    ),
    (
        r#"{"method":"textDocument/didClose","params":{"textDocument":{"uri":"A"}}}"#,
        r#"{"jsonrpc":"2.0","method":"textDocument/publishDiagnostics","params":{"uri":"A","diagnostics":[]}}"#,
    ),
    (FORMAT, ONE_EDIT),
    // the last change counts
    (
        r#"{"method":"textDocument/didChange","params":{"textDocument":{"uri":"a"},"contentChanges":[{"text":"a"},{"text":"a = 1\n"}]}}"#,
        NO_FAULT,
    ),
    (FORMAT, NO_EDITS),
    // a text that is refused has no edits
    (
        r#"{"method":"textDocument/didChange","params":{"textDocument":{"uri":"a"},"contentChanges":[{"text":"a={\n"}]}}"#,
        r#"{"jsonrpc":"2.0","method":"textDocument/publishDiagnostics","params":{"uri":"a","diagnostics":[{"range":{"start":{"line":1,"character":0},"end":{"line":1,"character":0}},"severity":1,"source":"tfls","message":"unexpected end"}]}}"#,
    ),
    (FORMAT, NO_EDITS),
    // of a change of a range the text is not known
    (
        r#"{"method":"textDocument/didChange","params":{"textDocument":{"uri":"a"},"contentChanges":[{"text":"a=1\n"},{"range":null,"text":"b=1\n"}]}}"#,
        NO_FAULT,
    ),
    (FORMAT, NOT_KNOWN),
    // a document that was not opened has the text to which it changes
    (
        r#"{"method":"textDocument/didChange","params":{"textDocument":{"uri":"a"},"contentChanges":[{"range":1,"text":"b"},{"text":"a=1\n"}]}}"#,
        NO_FAULT,
    ),
    (FORMAT, ONE_EDIT),
    // no changes
    (
        r#"{"method":"textDocument/didChange","params":{"textDocument":{"uri":"a"},"contentChanges":[]}}"#,
        NO_FAULT,
    ),
    (FORMAT, NOT_KNOWN),
    (OPEN, NO_FAULT),
    (
        r#"{"method":"textDocument/didChange","params":{"textDocument":{"uri":"a"}}}"#,
        NO_FAULT,
    ),
    (FORMAT, NOT_KNOWN),
    // an opened document without a text
    (OPEN, NO_FAULT),
    (
        r#"{"method":"textDocument/didOpen","params":{"textDocument":{"uri":"a"}}}"#,
        NO_FAULT,
    ),
    (FORMAT, NOT_KNOWN),
    // a body that is no JSON
    (OPEN, NO_FAULT),
    (FORMAT, ONE_EDIT),
    ("{\"method\":", NO_JSON),
    (FORMAT, NOT_KNOWN),
    // what has no effect on a text
    (OPEN, NO_FAULT),
    ("[]", NO_REQUEST),
    (
        r#"{"method":"textDocument/didSave","params":{"textDocument":{"uri":"a","text":"b\n"}}}"#,
        "-",
    ),
    (FORMAT, ONE_EDIT),
    // a document that is closed
    (
        r#"{"method":"textDocument/didClose","params":{"textDocument":{"uri":"a"}}}"#,
        NO_FAULT,
    ),
    (FORMAT, NOT_KNOWN),
];

/// A request that names no document.
static NAMELESS: [Said; 4] = [
    BEGIN,
    (OPEN, NO_FAULT),
    (
        r#"{"id":"f","method":"textDocument/formatting","params":{}}"#,
        r#"{"jsonrpc":"2.0","id":"f","error":{"code":-32602,"message":"no document is named"}}"#,
    ),
    (
        r#"{"id":"f","method":"textDocument/formatting","params":{"textDocument":{"uri":1}}}"#,
        r#"{"jsonrpc":"2.0","id":"f","error":{"code":-32602,"message":"no document is named"}}"#,
    ),
];

const SYMBOLS: &str =
    r#"{"id":1,"method":"textDocument/documentSymbol","params":{"textDocument":{"uri":"a"}}}"#;

const FOLDS: &str =
    r#"{"id":1,"method":"textDocument/foldingRange","params":{"textDocument":{"uri":"a"}}}"#;

const NAMELESS_REQUEST: &str =
    r#"{"jsonrpc":"2.0","id":1,"error":{"code":-32602,"message":"no document is named"}}"#;

/// The symbols and the folds of a document.
static OUTLINES: [Said; 15] = [
    (SYMBOLS, NOT_BEGUN),
    (FOLDS, NOT_BEGUN),
    BEGIN,
    (SYMBOLS, NOT_KNOWN),
    (FOLDS, NOT_KNOWN),
    (
        r#"{"method":"textDocument/didOpen","params":{"textDocument":{"uri":"a","text":"b \"\u00e9\" c {\n  d = [\n    1,\n  ]\n}\n"}}}"#,
        NO_FAULT,
    ),
    (
        SYMBOLS,
        "{\"jsonrpc\":\"2.0\",\"id\":1,\"result\":[{\"name\":\"b \\\"\u{e9}\\\" \\\"c\\\"\",\"kind\":5,\"range\":{\"start\":{\"line\":0,\"character\":0},\"end\":{\"line\":4,\"character\":1}},\"selectionRange\":{\"start\":{\"line\":0,\"character\":0},\"end\":{\"line\":0,\"character\":1}},\"children\":[{\"name\":\"d\",\"kind\":7,\"range\":{\"start\":{\"line\":1,\"character\":2},\"end\":{\"line\":3,\"character\":3}},\"selectionRange\":{\"start\":{\"line\":1,\"character\":2},\"end\":{\"line\":1,\"character\":3}},\"children\":[]}]}]}",
    ),
    (
        FOLDS,
        r#"{"jsonrpc":"2.0","id":1,"result":[{"startLine":0,"endLine":3},{"startLine":1,"endLine":2}]}"#,
    ),
    // a refused text has none
    (
        r#"{"method":"textDocument/didChange","params":{"textDocument":{"uri":"a"},"contentChanges":[{"text":"a={\n"}]}}"#,
        r#"{"jsonrpc":"2.0","method":"textDocument/publishDiagnostics","params":{"uri":"a","diagnostics":[{"range":{"start":{"line":1,"character":0},"end":{"line":1,"character":0}},"severity":1,"source":"tfls","message":"unexpected end"}]}}"#,
    ),
    (SYMBOLS, NO_EDITS),
    (FOLDS, NO_EDITS),
    (
        r#"{"id":1,"method":"textDocument/documentSymbol","params":{}}"#,
        NAMELESS_REQUEST,
    ),
    (
        r#"{"id":1,"method":"textDocument/foldingRange"}"#,
        NAMELESS_REQUEST,
    ),
    (SHUTDOWN, NOTHING),
    (SYMBOLS, SHUT_DOWN),
];

#[test]
fn outlines(rt: HostRuntime) {
    plays(&rt, rt.alloc(), &OUTLINES);
}

/// A text with two runs of lines that differ. Its last line has no LF.
const RUNS: Said = (
    "{\"method\":\"textDocument/didOpen\",\"params\":{\"textDocument\":{\"uri\":\"a\",\"text\":\"a=1\\r\\n\\r\\nb = 2 # \u{1f600}\\nc  = 3 # \\ud83d\\ude00\"}}}",
    NO_FAULT,
);

static RUNS_IN_UTF16: [Said; 3] = [
    BEGIN,
    RUNS,
    (
        FORMAT,
        "{\"jsonrpc\":\"2.0\",\"id\":1,\"result\":[{\"range\":{\"start\":{\"line\":0,\"character\":0},\"end\":{\"line\":1,\"character\":0}},\"newText\":\"a = 1\\r\\n\"},{\"range\":{\"start\":{\"line\":3,\"character\":0},\"end\":{\"line\":3,\"character\":11}},\"newText\":\"c = 3 # \u{1f600}\"}]}",
    ),
];

static RUNS_IN_BYTES: [Said; 3] = [
    BEGIN_IN_BYTES,
    RUNS,
    (
        FORMAT,
        "{\"jsonrpc\":\"2.0\",\"id\":1,\"result\":[{\"range\":{\"start\":{\"line\":0,\"character\":0},\"end\":{\"line\":1,\"character\":0}},\"newText\":\"a = 1\\r\\n\"},{\"range\":{\"start\":{\"line\":3,\"character\":0},\"end\":{\"line\":3,\"character\":13}},\"newText\":\"c = 3 # \u{1f600}\"}]}",
    ),
];

#[test]
fn documents(rt: HostRuntime) {
    plays(&rt, rt.alloc(), &DOCUMENTS);
    plays(&rt, rt.alloc(), &NAMELESS);
    plays(&rt, rt.alloc(), &RUNS_IN_UTF16);
    plays(&rt, rt.alloc(), &RUNS_IN_BYTES);
}

/// JSON within 128 levels, and within one more.
#[test]
fn deep_messages(rt: HostRuntime) {
    let alloc = rt.alloc();
    for (levels, wanted) in [
        (127, NO_REQUEST),
        (128, NO_REQUEST),
        (129, NO_JSON),
        (100_000, NO_JSON),
    ] {
        let mut body = with_copies(&rt, alloc, b"", (b"[", levels), b"");
        push_copies(&rt, &mut body, b"]", levels);
        let disk = FewFiles::new(alloc, &[], None);
        says(
            &rt,
            alloc,
            &mut new_session(alloc),
            &disk,
            &body,
            wanted.as_bytes(),
        );
    }
}

/// A document of 20,000 lines that one edit formats.
#[test]
fn a_large_document(rt: HostRuntime) {
    let alloc = rt.alloc();
    let first =
        b"{\"method\":\"textDocument/didOpen\",\"params\":{\"textDocument\":{\"uri\":\"a\",\"text\":\"";
    let open = with_copies(&rt, alloc, first, (b"a=1\\n", 20_000), b"\"}}}");
    let first =
        b"{\"jsonrpc\":\"2.0\",\"id\":1,\"result\":[{\"range\":{\"start\":{\"line\":0,\"character\":0},\"end\":{\"line\":20000,\"character\":0}},\"newText\":\"";
    let wanted = with_copies(&rt, alloc, first, (b"a = 1\\n", 20_000), b"\"}]}");
    let disk = FewFiles::new(alloc, &[], None);
    let mut session = new_session(alloc);
    says(
        &rt,
        alloc,
        &mut session,
        &disk,
        BEGIN.0.as_bytes(),
        BEGIN.1.as_bytes(),
    );
    says(&rt, alloc, &mut session, &disk, &open, NO_FAULT.as_bytes());
    says(&rt, alloc, &mut session, &disk, FORMAT.as_bytes(), &wanted);
}

/// A body that is no text.
#[test]
fn invalid_text(rt: HostRuntime) {
    says(
        &rt,
        rt.alloc(),
        &mut new_session(rt.alloc()),
        &FewFiles::new(rt.alloc(), &[], None),
        b"{\"id\":\"\xff\"}",
        NO_JSON.as_bytes(),
    );
}
