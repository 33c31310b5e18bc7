//! What the server says of modules on a disk.

use crate::checks::{holds, push_copies, same_bytes};
use crate::devices::{sink, source};
use crate::disk::{Entry, FewFiles, host_of};
use crate::sessions::{BEGIN, Said, goes_on, new_session, plays_over};
use editor_session::Turn;
use hcl_source::{ByteSink, ByteSource};
use std::alloc::Global;
use std::process::Abort;
use tfls_command::run::program;

/// A module with a file that isn't opened, one that is, and files that are none of it.
static MODULE: [Entry; 5] = [
    ("/m/main.tf", "variable \"a\" {\n}\n"),
    (
        "/m/b c.tf",
        "variable \"b\" {\n  type = string\n}\nvariable \"c\" {}\n",
    ),
    ("/m/notes.txt", "x"),
    ("/m/n/main.tf", "variable \"n\" {}\n"),
    (
        "/m/.tfrules",
        "--rules terraform_typed_variables,terraform_unused_declarations\n",
    ),
];

static MESSAGES: [Said; 7] = [
    BEGIN,
    // the open text is linted, not the saved one, and the URI stays the editor's
    (
        r#"{"method":"textDocument/didOpen","params":{"textDocument":{"uri":"file:///m/m%61in.tf","text":"\nvariable \"a\" {}\n"}}}"#,
        r#"{"jsonrpc":"2.0","method":"textDocument/publishDiagnostics","params":{"uri":"file:///m/b%20c.tf","diagnostics":[{"range":{"start":{"line":0,"character":0},"end":{"line":0,"character":1}},"severity":2,"code":"terraform_unused_declarations","codeDescription":{"href":"https://github.com/terraform-linters/tflint-ruleset-terraform/blob/main/docs/rules/terraform_unused_declarations.md"},"source":"tfls","message":"variable \"b\" is declared but not used"},{"range":{"start":{"line":3,"character":0},"end":{"line":3,"character":1}},"severity":2,"code":"terraform_typed_variables","codeDescription":{"href":"https://github.com/terraform-linters/tflint-ruleset-terraform/blob/main/docs/rules/terraform_typed_variables.md"},"source":"tfls","message":"variable \"c\" has no type"},{"range":{"start":{"line":3,"character":0},"end":{"line":3,"character":1}},"severity":2,"code":"terraform_unused_declarations","codeDescription":{"href":"https://github.com/terraform-linters/tflint-ruleset-terraform/blob/main/docs/rules/terraform_unused_declarations.md"},"source":"tfls","message":"variable \"c\" is declared but not used"}]}}
{"jsonrpc":"2.0","method":"textDocument/publishDiagnostics","params":{"uri":"file:///m/m%61in.tf","diagnostics":[{"range":{"start":{"line":1,"character":0},"end":{"line":1,"character":1}},"severity":2,"code":"terraform_typed_variables","codeDescription":{"href":"https://github.com/terraform-linters/tflint-ruleset-terraform/blob/main/docs/rules/terraform_typed_variables.md"},"source":"tfls","message":"variable \"a\" has no type"},{"range":{"start":{"line":1,"character":0},"end":{"line":1,"character":1}},"severity":2,"code":"terraform_unused_declarations","codeDescription":{"href":"https://github.com/terraform-linters/tflint-ruleset-terraform/blob/main/docs/rules/terraform_unused_declarations.md"},"source":"tfls","message":"variable \"a\" is declared but not used"}]}}"#,
    ),
    // a refused file has its fault, and the other one no unused declaration
    (
        r#"{"method":"textDocument/didChange","params":{"textDocument":{"uri":"file:///m/m%61in.tf"},"contentChanges":[{"text":"a="}]}}"#,
        r#"{"jsonrpc":"2.0","method":"textDocument/publishDiagnostics","params":{"uri":"file:///m/b%20c.tf","diagnostics":[{"range":{"start":{"line":3,"character":0},"end":{"line":3,"character":1}},"severity":2,"code":"terraform_typed_variables","codeDescription":{"href":"https://github.com/terraform-linters/tflint-ruleset-terraform/blob/main/docs/rules/terraform_typed_variables.md"},"source":"tfls","message":"variable \"c\" has no type"}]}}
{"jsonrpc":"2.0","method":"textDocument/publishDiagnostics","params":{"uri":"file:///m/m%61in.tf","diagnostics":[{"range":{"start":{"line":0,"character":2},"end":{"line":0,"character":2}},"severity":1,"source":"tfls","message":"unexpected end"}]}}"#,
    ),
    // a file that isn't on the disk yet, and refers to the variable of another
    (
        r#"{"method":"textDocument/didOpen","params":{"textDocument":{"uri":"file:///m/new.tofu","text":"output \"o\" {\n  value = var.b\n}\n"}}}"#,
        r#"{"jsonrpc":"2.0","method":"textDocument/publishDiagnostics","params":{"uri":"file:///m/b%20c.tf","diagnostics":[{"range":{"start":{"line":3,"character":0},"end":{"line":3,"character":1}},"severity":2,"code":"terraform_typed_variables","codeDescription":{"href":"https://github.com/terraform-linters/tflint-ruleset-terraform/blob/main/docs/rules/terraform_typed_variables.md"},"source":"tfls","message":"variable \"c\" has no type"}]}}
{"jsonrpc":"2.0","method":"textDocument/publishDiagnostics","params":{"uri":"file:///m/m%61in.tf","diagnostics":[{"range":{"start":{"line":0,"character":2},"end":{"line":0,"character":2}},"severity":1,"source":"tfls","message":"unexpected end"}]}}
{"jsonrpc":"2.0","method":"textDocument/publishDiagnostics","params":{"uri":"file:///m/new.tofu","diagnostics":[]}}"#,
    ),
    // after a close the saved text counts
    (
        r#"{"method":"textDocument/didClose","params":{"textDocument":{"uri":"file:///m/m%61in.tf"}}}"#,
        r#"{"jsonrpc":"2.0","method":"textDocument/publishDiagnostics","params":{"uri":"file:///m/m%61in.tf","diagnostics":[]}}
{"jsonrpc":"2.0","method":"textDocument/publishDiagnostics","params":{"uri":"file:///m/b%20c.tf","diagnostics":[{"range":{"start":{"line":3,"character":0},"end":{"line":3,"character":1}},"severity":2,"code":"terraform_typed_variables","codeDescription":{"href":"https://github.com/terraform-linters/tflint-ruleset-terraform/blob/main/docs/rules/terraform_typed_variables.md"},"source":"tfls","message":"variable \"c\" has no type"},{"range":{"start":{"line":3,"character":0},"end":{"line":3,"character":1}},"severity":2,"code":"terraform_unused_declarations","codeDescription":{"href":"https://github.com/terraform-linters/tflint-ruleset-terraform/blob/main/docs/rules/terraform_unused_declarations.md"},"source":"tfls","message":"variable \"c\" is declared but not used"}]}}
{"jsonrpc":"2.0","method":"textDocument/publishDiagnostics","params":{"uri":"file:///m/main.tf","diagnostics":[{"range":{"start":{"line":0,"character":0},"end":{"line":0,"character":1}},"severity":2,"code":"terraform_typed_variables","codeDescription":{"href":"https://github.com/terraform-linters/tflint-ruleset-terraform/blob/main/docs/rules/terraform_typed_variables.md"},"source":"tfls","message":"variable \"a\" has no type"},{"range":{"start":{"line":0,"character":0},"end":{"line":0,"character":1}},"severity":2,"code":"terraform_unused_declarations","codeDescription":{"href":"https://github.com/terraform-linters/tflint-ruleset-terraform/blob/main/docs/rules/terraform_unused_declarations.md"},"source":"tfls","message":"variable \"a\" is declared but not used"}]}}
{"jsonrpc":"2.0","method":"textDocument/publishDiagnostics","params":{"uri":"file:///m/new.tofu","diagnostics":[]}}"#,
    ),
    // a file of no module is told alone
    (
        r#"{"method":"textDocument/didOpen","params":{"textDocument":{"uri":"file:///m/a.tfvars","text":"b = 1\n"}}}"#,
        r#"{"jsonrpc":"2.0","method":"textDocument/publishDiagnostics","params":{"uri":"file:///m/a.tfvars","diagnostics":[]}}"#,
    ),
    // and so is one whose name is passed over
    (
        r#"{"method":"textDocument/didOpen","params":{"textDocument":{"uri":"file:///m/.x.tf","text":"a="}}}"#,
        r#"{"jsonrpc":"2.0","method":"textDocument/publishDiagnostics","params":{"uri":"file:///m/.x.tf","diagnostics":[{"range":{"start":{"line":0,"character":2},"end":{"line":0,"character":2}},"severity":1,"source":"tfls","message":"unexpected end"}]}}"#,
    ),
];

/// A module whose `.tfrules` is wrong.
static WRONG: [Entry; 2] = [
    ("/m/main.tf", "variable \"a\" {}\n"),
    ("/m/.tfrules", "--rules x\n"),
];

static WRONG_MESSAGES: [Said; 2] = [
    BEGIN,
    (
        r#"{"method":"textDocument/didOpen","params":{"textDocument":{"uri":"file:///m/main.tf","text":"variable \"a\" {}\n"}}}"#,
        r#"{"jsonrpc":"2.0","method":"textDocument/publishDiagnostics","params":{"uri":"file:///m/main.tf","diagnostics":[]}}"#,
    ),
];

/// Files whose names are odd, and one without a folder.
static ODD: [Entry; 3] = [("/k/q?.tf", ""), ("/k/n/y.tf", ""), ("h/main.tf", "")];

static ODD_MESSAGES: [Said; 7] = [
    BEGIN,
    (
        r#"{"method":"textDocument/didOpen","params":{"textDocument":{"uri":"file:///k/n/y.tf","text":""}}}"#,
        r#"{"jsonrpc":"2.0","method":"textDocument/publishDiagnostics","params":{"uri":"file:///k/n/y.tf","diagnostics":[]}}"#,
    ),
    // a document below the folder isn't in it
    (
        r#"{"method":"textDocument/didOpen","params":{"textDocument":{"uri":"file:///k/z.tf","text":""}}}"#,
        r#"{"jsonrpc":"2.0","method":"textDocument/publishDiagnostics","params":{"uri":"file:///k/q%3F.tf","diagnostics":[]}}
{"jsonrpc":"2.0","method":"textDocument/publishDiagnostics","params":{"uri":"file:///k/z.tf","diagnostics":[]}}"#,
    ),
    // the newest document of a file counts
    (
        r#"{"method":"textDocument/didOpen","params":{"textDocument":{"uri":"file:///k/%7A.tf","text":"a="}}}"#,
        r#"{"jsonrpc":"2.0","method":"textDocument/publishDiagnostics","params":{"uri":"file:///k/q%3F.tf","diagnostics":[]}}
{"jsonrpc":"2.0","method":"textDocument/publishDiagnostics","params":{"uri":"file:///k/%7A.tf","diagnostics":[{"range":{"start":{"line":0,"character":2},"end":{"line":0,"character":2}},"severity":1,"source":"tfls","message":"unexpected end"}]}}"#,
    ),
    // URIs that are no file's
    (
        r#"{"method":"textDocument/didOpen","params":{"textDocument":{"uri":"file:///k/a?.tf","text":""}}}"#,
        r#"{"jsonrpc":"2.0","method":"textDocument/publishDiagnostics","params":{"uri":"file:///k/a?.tf","diagnostics":[]}}"#,
    ),
    (
        r#"{"method":"textDocument/didOpen","params":{"textDocument":{"uri":"file:///k/%00.tf","text":""}}}"#,
        r#"{"jsonrpc":"2.0","method":"textDocument/publishDiagnostics","params":{"uri":"file:///k/%00.tf","diagnostics":[]}}"#,
    ),
    (
        r#"{"method":"textDocument/didOpen","params":{"textDocument":{"uri":"file://h/main.tf","text":"variable \"a\" {}\n"}}}"#,
        r#"{"jsonrpc":"2.0","method":"textDocument/publishDiagnostics","params":{"uri":"file://h/main.tf","diagnostics":[]}}"#,
    ),
];

#[test]
fn modules(rt: HostRuntime) {
    let alloc = rt.alloc();
    let disk = FewFiles::new(alloc, &MODULE, None);
    plays_over(&rt, alloc, &disk, &MESSAGES);
    let disk = FewFiles::new(alloc, &WRONG, None);
    plays_over(&rt, alloc, &disk, &WRONG_MESSAGES);
    let disk = FewFiles::new(alloc, &ODD, None);
    plays_over(&rt, alloc, &disk, &ODD_MESSAGES);
}

/// A module of three files, what is left of it when two are deleted, and two with wrong options.
static WHOLE: [Entry; 4] = [
    ("/d/a.tf", "variable \"a\" {}\n"),
    ("/d/b.tf", "variable \"b\" {}\n"),
    ("/d/z.tf", ""),
    ("/d/.tfrules", "--rules terraform_typed_variables\n"),
];

static LEFT: [Entry; 2] = [
    ("/d/a.tf", "variable \"a\" {}\n"),
    ("/d/.tfrules", "--rules terraform_typed_variables\n"),
];

static UNKNOWN: [Entry; 3] = [
    ("/d/a.tf", "variable \"a\" {}\n"),
    ("/d/b.tf", "variable \"b\" {}\n"),
    ("/d/.tfrules", "--rules x\n"),
];

static OPENED: [Said; 2] = [
    BEGIN,
    (
        r#"{"method":"textDocument/didOpen","params":{"textDocument":{"uri":"file:///d/a.tf","text":"variable \"a\" {}\n"}}}"#,
        r#"{"jsonrpc":"2.0","method":"textDocument/publishDiagnostics","params":{"uri":"file:///d/a.tf","diagnostics":[{"range":{"start":{"line":0,"character":0},"end":{"line":0,"character":1}},"severity":2,"code":"terraform_typed_variables","codeDescription":{"href":"https://github.com/terraform-linters/tflint-ruleset-terraform/blob/main/docs/rules/terraform_typed_variables.md"},"source":"tfls","message":"variable \"a\" has no type"}]}}
{"jsonrpc":"2.0","method":"textDocument/publishDiagnostics","params":{"uri":"file:///d/b.tf","diagnostics":[{"range":{"start":{"line":0,"character":0},"end":{"line":0,"character":1}},"severity":2,"code":"terraform_typed_variables","codeDescription":{"href":"https://github.com/terraform-linters/tflint-ruleset-terraform/blob/main/docs/rules/terraform_typed_variables.md"},"source":"tfls","message":"variable \"b\" has no type"}]}}
{"jsonrpc":"2.0","method":"textDocument/publishDiagnostics","params":{"uri":"file:///d/z.tf","diagnostics":[]}}"#,
    ),
];

/// What was told of a deleted file is withdrawn, once. Nothing was of the other one.
static DELETED: [Said; 2] = [
    (
        r#"{"method":"textDocument/didChange","params":{"textDocument":{"uri":"file:///d/a.tf"},"contentChanges":[{"text":""}]}}"#,
        r#"{"jsonrpc":"2.0","method":"textDocument/publishDiagnostics","params":{"uri":"file:///d/b.tf","diagnostics":[]}}
{"jsonrpc":"2.0","method":"textDocument/publishDiagnostics","params":{"uri":"file:///d/a.tf","diagnostics":[]}}"#,
    ),
    (
        r#"{"method":"textDocument/didChange","params":{"textDocument":{"uri":"file:///d/a.tf"},"contentChanges":[{"text":"a="}]}}"#,
        r#"{"jsonrpc":"2.0","method":"textDocument/publishDiagnostics","params":{"uri":"file:///d/a.tf","diagnostics":[{"range":{"start":{"line":0,"character":2},"end":{"line":0,"character":2}},"severity":1,"source":"tfls","message":"unexpected end"}]}}"#,
    ),
];

/// The files are there again, and another document is opened.
static BACK: [Said; 1] = [(
    r#"{"method":"textDocument/didOpen","params":{"textDocument":{"uri":"file:///d/c.tf","text":"b="}}}"#,
    r#"{"jsonrpc":"2.0","method":"textDocument/publishDiagnostics","params":{"uri":"file:///d/a.tf","diagnostics":[{"range":{"start":{"line":0,"character":2},"end":{"line":0,"character":2}},"severity":1,"source":"tfls","message":"unexpected end"}]}}
{"jsonrpc":"2.0","method":"textDocument/publishDiagnostics","params":{"uri":"file:///d/b.tf","diagnostics":[{"range":{"start":{"line":0,"character":0},"end":{"line":0,"character":1}},"severity":2,"code":"terraform_typed_variables","codeDescription":{"href":"https://github.com/terraform-linters/tflint-ruleset-terraform/blob/main/docs/rules/terraform_typed_variables.md"},"source":"tfls","message":"variable \"b\" has no type"}]}}
{"jsonrpc":"2.0","method":"textDocument/publishDiagnostics","params":{"uri":"file:///d/c.tf","diagnostics":[{"range":{"start":{"line":0,"character":2},"end":{"line":0,"character":2}},"severity":1,"source":"tfls","message":"unexpected end"}]}}
{"jsonrpc":"2.0","method":"textDocument/publishDiagnostics","params":{"uri":"file:///d/z.tf","diagnostics":[]}}"#,
)];

/// Once the module can't be linted, the open documents still have their faults, and the other file nothing.
static UNLINTED: [Said; 3] = [
    (
        r#"{"method":"textDocument/didChange","params":{"textDocument":{"uri":"file:///d/c.tf"},"contentChanges":[{"text":"b="}]}}"#,
        r#"{"jsonrpc":"2.0","method":"textDocument/publishDiagnostics","params":{"uri":"file:///d/c.tf","diagnostics":[{"range":{"start":{"line":0,"character":2},"end":{"line":0,"character":2}},"severity":1,"source":"tfls","message":"unexpected end"}]}}
{"jsonrpc":"2.0","method":"textDocument/publishDiagnostics","params":{"uri":"file:///d/a.tf","diagnostics":[{"range":{"start":{"line":0,"character":2},"end":{"line":0,"character":2}},"severity":1,"source":"tfls","message":"unexpected end"}]}}
{"jsonrpc":"2.0","method":"textDocument/publishDiagnostics","params":{"uri":"file:///d/b.tf","diagnostics":[]}}"#,
    ),
    (
        r#"{"method":"textDocument/didChange","params":{"textDocument":{"uri":"file:///d/c.tf"},"contentChanges":[{"text":""}]}}"#,
        r#"{"jsonrpc":"2.0","method":"textDocument/publishDiagnostics","params":{"uri":"file:///d/c.tf","diagnostics":[]}}"#,
    ),
    (
        r#"{"method":"textDocument/didClose","params":{"textDocument":{"uri":"file:///d/a.tf"}}}"#,
        r#"{"jsonrpc":"2.0","method":"textDocument/publishDiagnostics","params":{"uri":"file:///d/a.tf","diagnostics":[]}}"#,
    ),
];

/// What an editor shows of a module is withdrawn when it isn't told again.
#[test]
fn what_is_shown_no_more(rt: HostRuntime) {
    let alloc = rt.alloc();
    let mut session = new_session(alloc);
    let whole = FewFiles::new(alloc, &WHOLE, None);
    goes_on(&rt, alloc, &mut session, &whole, &OPENED);
    let left = FewFiles::new(alloc, &LEFT, None);
    goes_on(&rt, alloc, &mut session, &left, &DELETED);
    goes_on(&rt, alloc, &mut session, &whole, &BACK);
    let unknown = FewFiles::new(alloc, &UNKNOWN, None);
    goes_on(&rt, alloc, &mut session, &unknown, &UNLINTED);
}

/// How many messages follow the first change in the module, if the call of this number on the disk fails.
fn count_messages(alloc: Global, failing: usize) -> usize {
    let disk = FewFiles::new(alloc, &MODULE, Some(failing));
    let mut session = new_session(alloc);
    for (body, _) in [MESSAGES[0], MESSAGES[1]] {
        if let Ok(Turn::Publish(messages)) = session.step(alloc, &disk, body.as_bytes()) {
            return messages.len();
        }
    }
    0
}

/// Each call on the disk fails in turn: then the open document is told alone, or each file with what is known of it.
#[test]
fn calls_on_the_disk_fail(rt: HostRuntime) {
    for failing in 0..100 {
        let count = count_messages(rt.alloc(), failing);
        holds(&rt, count == 1 || count == 2, b"a call fails");
    }
    holds(&rt, count_messages(rt.alloc(), 0) == 1, b"the first call");
    holds(&rt, count_messages(rt.alloc(), 100) == 2, b"no call");
}

/// Appends a frame for each line of a text.
fn push_frames(rt: &impl Abort, alloc: Global, frames: &mut Vec<u8>, text: &str) {
    for body in text.split('\n') {
        let head = format!(in alloc; "Content-Length: {}\r\n\r\n", body.len()).expect(rt, "memory");
        push_copies(rt, frames, head.as_bytes(), 1);
        push_copies(rt, frames, body.as_bytes(), 1);
    }
}

/// Each message of a module is written.
#[test]
fn a_module_over_devices(rt: HostRuntime) {
    let alloc = rt.alloc();
    let mut input = Vec::new(alloc);
    let mut wanted = Vec::new(alloc);
    for (body, told) in [MESSAGES[0], MESSAGES[1]] {
        push_frames(&rt, alloc, &mut input, body);
        push_frames(&rt, alloc, &mut wanted, told);
    }
    let mut out = sink(100, None, false);
    let host = host_of(alloc, &MODULE, None);
    let mut from = source(&input, 100, None);
    let mut err = sink(100, None, false);
    let status = program(alloc, &host, &["tfls"], &mut from, &mut out, &mut err);
    holds(&rt, status == 1, &input);
    same_bytes(&rt, out.bytes(), &wanted, &input);
}
