//! What the server says of names.

use crate::disk::{Entry, FewFiles};
use crate::sessions::{BEGIN, Said, plays_over};
use std::process::Abort;

/// A module with two files; the second is opened with another text.
static MODULE: [Entry; 3] = [
    (
        "/n/main.tf",
        "variable \"a\" {\n  validation {\n    condition = var.a != \"\"\n  }\n}\nlocals {\n  b = <<E\n${var.a}\nE\n}\n",
    ),
    ("/n/other.tf", "variable \"old\" {}\n"),
    ("/n/.tfrules", "--rules terraform_deprecated_index\n"),
];

static MESSAGES: [Said; 24] = [
    (
        r#"{"id":1,"method":"initialize","params":{"capabilities":{"workspace":{"workspaceEdit":{"documentChanges":true}},"textDocument":{"rename":{"prepareSupport":true}}}}}"#,
        r#"{"jsonrpc":"2.0","id":1,"result":{"capabilities":{"positionEncoding":"utf-16","textDocumentSync":{"openClose":true,"change":1},"documentFormattingProvider":true,"documentSymbolProvider":true,"foldingRangeProvider":true,"definitionProvider":true,"referencesProvider":true,"renameProvider":{"prepareProvider":true}},"serverInfo":{"name":"tfls","version":"0.3.0"}}}"#,
    ),
    // the open text counts, not the saved one
    (
        r#"{"method":"textDocument/didOpen","params":{"textDocument":{"uri":"file:///n/other%2Etf","version":7,"text":"output \"a\" {\n  value = [var.a, local.b, x.var.a, \"😀${data.t.a}\"]\n}\ndata t \"a\" {}\n"}}}"#,
        r#"{"jsonrpc":"2.0","method":"textDocument/publishDiagnostics","params":{"uri":"file:///n/main.tf","diagnostics":[]}}
{"jsonrpc":"2.0","method":"textDocument/publishDiagnostics","params":{"uri":"file:///n/other%2Etf","diagnostics":[]}}"#,
    ),
    // from a reference to the declaration in another file
    (
        r#"{"id":1,"method":"textDocument/definition","params":{"textDocument":{"uri":"file:///n/other%2Etf"},"position":{"line":1,"character":15}}}"#,
        r#"{"jsonrpc":"2.0","id":1,"result":[{"uri":"file:///n/main.tf","range":{"start":{"line":0,"character":10},"end":{"line":0,"character":11}}}]}"#,
    ),
    // the first word of a reference counts too
    (
        r#"{"id":1,"method":"textDocument/definition","params":{"textDocument":{"uri":"file:///n/other%2Etf"},"position":{"line":1,"character":11}}}"#,
        r#"{"jsonrpc":"2.0","id":1,"result":[{"uri":"file:///n/main.tf","range":{"start":{"line":0,"character":10},"end":{"line":0,"character":11}}}]}"#,
    ),
    // a type in a reference to a data source
    (
        r#"{"id":1,"method":"textDocument/definition","params":{"textDocument":{"uri":"file:///n/other%2Etf"},"position":{"line":1,"character":46}}}"#,
        r#"{"jsonrpc":"2.0","id":1,"result":[{"uri":"file:///n/other%2Etf","range":{"start":{"line":3,"character":8},"end":{"line":3,"character":9}}}]}"#,
    ),
    // nothing is named there
    (
        r#"{"id":1,"method":"textDocument/definition","params":{"textDocument":{"uri":"file:///n/other%2Etf"},"position":{"line":1,"character":33}}}"#,
        r#"{"jsonrpc":"2.0","id":1,"result":[]}"#,
    ),
    (
        r#"{"id":1,"method":"textDocument/references","params":{"textDocument":{"uri":"file:///n/other%2Etf"},"position":{"line":1,"character":24},"context":{"includeDeclaration":true}}}"#,
        r#"{"jsonrpc":"2.0","id":1,"result":[{"uri":"file:///n/main.tf","range":{"start":{"line":6,"character":2},"end":{"line":6,"character":3}}},{"uri":"file:///n/other%2Etf","range":{"start":{"line":1,"character":24},"end":{"line":1,"character":25}}}]}"#,
    ),
    (
        r#"{"id":1,"method":"textDocument/references","params":{"textDocument":{"uri":"file:///n/other%2Etf"},"position":{"line":1,"character":16},"context":{"includeDeclaration":false}}}"#,
        r#"{"jsonrpc":"2.0","id":1,"result":[{"uri":"file:///n/main.tf","range":{"start":{"line":2,"character":20},"end":{"line":2,"character":21}}},{"uri":"file:///n/main.tf","range":{"start":{"line":7,"character":6},"end":{"line":7,"character":7}}},{"uri":"file:///n/other%2Etf","range":{"start":{"line":1,"character":15},"end":{"line":1,"character":16}}}]}"#,
    ),
    (
        r#"{"id":1,"method":"textDocument/prepareRename","params":{"textDocument":{"uri":"file:///n/other%2Etf"},"position":{"line":3,"character":8}}}"#,
        r#"{"jsonrpc":"2.0","id":1,"result":{"range":{"start":{"line":3,"character":8},"end":{"line":3,"character":9}},"placeholder":"a"}}"#,
    ),
    (
        r#"{"id":1,"method":"textDocument/prepareRename","params":{"textDocument":{"uri":"file:///n/other%2Etf"},"position":{"line":3,"character":6}}}"#,
        r#"{"jsonrpc":"2.0","id":1,"result":null}"#,
    ),
    // all occurrences of the variable get the new name, and nothing else
    (
        r#"{"id":1,"method":"textDocument/rename","params":{"textDocument":{"uri":"file:///n/other%2Etf"},"position":{"line":1,"character":15},"newName":"new-a"}}"#,
        r#"{"jsonrpc":"2.0","id":1,"result":{"documentChanges":[{"textDocument":{"uri":"file:///n/main.tf","version":null},"edits":[{"range":{"start":{"line":0,"character":10},"end":{"line":0,"character":11}},"newText":"new-a"},{"range":{"start":{"line":2,"character":20},"end":{"line":2,"character":21}},"newText":"new-a"},{"range":{"start":{"line":7,"character":6},"end":{"line":7,"character":7}},"newText":"new-a"}]},{"textDocument":{"uri":"file:///n/other%2Etf","version":7},"edits":[{"range":{"start":{"line":1,"character":15},"end":{"line":1,"character":16}},"newText":"new-a"}]}]}}"#,
    ),
    (
        r#"{"id":1,"method":"textDocument/rename","params":{"textDocument":{"uri":"file:///n/other%2Etf"},"position":{"line":1,"character":24},"newName":"1"}}"#,
        r#"{"jsonrpc":"2.0","id":1,"error":{"code":-32602,"message":"the new name is not an identifier"}}"#,
    ),
    (
        r#"{"id":1,"method":"textDocument/rename","params":{"textDocument":{"uri":"file:///n/other%2Etf"},"position":{"line":1,"character":24},"newName":""}}"#,
        r#"{"jsonrpc":"2.0","id":1,"error":{"code":-32602,"message":"the new name is not an identifier"}}"#,
    ),
    (
        r#"{"id":1,"method":"textDocument/rename","params":{"textDocument":{"uri":"file:///n/other%2Etf"},"position":{"line":1,"character":24}}}"#,
        r#"{"jsonrpc":"2.0","id":1,"error":{"code":-32602,"message":"the new name is not an identifier"}}"#,
    ),
    (
        r#"{"id":1,"method":"textDocument/rename","params":{"textDocument":{"uri":"file:///n/other%2Etf"},"position":{"line":1,"character":33},"newName":"c"}}"#,
        r#"{"jsonrpc":"2.0","id":1,"error":{"code":-32803,"message":"no name that can be changed is here"}}"#,
    ),
    (
        r#"{"id":1,"method":"textDocument/rename","params":{"textDocument":{"uri":"file:///n/other%2Etf"},"position":{"line":1,"character":24},"newName":"b"}}"#,
        r#"{"jsonrpc":"2.0","id":1,"error":{"code":-32803,"message":"the module has this name already"}}"#,
    ),
    // the type of a data source is a part of its name
    (
        r#"{"id":1,"method":"textDocument/rename","params":{"textDocument":{"uri":"file:///n/other%2Etf"},"position":{"line":1,"character":48},"newName":"é"}}"#,
        r#"{"jsonrpc":"2.0","id":1,"result":{"documentChanges":[{"textDocument":{"uri":"file:///n/other%2Etf","version":7},"edits":[{"range":{"start":{"line":3,"character":8},"end":{"line":3,"character":9}},"newText":"é"},{"range":{"start":{"line":1,"character":48},"end":{"line":1,"character":49}},"newText":"é"}]}]}}"#,
    ),
    (
        r#"{"id":1,"method":"textDocument/rename","params":{"newName":"c"}}"#,
        r#"{"jsonrpc":"2.0","id":1,"error":{"code":-32602,"message":"no place in a document is named"}}"#,
    ),
    (
        r#"{"id":1,"method":"textDocument/definition","params":{"textDocument":{"uri":"file:///n/other%2Etf"},"position":{"line":-1,"character":0}}}"#,
        r#"{"jsonrpc":"2.0","id":1,"error":{"code":-32602,"message":"no place in a document is named"}}"#,
    ),
    (
        r#"{"id":1,"method":"textDocument/definition","params":{"textDocument":{"uri":"x"},"position":{"line":0,"character":0}}}"#,
        r#"{"jsonrpc":"2.0","id":1,"error":{"code":-32801,"message":"the text of this document is not known"}}"#,
    ),
    // with a refused file no name is changed
    (
        r#"{"method":"textDocument/didOpen","params":{"textDocument":{"uri":"file:///n/z.tf","text":"a="}}}"#,
        r#"{"jsonrpc":"2.0","method":"textDocument/publishDiagnostics","params":{"uri":"file:///n/main.tf","diagnostics":[]}}
{"jsonrpc":"2.0","method":"textDocument/publishDiagnostics","params":{"uri":"file:///n/other%2Etf","diagnostics":[]}}
{"jsonrpc":"2.0","method":"textDocument/publishDiagnostics","params":{"uri":"file:///n/z.tf","diagnostics":[{"range":{"start":{"line":0,"character":2},"end":{"line":0,"character":2}},"severity":1,"source":"tfls","message":"unexpected end"}]}}"#,
    ),
    (
        r#"{"id":1,"method":"textDocument/rename","params":{"textDocument":{"uri":"file:///n/other%2Etf"},"position":{"line":1,"character":24},"newName":"c"}}"#,
        r#"{"jsonrpc":"2.0","id":1,"error":{"code":-32803,"message":"a file of the module is refused or cannot be read"}}"#,
    ),
    (
        r#"{"id":1,"method":"textDocument/references","params":{"textDocument":{"uri":"file:///n/other%2Etf"},"position":{"line":1,"character":24}}}"#,
        r#"{"jsonrpc":"2.0","id":1,"result":[{"uri":"file:///n/other%2Etf","range":{"start":{"line":1,"character":24},"end":{"line":1,"character":25}}}]}"#,
    ),
    (
        r#"{"id":1,"method":"textDocument/definition","params":{"textDocument":{"uri":"file:///n/z.tf"},"position":{"line":0,"character":0}}}"#,
        r#"{"jsonrpc":"2.0","id":1,"result":[]}"#,
    ),
];

/// A document that belongs to no module.
static ALONE: [Said; 12] = [
    BEGIN,
    (
        r#"{"method":"textDocument/didOpen","params":{"textDocument":{"uri":"a","version":1.5,"text":"a = var.b\nvariable b {}\n"}}}"#,
        r#"{"jsonrpc":"2.0","method":"textDocument/publishDiagnostics","params":{"uri":"a","diagnostics":[]}}"#,
    ),
    (
        r#"{"id":1,"method":"textDocument/references","params":{"textDocument":{"uri":"a"},"position":{"line":9,"character":9},"context":{"includeDeclaration":true}}}"#,
        r#"{"jsonrpc":"2.0","id":1,"result":[]}"#,
    ),
    (
        r#"{"id":1,"method":"textDocument/references","params":{"textDocument":{"uri":"a"},"position":{"line":0,"character":9},"context":{"includeDeclaration":true}}}"#,
        r#"{"jsonrpc":"2.0","id":1,"result":[{"uri":"a","range":{"start":{"line":1,"character":9},"end":{"line":1,"character":10}}},{"uri":"a","range":{"start":{"line":0,"character":8},"end":{"line":0,"character":9}}}]}"#,
    ),
    (
        r#"{"id":1,"method":"textDocument/rename","params":{"textDocument":{"uri":"a"},"position":{"line":1,"character":9},"newName":"c"}}"#,
        r#"{"jsonrpc":"2.0","id":1,"result":{"changes":{"a":[{"range":{"start":{"line":1,"character":9},"end":{"line":1,"character":10}},"newText":"c"},{"range":{"start":{"line":0,"character":8},"end":{"line":0,"character":9}},"newText":"c"}]}}}"#,
    ),
    (
        r#"{"id":1,"method":"textDocument/rename","params":{"textDocument":{"uri":"a"},"position":{"line":1,"character":8},"newName":"c"}}"#,
        r#"{"jsonrpc":"2.0","id":1,"error":{"code":-32803,"message":"no name that can be changed is here"}}"#,
    ),
    // what declares the name would keep it
    (
        r#"{"method":"textDocument/didOpen","params":{"textDocument":{"uri":"b","text":"a = local.c\n"}}}"#,
        r#"{"jsonrpc":"2.0","method":"textDocument/publishDiagnostics","params":{"uri":"b","diagnostics":[]}}"#,
    ),
    (
        r#"{"id":1,"method":"textDocument/rename","params":{"textDocument":{"uri":"b"},"position":{"line":0,"character":10},"newName":"d"}}"#,
        r#"{"jsonrpc":"2.0","id":1,"error":{"code":-32803,"message":"no file of the module declares this name"}}"#,
    ),
    // a close loses no text
    (
        r#"{"method":"textDocument/didClose","params":{"textDocument":{"uri":"b"}}}"#,
        r#"{"jsonrpc":"2.0","method":"textDocument/publishDiagnostics","params":{"uri":"b","diagnostics":[]}}"#,
    ),
    (
        r#"{"id":1,"method":"textDocument/rename","params":{"textDocument":{"uri":"a"},"position":{"line":1,"character":9},"newName":"d"}}"#,
        r#"{"jsonrpc":"2.0","id":1,"result":{"changes":{"a":[{"range":{"start":{"line":1,"character":9},"end":{"line":1,"character":10}},"newText":"d"},{"range":{"start":{"line":0,"character":8},"end":{"line":0,"character":9}},"newText":"d"}]}}}"#,
    ),
    // once a text is lost, no name is changed
    (
        r#"{"method":"textDocument/didChange","params":{"textDocument":{"uri":"b"},"contentChanges":[{"range":{},"text":"x"}]}}"#,
        r#"{"jsonrpc":"2.0","method":"textDocument/publishDiagnostics","params":{"uri":"b","diagnostics":[]}}"#,
    ),
    (
        r#"{"id":1,"method":"textDocument/rename","params":{"textDocument":{"uri":"a"},"position":{"line":1,"character":9},"newName":"c"}}"#,
        r#"{"jsonrpc":"2.0","id":1,"error":{"code":-32803,"message":"the text of an open document was lost"}}"#,
    ),
];

#[test]
fn names(rt: HostRuntime) {
    let alloc = rt.alloc();
    let disk = FewFiles::new(alloc, &MODULE, None);
    plays_over(&rt, alloc, &disk, &MESSAGES);
    plays_over(&rt, alloc, &disk, &ALONE);
}
