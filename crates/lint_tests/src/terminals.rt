//! Whole runs of the program whose outputs are read on terminals.

use crate::checks::PIPES;
use crate::programs::{Row, Words, shows_on};
use tree_devices::entry::{MemoryEntry, Stands};
use tree_lint::written::Terminals;

/// A module with issues and comments in two files, one with bytes that a terminal shows differently, and a refused
/// module.
static ENTRIES: &[MemoryEntry<'static>] = &[
    MemoryEntry {
        name: b"",
        stands: Stands::Folder,
    },
    MemoryEntry {
        name: b"a",
        stands: Stands::Folder,
    },
    MemoryEntry {
        name: b"a/main.tf",
        stands: Stands::File(
            b"variable \"x\" {}\n\noutput \"y\" {\n\tvalue = \"${var.x}\" # tflint-ignore: z\n}\n",
        ),
    },
    MemoryEntry {
        name: b"a/z.tf",
        stands: Stands::File(b"variable \"\xe5\x90\x8d\" {} # tflint-ignore: \x1b\n"),
    },
    MemoryEntry {
        name: b"bad",
        stands: Stands::Folder,
    },
    MemoryEntry {
        name: b"bad/main.tf",
        stands: Stands::File(b"x = 1\ny = ]\n"),
    },
    MemoryEntry {
        name: b"utf",
        stands: Stands::Folder,
    },
    MemoryEntry {
        name: b"utf/main.tf",
        stands: Stands::File(b"x = \"\xff\"\n"),
    },
];

/// A module with two issues, one with none, one with one, and a refused one.
static OTHERS: &[MemoryEntry<'static>] = &[
    MemoryEntry {
        name: b"",
        stands: Stands::Folder,
    },
    MemoryEntry {
        name: b"bad",
        stands: Stands::Folder,
    },
    MemoryEntry {
        name: b"bad/main.tf",
        stands: Stands::File(b"x = ]\n"),
    },
    MemoryEntry {
        name: b"c",
        stands: Stands::Folder,
    },
    MemoryEntry {
        name: b"c/main.tf",
        stands: Stands::File(b"variable \"y\" {}\n"),
    },
    MemoryEntry {
        name: b"d",
        stands: Stands::Folder,
    },
    MemoryEntry {
        name: b"d/main.tf",
        stands: Stands::File(b"x = 1\n"),
    },
    MemoryEntry {
        name: b"e",
        stands: Stands::Folder,
    },
    MemoryEntry {
        name: b"e/main.tf",
        stands: Stands::File(b"variable \"v\" { type = string }\n"),
    },
];

const BOTH: Terminals = Terminals {
    out: true,
    err: true,
};

const OUTPUT: Terminals = Terminals {
    out: true,
    err: false,
};

const MESSAGES: Terminals = Terminals {
    out: false,
    err: true,
};

const WORDS: Words = &[
    b"tfrules-all",
    b"--check-comments",
    b"--quiet",
    b"a",
    b"bad",
    b"utf",
];

const REPORT: &[u8] =
    b"4 issue(s) found:\n\na/main.tf:1:1: Warning - variable \"x\" has no type (terraform_typed_variables)\na/main.tf:4:10: Warning - interpolation-only expressions are deprecated (terraform_deprecated_interpolation)\na/z.tf:1:1: Warning - variable \"\xe5\x90\x8d\" has no type (terraform_typed_variables)\na/z.tf:1:1: Warning - variable \"\xe5\x90\x8d\" is declared but not used (terraform_unused_declarations)\n";

const REPORT_WITH_LINES: &[u8] =
    b"4 issue(s) found:\n\na/main.tf:1:1: Warning - variable \"x\" has no type (terraform_typed_variables)\n  variable \"x\" {}\n  ^\na/main.tf:4:10: Warning - interpolation-only expressions are deprecated (terraform_deprecated_interpolation)\n   value = \"${var.x}\" # tflint-ignore: z\n           ^\na/z.tf:1:1: Warning - variable \"\xe5\x90\x8d\" has no type (terraform_typed_variables)\n  variable \"\xe5\x90\x8d\" {} # tflint-ignore:  \n  ^\na/z.tf:1:1: Warning - variable \"\xe5\x90\x8d\" is declared but not used (terraform_unused_declarations)\n  variable \"\xe5\x90\x8d\" {} # tflint-ignore:  \n  ^\n";

const TOLD: &[u8] =
    b"tfrules-all: error: a/main.tf:4:21: no rule is called \"z\"\ntfrules-all: error: a/z.tf:1:17: no rule is called \"\\033\"\ntfrules-all: error: bad/main.tf:2:5: unexpected token\ntfrules-all: error: utf/main.tf:1:6: invalid UTF-8\n";

const TOLD_WITH_LINES: &[u8] =
    b"tfrules-all: error: a/main.tf:4:21: no rule is called \"z\"\n   value = \"${var.x}\" # tflint-ignore: z\n                      ^\ntfrules-all: error: a/z.tf:1:17: no rule is called \"\\033\"\n  variable \"\xe5\x90\x8d\" {} # tflint-ignore:  \n                   ^\ntfrules-all: error: bad/main.tf:2:5: unexpected token\n  y = ]\n      ^\ntfrules-all: error: utf/main.tf:1:6: invalid UTF-8\n";

/// The output with these outputs read on a terminal.
static ROWS: [(Terminals, &[u8], &[u8]); 4] = [
    (PIPES, REPORT, TOLD),
    (BOTH, REPORT_WITH_LINES, TOLD_WITH_LINES),
    (OUTPUT, REPORT_WITH_LINES, TOLD),
    (MESSAGES, REPORT, TOLD_WITH_LINES),
];

#[test]
fn lines_are_shown_on_terminals(rt: HostRuntime) {
    for (terminals, out, err) in &ROWS {
        let row = Row {
            words: WORDS,
            input: b"",
            out,
            err,
            status: 1,
        };
        shows_on(&rt, rt.alloc(), ENTRIES, *terminals, &row);
    }
}

/// A second report comes after an empty line, and a module without issues isn't shown.
static TWO: Row = Row {
    words: &[b"tfrules-all", b"--quiet", b"c", b"d", b"e"],
    input: b"",
    out: TWO_REPORTS,
    err: b"",
    status: 2,
};

const TWO_REPORTS: &[u8] =
    b"2 issue(s) found:\n\nc/main.tf:1:1: Warning - variable \"y\" has no type (terraform_typed_variables)\n  variable \"y\" {}\n  ^\nc/main.tf:1:1: Warning - variable \"y\" is declared but not used (terraform_unused_declarations)\n  variable \"y\" {}\n  ^\n\n1 issue(s) found:\n\ne/main.tf:1:1: Warning - variable \"v\" is declared but not used (terraform_unused_declarations)\n  variable \"v\" { type = string }\n  ^\n";

#[test]
fn reports_with_lines_are_parted(rt: HostRuntime) {
    shows_on(&rt, rt.alloc(), OTHERS, BOTH, &TWO);
}

/// A form has no lines of files.
static FORM: Row = Row {
    words: &[b"tfrules-all", b"--quiet", b"--format=github", b"e", b"bad"],
    input: b"",
    out: b"::warning file=e/main.tf,line=1,col=1,title=terraform_unused_declarations::variable \"v\" is declared but not used\n::error file=bad/main.tf,line=1,col=5,title=refused_file::unexpected token\n",
    err: b"tfrules-all: error: bad/main.tf:1:5: unexpected token\n  x = ]\n      ^\n",
    status: 1,
};

#[test]
fn forms_have_no_lines(rt: HostRuntime) {
    shows_on(&rt, rt.alloc(), OTHERS, BOTH, &FORM);
}
