//! Whole runs of the program that check comments.

use crate::programs::{Row, shows};
use tree_devices::entry::{MemoryEntry, Stands};

/// Modules with comments that are meant to silence a rule.
static ENTRIES: &[MemoryEntry<'static>] = &[
    MemoryEntry {
        name: b"",
        stands: Stands::Folder,
    },
    MemoryEntry {
        name: b"c",
        stands: Stands::Folder,
    },
    MemoryEntry {
        name: b"c/a.tf",
        stands: Stands::File(
            b"# tflint-ignore: aws_x, terraform_typed_variables,aws_y # x\nvariable \"x\" {}\n",
        ),
    },
    MemoryEntry {
        name: b"c/b.tf",
        stands: Stands::File(
            b"output \"y\" {\n  value = \"\xc3\xa9${var.x}\" # tflint-ignore:\n}\n/* tflint-ignore: no */\n# tflint-ignore: all\n",
        ),
    },
    MemoryEntry {
        name: b"c/c.tf",
        stands: Stands::File(
            b"// tflint-ignore-file: all\noutput \"h\" {\n  value = <<E\n# tflint-ignore: inside\nE\n}\n",
        ),
    },
    MemoryEntry {
        name: b"d",
        stands: Stands::Folder,
    },
    MemoryEntry {
        name: b"d/a.tf",
        stands: Stands::File(b"# tflint-ignore: q\n"),
    },
    MemoryEntry {
        name: b"d/b.tf",
        stands: Stands::File(b"x = \n"),
    },
    MemoryEntry {
        name: b"e",
        stands: Stands::Folder,
    },
    MemoryEntry {
        name: b"e/.tfrules",
        stands: Stands::File(b"--check-comments\n--force\n"),
    },
    MemoryEntry {
        name: b"e/\"\n.tf",
        stands: Stands::File(b"# tflint-ignore: \x1b[2J\"\n"),
    },
    MemoryEntry {
        name: b"f",
        stands: Stands::Folder,
    },
    MemoryEntry {
        name: b"f/main.tf",
        stands: Stands::File(b"variable \"z\" {} # tflint-ignore: b\n"),
    },
    MemoryEntry {
        name: b"g",
        stands: Stands::Folder,
    },
    MemoryEntry {
        name: b"g/main.tf",
        stands: Stands::File(b"locals {} # tflint-ignore: g\n"),
    },
];

const C: &[u8] =
    b"tfrules-all: error: c/a.tf:1:1: no rule is called \"aws_x\" or \"aws_y\"\ntfrules-all: error: c/b.tf:2:23: no rule is called \"\"\ntfrules-all: error: c/c.tf:1:1: tflint-ignore-file silences nothing here\n";

const C_ALONE: &[u8] =
    b"tfrules-all: error: c/a.tf:1:1: no rule is called \"aws_x\" or \"aws_y\"\ntfrules-all: error: c/b.tf:2:23: no rule is called \"\"\ntfrules-all: error: c/c.tf:1:1: tflint-ignore-file silences nothing here\nno issues in 1 module\n";

const F_AND_G: &[u8] =
    b"tfrules-all: error: f/main.tf:1:17: no rule is called \"b\"\ntfrules-all: error: g/main.tf:1:11: no rule is called \"g\"\n2 issues in 1 of 2 modules\n";

const F: &[u8] =
    b"2 issue(s) found:\n\nf/main.tf:1:1: Warning - variable \"z\" has no type (terraform_typed_variables)\nf/main.tf:1:1: Warning - variable \"z\" is declared but not used (terraform_unused_declarations)\n";

static ROWS: [Row; 11] = [
    Row {
        words: &[b"tfrules-all", b"c"],
        input: b"",
        out: b"",
        err: b"no issues in 1 module\n",
        status: 0,
    },
    Row {
        words: &[b"tfrules-all", b"--check-comments", b"c"],
        input: b"",
        out: b"",
        err: C_ALONE,
        status: 2,
    },
    // Whatever the severity, unless nothing fails the run.
    Row {
        words: &[
            b"tfrules-all",
            b"--check-comments",
            b"--minimum-failure-severity",
            b"error",
            b"c",
        ],
        input: b"",
        out: b"",
        err: C_ALONE,
        status: 2,
    },
    Row {
        words: &[
            b"tfrules-all",
            b"--check-comments",
            b"--force",
            b"--quiet",
            b"c",
        ],
        input: b"",
        out: b"",
        err: C,
        status: 0,
    },
    // A refused module has no comments.
    Row {
        words: &[b"tfrules-all", b"--check-comments", b"d"],
        input: b"",
        out: b"",
        err: b"tfrules-all: error: d/b.tf:1:5: unexpected token\nno issues in 1 module, 1 refused\n",
        status: 1,
    },
    // As an option of a project. Names are shown so that they forge no line.
    Row {
        words: &[b"tfrules-all", b"e"],
        input: b"",
        out: b"",
        err: b"tfrules-all: error: \"e/\\\"\\n.tf\":1:1: no rule is called \"\\033[2J\\\"\"\nno issues in 1 module\n",
        status: 0,
    },
    Row {
        words: &[b"tfrules-all", b"--no-config", b"e"],
        input: b"",
        out: b"",
        err: b"no issues in 1 module\n",
        status: 0,
    },
    // A module without reports has no empty line after it.
    Row {
        words: &[b"tfrules-all", b"--check-comments", b"c", b"f"],
        input: b"",
        out: F,
        err: b"tfrules-all: error: c/a.tf:1:1: no rule is called \"aws_x\" or \"aws_y\"\ntfrules-all: error: c/b.tf:2:23: no rule is called \"\"\ntfrules-all: error: c/c.tf:1:1: tflint-ignore-file silences nothing here\ntfrules-all: error: f/main.tf:1:17: no rule is called \"b\"\n2 issues in 1 of 2 modules\n",
        status: 2,
    },
    // Forms have them among the issues.
    Row {
        words: &[
            b"tfrules-all",
            b"--check-comments",
            b"--format=json",
            b"g",
            b"f",
        ],
        input: b"",
        out: b"{\"issues\":[{\"rule\":{\"name\":\"terraform_typed_variables\",\"severity\":\"warning\",\"link\":\"\"},\"message\":\"variable \\\"z\\\" has no type\",\"range\":{\"filename\":\"f/main.tf\",\"start\":{\"line\":1,\"column\":1},\"end\":{\"line\":1,\"column\":1}},\"callers\":[]},{\"rule\":{\"name\":\"terraform_unused_declarations\",\"severity\":\"warning\",\"link\":\"\"},\"message\":\"variable \\\"z\\\" is declared but not used\",\"range\":{\"filename\":\"f/main.tf\",\"start\":{\"line\":1,\"column\":1},\"end\":{\"line\":1,\"column\":1}},\"callers\":[]},{\"rule\":{\"name\":\"silencing_comment\",\"severity\":\"error\",\"link\":\"\"},\"message\":\"no rule is called \\\"b\\\"\",\"range\":{\"filename\":\"f/main.tf\",\"start\":{\"line\":1,\"column\":17},\"end\":{\"line\":1,\"column\":17}},\"callers\":[]},{\"rule\":{\"name\":\"silencing_comment\",\"severity\":\"error\",\"link\":\"\"},\"message\":\"no rule is called \\\"g\\\"\",\"range\":{\"filename\":\"g/main.tf\",\"start\":{\"line\":1,\"column\":11},\"end\":{\"line\":1,\"column\":11}},\"callers\":[]}],\"errors\":[]}",
        err: F_AND_G,
        status: 2,
    },
    Row {
        words: &[
            b"tfrules-all",
            b"--check-comments",
            b"--format=gitlab",
            b"--rules=terraform_comment_syntax",
            b"f",
            b"g",
        ],
        input: b"",
        out: b"[{\"description\":\"no rule is called \\\"b\\\"\",\"check_name\":\"silencing_comment\",\"fingerprint\":\"782f1924d795c41deb2c7b2ed8922d3a5751e78108f0a7ed96f09e114ed6fbf4:1\",\"severity\":\"major\",\"location\":{\"path\":\"f/main.tf\",\"lines\":{\"begin\":1}}},{\"description\":\"no rule is called \\\"g\\\"\",\"check_name\":\"silencing_comment\",\"fingerprint\":\"8a5dceb59bc93c37bd50301b7e2ce7dd5f557224998a38a44d8fc05bac70b9c2:1\",\"severity\":\"major\",\"location\":{\"path\":\"g/main.tf\",\"lines\":{\"begin\":1}}}]",
        err: b"tfrules-all: error: f/main.tf:1:17: no rule is called \"b\"\ntfrules-all: error: g/main.tf:1:11: no rule is called \"g\"\nno issues in 2 modules\n",
        status: 2,
    },
    Row {
        words: &[
            b"tfrules-all",
            b"--check-comments",
            b"--format=github",
            b"c",
        ],
        input: b"",
        out: b"::error file=c/a.tf,line=1,col=1,title=silencing_comment::no rule is called \"aws_x\" or \"aws_y\"\n::error file=c/b.tf,line=2,col=23,title=silencing_comment::no rule is called \"\"\n::error file=c/c.tf,line=1,col=1,title=silencing_comment::tflint-ignore-file silences nothing here\n",
        err: C_ALONE,
        status: 2,
    },
];

#[test]
fn comments_are_shown(rt: HostRuntime) {
    for row in &ROWS {
        shows(&rt, rt.alloc(), ENTRIES, row);
    }
}
