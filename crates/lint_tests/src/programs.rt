//! Whole runs of the program over a tree in memory.

use crate::checks::PIPES;
use command_line::Streams;
use hcl_scan::{MemorySink, MemorySource};
use lint_command::run::program;
use std::alloc::Global;
use std::process::Abort;
use tfrules_command::Hashing;
use tree_devices::calls::{Failures, STEADY};
use tree_devices::entry::{MemoryEntry, Stands};
use tree_devices::memory_tree::MemoryTree;
use tree_lint::module_tree::ModuleTree;
use tree_lint::written::Terminals;

/// Words of a line.
pub(crate) type Words = &'static [&'static [u8]];

/// Three modules, one of them refused, in folders with many files that are no module's.
pub(crate) static ENTRIES: &[MemoryEntry<'static>] = &[
    MemoryEntry {
        name: b"",
        stands: Stands::Folder,
    },
    MemoryEntry {
        name: b"a",
        stands: Stands::Folder,
    },
    MemoryEntry {
        name: b"a/main.tf",
        stands: Stands::File(b"variable \"x\" {}\noutput \"y\" {\n  value = var.x\n}\n"),
    },
    MemoryEntry {
        name: b"a/sub",
        stands: Stands::Folder,
    },
    MemoryEntry {
        name: b"a/sub/b.tofu",
        stands: Stands::File(b"variable \"z\" {}\n"),
    },
    MemoryEntry {
        name: b"a/sub/a.tf",
        stands: Stands::File(b"locals {}\n"),
    },
    MemoryEntry {
        name: b"bad",
        stands: Stands::Folder,
    },
    MemoryEntry {
        name: b"bad/main.tf",
        stands: Stands::File(b"x = \n"),
    },
    MemoryEntry {
        name: b"bad/lost.tf",
        stands: Stands::Link(b"nowhere"),
    },
    MemoryEntry {
        name: b"bad/pipe.tf",
        stands: Stands::Pipe,
    },
    MemoryEntry {
        name: b"other",
        stands: Stands::Folder,
    },
    MemoryEntry {
        name: b"other/x.tfvars",
        stands: Stands::File(b"a = 1\n"),
    },
    MemoryEntry {
        name: b"other/dead.tfvars",
        stands: Stands::Link(b"nowhere"),
    },
    MemoryEntry {
        name: b"other/pipe.tfvars",
        stands: Stands::Pipe,
    },
    MemoryEntry {
        name: b"other/.hidden.tf",
        stands: Stands::File(b"variable \"h\" {}\n"),
    },
    MemoryEntry {
        name: b"odd",
        stands: Stands::Folder,
    },
    MemoryEntry {
        name: b"odd/\xff.tf",
        stands: Stands::File(b"variable \"o\" {}\n"),
    },
    MemoryEntry {
        name: b"odd/main.tf",
        stands: Stands::File(b"variable \"o\" {}\n"),
    },
];

/// A run and its output.
#[derive(Clone, Copy)]
pub(crate) struct Row {
    pub words: Words,
    pub input: &'static [u8],
    pub out: &'static [u8],
    pub err: &'static [u8],
    pub status: u8,
}

const A: &[u8] =
    b"1 issue(s) found:\n\na/main.tf:1:1: Warning - variable \"x\" has no type (terraform_typed_variables)\n";

const A_AND_SUB: &[u8] =
    b"1 issue(s) found:\n\na/main.tf:1:1: Warning - variable \"x\" has no type (terraform_typed_variables)\n\n2 issue(s) found:\n\na/sub/b.tofu:1:1: Warning - variable \"z\" has no type (terraform_typed_variables)\na/sub/b.tofu:1:1: Warning - variable \"z\" is declared but not used (terraform_unused_declarations)\n";

const SUB: &[u8] =
    b"2 issue(s) found:\n\na/sub/b.tofu:1:1: Warning - variable \"z\" has no type (terraform_typed_variables)\na/sub/b.tofu:1:1: Warning - variable \"z\" is declared but not used (terraform_unused_declarations)\n";

const ONE: &[u8] = b"1 issue in 1 of 1 module\n";

const TWO: &[u8] = b"2 issues in 1 of 1 module\n";

static ROWS: [Row; 32] = [
    // A folder stands for itself and everything below, a file for its folder alone.
    Row {
        words: &[b"tfrules-all", b"a"],
        input: b"",
        out: A_AND_SUB,
        err: b"3 issues in 2 of 2 modules\n",
        status: 2,
    },
    Row {
        words: &[b"tfrules-all", b"a/main.tf"],
        input: b"",
        out: A,
        err: ONE,
        status: 2,
    },
    Row {
        words: &[b"tfrules-all", b"a/sub/a.tf", b"./a/sub", b"a/sub/b.tofu"],
        input: b"",
        out: SUB,
        err: TWO,
        status: 2,
    },
    // So does a deleted one; a name whose folder is gone too is reported.
    Row {
        words: &[b"tfrules-all", b"a/gone.tf"],
        input: b"",
        out: A,
        err: ONE,
        status: 2,
    },
    Row {
        words: &[b"tfrules-all", b"a/main.tf", b"gone", b"gone/main.tf"],
        input: b"",
        out: A,
        err: b"tfrules-all: error: gone: no such file or folder\ntfrules-all: error: gone/: no such file or folder\n1 issue in 1 of 2 modules, 1 refused\n",
        status: 1,
    },
    // A module with a file that can't be read is refused, and so is one with a file that can't be named, or with a pipe
    // in its place.
    Row {
        words: &[b"tfrules-all", b"bad", b"a/main.tf"],
        input: b"",
        out: A,
        err: b"tfrules-all: error: bad/lost.tf: the link leads nowhere\ntfrules-all: error: bad/pipe.tf: not a file\n1 issue in 1 of 2 modules, 1 refused\n",
        status: 1,
    },
    // An entry that is no file of a module doesn't matter, whatever it is.
    Row {
        words: &[b"tfrules-all", b"other"],
        input: b"",
        out: b"",
        err: b"no modules found\n",
        status: 0,
    },
    Row {
        words: &[b"tfrules-all", b"odd"],
        input: b"",
        out: b"",
        err: b"tfrules-all: error: odd/\xff.tf: the name isn't UTF-8\nno issues in 1 module, 1 refused\n",
        status: 1,
    },
    // Options.
    Row {
        words: &[
            b"tfrules-all",
            b"--rules",
            b"all,-terraform_typed_variables,-terraform_documented_variables",
            b"a/sub/a.tf",
        ],
        input: b"",
        out: b"1 issue(s) found:\n\na/sub/b.tofu:1:1: Warning - variable \"z\" is declared but not used (terraform_unused_declarations)\n",
        err: ONE,
        status: 2,
    },
    Row {
        words: &[b"tfrules-all", b"--force", b"a/main.tf"],
        input: b"",
        out: A,
        err: ONE,
        status: 0,
    },
    Row {
        words: &[
            b"tfrules-all",
            b"--minimum-failure-severity",
            b"error",
            b"a/main.tf",
        ],
        input: b"",
        out: A,
        err: ONE,
        status: 0,
    },
    Row {
        words: &[b"tfrules-all", b"-0"],
        input: b"a/main.tf\0a/gone.tf",
        out: A,
        err: ONE,
        status: 2,
    },
    // A part has whole modules, by the sums of their folders' names.
    Row {
        words: &[b"tfrules-all", b"--shard", b"1/2", b"a"],
        input: b"",
        out: A,
        err: ONE,
        status: 2,
    },
    Row {
        words: &[b"tfrules-all", b"--shard", b"2/2", b"a"],
        input: b"",
        out: SUB,
        err: TWO,
        status: 2,
    },
    // The totals are printed at the end, unless the run is to be quiet.
    Row {
        words: &[b"tfrules-all", b"--quiet", b"a", b"bad"],
        input: b"",
        out: A_AND_SUB,
        err: b"tfrules-all: error: bad/lost.tf: the link leads nowhere\ntfrules-all: error: bad/pipe.tf: not a file\n",
        status: 1,
    },
    Row {
        words: &[
            b"tfrules-all",
            b"--rules",
            b"terraform_comment_syntax",
            b"a",
        ],
        input: b"",
        out: b"",
        err: b"no issues in 2 modules\n",
        status: 0,
    },
    // Words that ask for no run.
    Row {
        words: &[b"tfrules-all", b"--version"],
        input: b"",
        out: b"tfrules-all 0.3.0\n",
        err: b"",
        status: 0,
    },
    Row {
        words: &[b"tfrules-all", b"--rules", b"all,-all", b"a"],
        input: b"",
        out: b"",
        err: b"tfrules-all: error: no rule is left by \"all,-all\"\n",
        status: 1,
    },
    Row {
        words: &[b"tfrules-all", b"--rules", b"all,-terraform_typed", b"a"],
        input: b"",
        out: b"",
        err: b"tfrules-all: error: unknown rule \"terraform_typed\"\n",
        status: 1,
    },
    Row {
        words: &[b"tfrules-all", b"--naming", b"camel", b"a"],
        input: b"",
        out: b"",
        err: b"tfrules-all: error: unknown naming \"camel\"\n",
        status: 1,
    },
    Row {
        words: &[b"tfrules-all", b"a", b"--bogus"],
        input: b"",
        out: b"",
        err: b"tfrules-all: error: unknown option --bogus\nusage: tfrules-all [--rules LIST] [--naming NAMING]\n                   [--minimum-failure-severity SEVERITY] [--force]\n                   [--check-comments] [--no-config] [--format FORM] [--quiet]\n                   [--shard K/N] [--null] [--] [FILE|FOLDER]...\n       tfrules-all --list-rules\n       tfrules-all --explain RULE\n",
        status: 1,
    },
    Row {
        words: &[b"tfrules-all", b"--chdir=a"],
        input: b"",
        out: b"",
        err: b"tfrules-all: error: unknown option --chdir=a; name the folder instead\nusage: tfrules-all [--rules LIST] [--naming NAMING]\n                   [--minimum-failure-severity SEVERITY] [--force]\n                   [--check-comments] [--no-config] [--format FORM] [--quiet]\n                   [--shard K/N] [--null] [--] [FILE|FOLDER]...\n       tfrules-all --list-rules\n       tfrules-all --explain RULE\n",
        status: 1,
    },
    Row {
        words: &[b"tfrules-all", b"-force", b"a"],
        input: b"",
        out: b"",
        err: b"tfrules-all: error: unknown option -force; write --force\nusage: tfrules-all [--rules LIST] [--naming NAMING]\n                   [--minimum-failure-severity SEVERITY] [--force]\n                   [--check-comments] [--no-config] [--format FORM] [--quiet]\n                   [--shard K/N] [--null] [--] [FILE|FOLDER]...\n       tfrules-all --list-rules\n       tfrules-all --explain RULE\n",
        status: 1,
    },
    Row {
        words: &[b"tfrules-all", b"--shard", b"3/2", b"a"],
        input: b"",
        out: b"",
        err: b"tfrules-all: error: --shard takes K/N, with K from 1 to N, at most 99999, not \"3/2\"\n",
        status: 1,
    },
    Row {
        words: &[b"tfrules-all", b"--format", b"xml", b"a"],
        input: b"",
        out: b"",
        err: b"tfrules-all: error: --format takes text, json, sarif, checkstyle, junit, gitlab or github, not \"xml\"\n",
        status: 1,
    },
    Row {
        words: &[b"tfrules-all", b"-j", b"0", b"a"],
        input: b"",
        out: b"",
        err: b"tfrules-all: error: --jobs takes a number from 1 to 9999\n",
        status: 1,
    },
    Row {
        words: &[b"tfrules-all", b"-j4", b"--jobs=8", b"a/main.tf"],
        input: b"",
        out: A,
        err: ONE,
        status: 2,
    },
    Row {
        words: &[b"tfrules-all", b"--format", b"text", b"a/main.tf"],
        input: b"",
        out: A,
        err: ONE,
        status: 2,
    },
    Row {
        words: &[b"tfrules-all", b"-0", b"a"],
        input: b"a/main.tf",
        out: b"",
        err: b"tfrules-all: error: --null takes no names on the command line\n",
        status: 1,
    },
    Row {
        words: &[b"tfrules-all", b"--list-rules"],
        input: b"",
        out: b"terraform_comment_syntax (Warning): comments that begin with `//`\nterraform_deprecated_index (Warning, default): `list.0` instead of `list[0]`\nterraform_deprecated_interpolation (Warning, default): `\"${var.name}\"` instead of `var.name`\nterraform_documented_outputs (Notice): outputs without a description\nterraform_documented_variables (Notice): variables without a description\nterraform_module_pinned_source (Warning, default): modules from git or Mercurial at no fixed revision\nterraform_module_version (Warning, default): modules from a registry without a version\nterraform_naming_convention (Notice): names that don't follow the naming\nterraform_typed_variables (Warning, default): variables without a type\nterraform_unused_declarations (Warning, default): variables, locals and data sources that nothing refers to\n",
        err: b"",
        status: 0,
    },
    Row {
        words: &[b"tfrules-all", b"--explain", b"terraform_typed_variables"],
        input: b"",
        out: b"terraform_typed_variables (Warning, default): variables without a type\n\nWithout a type any value is accepted, and a wrong one fails far from where it was set.\n\nA comment on the line of an issue, or on the line above it, silences it:\n\n  # tflint-ignore: terraform_typed_variables\n",
        err: b"",
        status: 0,
    },
    Row {
        words: &[b"tfrules-all", b"--explain", b"typed"],
        input: b"",
        out: b"",
        err: b"tfrules-all: error: unknown rule \"typed\"\n",
        status: 1,
    },
];

/// Runs the program with the words of a row over a tree, and compares its output.
pub(crate) fn shows(rt: &impl Abort, alloc: Global, entries: &[MemoryEntry<'_>], row: &Row) {
    shows_on(rt, alloc, entries, PIPES, row);
}

/// Runs the program with the words of a row over a tree, with these outputs read on a terminal, and compares its
/// output.
pub(crate) fn shows_on(
    rt: &impl Abort,
    alloc: Global,
    entries: &[MemoryEntry<'_>],
    terminals: Terminals,
    row: &Row,
) {
    let tree = MemoryTree::new_in(alloc, b"/r/w", entries, STEADY).expect(rt, "memory");
    let mut files = ModuleTree::new(tree, Hashing::with_shared_seed());
    let mut input = MemorySource::new(row.input, 4096);
    let mut streams = Streams {
        out: MemorySink::new(4096),
        err: MemorySink::new(4096),
    };
    let status = program(
        alloc,
        row.words,
        terminals,
        &mut files,
        &mut input,
        &mut streams,
    );
    check_stream(rt, streams.out.bytes(), row.out, row);
    check_stream(rt, streams.err.bytes(), row.err, row);
    assert_eq!(rt; status, row.status, "of {:?}", row.words);
}

/// Checks that a stream has these bytes.
fn check_stream(rt: &impl Abort, found: &[u8], wanted: &[u8], row: &Row) {
    assert_eq!(rt; found, wanted, "of {:?}", row.words);
}

#[test]
fn rows_are_shown(rt: HostRuntime) {
    for row in &ROWS {
        shows(&rt, rt.alloc(), ENTRIES, row);
    }
}

/// Modules whose files have further names in others, or are linked from there, and one of links alone.
static SHARED: &[MemoryEntry<'static>] = &[
    MemoryEntry {
        name: b"",
        stands: Stands::Folder,
    },
    MemoryEntry {
        name: b"a",
        stands: Stands::Folder,
    },
    MemoryEntry {
        name: b"a/main.tf",
        stands: Stands::File(b"variable \"x\" {}\n"),
    },
    MemoryEntry {
        name: b"b",
        stands: Stands::Folder,
    },
    MemoryEntry {
        name: b"b/main.tf",
        stands: Stands::Same(b"variable \"x\" {}\n", b"a/main.tf"),
    },
    MemoryEntry {
        name: b"c",
        stands: Stands::Folder,
    },
    MemoryEntry {
        name: b"c/main.tf",
        stands: Stands::Link(b"a/main.tf"),
    },
];

const EACH: &[u8] =
    b"2 issue(s) found:\n\na/main.tf:1:1: Warning - variable \"x\" has no type (terraform_typed_variables)\na/main.tf:1:1: Warning - variable \"x\" is declared but not used (terraform_unused_declarations)\n\n2 issue(s) found:\n\nb/main.tf:1:1: Warning - variable \"x\" has no type (terraform_typed_variables)\nb/main.tf:1:1: Warning - variable \"x\" is declared but not used (terraform_unused_declarations)\n\n2 issue(s) found:\n\nc/main.tf:1:1: Warning - variable \"x\" has no type (terraform_typed_variables)\nc/main.tf:1:1: Warning - variable \"x\" is declared but not used (terraform_unused_declarations)\n";

/// Each module is linted, whatever other names its files have.
static EACH_MODULE: Row = Row {
    words: &[b"tfrules-all"],
    input: b"",
    out: EACH,
    err: b"6 issues in 3 of 3 modules\n",
    status: 2,
};

#[test]
fn modules_of_linked_files_are_linted(rt: HostRuntime) {
    shows(&rt, rt.alloc(), SHARED, &EACH_MODULE);
}

/// A run whose calls fail in turn: its words, and the number of its calls of a tree.
struct FailingRun {
    words: Words,
    calls: u64,
}

/// Over folders, which are walked, and over a named file, whose folder is listed by itself.
static FAILING: [FailingRun; 2] = [
    FailingRun {
        words: &[b"tfrules-all", b"--quiet", b"a", b"other"],
        calls: 29,
    },
    FailingRun {
        words: &[b"tfrules-all", b"--quiet", b"a/main.tf"],
        calls: 12,
    },
];

/// The standard input of a run that isn't to read it.
const UNREAD: &[u8] = b"a\0";

/// The output of a run with this call of the tree failing, and whether one failed. It leaves standard input alone.
fn run_failing(rt: &impl Abort, alloc: Global, words: Words, call: usize) -> (u8, bool, bool) {
    let failures = Failures {
        call: Some(call),
        ..STEADY
    };
    let tree = MemoryTree::new(alloc, ENTRIES, failures).expect(rt, "memory");
    let mut files = ModuleTree::new(tree, Hashing::with_shared_seed());
    let mut input = MemorySource::new(UNREAD, 4096);
    let mut streams = Streams {
        out: MemorySink::new(4096),
        err: MemorySink::new(4096),
    };
    let status = program(alloc, words, PIPES, &mut files, &mut input, &mut streams);
    assert_eq!(rt; input.rest(), UNREAD, "standard input of {:?}", words);
    let has_failed = files.tree.calls().failed_step().is_some();
    (status, has_failed, !streams.err.bytes().is_empty())
}

/// How many calls of a run fail in turn, each of which is reported.
fn failed_calls(rt: &impl Abort, alloc: Global, words: Words) -> u64 {
    let mut count: u64 = 0;
    for call in 0..100 {
        let (status, has_failed, is_told) = run_failing(rt, alloc, words, call);
        let wanted = if has_failed { 1 } else { 2 };
        assert!(rt;
            status == wanted && is_told == has_failed,
            "where call {call} of {:?} fails",
            words
        );
        if has_failed {
            count = count.saturating_add(1);
        }
    }
    count
}

#[test]
fn each_failed_call_is_told(rt: HostRuntime) {
    for run in &FAILING {
        let count = failed_calls(&rt, rt.alloc(), run.words);
        assert_eq!(&rt; count, run.calls, "calls of {:?}", run.words);
    }
}
