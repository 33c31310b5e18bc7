//! Whole runs over files in memory, with ample memory, on modules whose answers were worked out by hand: the output,
//! and which files are opened for it. The rules' reports for many modules are tested by `library_tests`, and end to end.

use crate::compared::{Files, Shown, first_text, join, same_number};
use crate::lint_devices::{Devices, run, steady_devices};
use crate::memory_files::FileFailure;
use hcl_scan::SINK_ROOM;
use std::alloc::Global;
use std::process::Abort;

/// The words of a run.
pub type Words = &'static [&'static str];

/// Runs the program on a module, and compares its output, and how many files it opened and returned.
pub fn check(
    rt: &impl Abort,
    alloc: Global,
    words: &[&str],
    (files, failure): (Files<'_>, FileFailure),
    wanted: Shown<'_>,
    (opened, given_back): (u64, u64),
) {
    let devices = Devices {
        file: failure,
        ..steady_devices(SINK_ROOM)
    };
    let run = run(alloc, words, files, &devices);
    run.check(rt, wanted, files);
    same_number(rt, run.opened, opened, first_text(files));
    same_number(rt, run.given_back, given_back, first_text(files));
}

// Checks that the run ends with this line and shows nothing else.
fn is_refused(
    rt: &impl Abort,
    alloc: Global,
    words: &[&str],
    module: (Files<'_>, FileFailure),
    line: &str,
    calls: (u64, u64),
) {
    check(rt, alloc, words, module, (b"", line.as_bytes(), 1), calls);
}

/// The usage line.
pub const USAGE: &str =
    "usage: tfrules [--rules LIST] [--naming snake_case|mixed_snake_case] [--minimum-failure-severity error|warning|notice] [--force] [--help] FILE...\n";

#[test]
fn help_is_shown(rt: HostRuntime) {
    let words = ["tfrules", "--help"];
    let shown = (USAGE.as_bytes(), b"".as_slice(), 0);
    check(
        &rt,
        rt.alloc(),
        &words,
        (&[], FileFailure::None),
        shown,
        (0, 0),
    );
}

static BAD_WORDS: [(Words, &str); 4] = [
    (&["tfrules"], USAGE),
    (
        &["tfrules", "--rules", "nope", "--naming", "x", "a.tf"],
        "tfrules: error: unknown rule\n",
    ),
    (
        &["tfrules", "--naming", "x", "a.tf"],
        "tfrules: error: unknown naming\n",
    ),
    (
        &["tfrules", "--minimum-failure-severity", "x", "a.tf"],
        "tfrules: error: unknown severity\n",
    ),
];

#[test]
fn words_are_refused_before_a_file_is_opened(rt: HostRuntime) {
    for (words, line) in &BAD_WORDS {
        is_refused(
            &rt,
            rt.alloc(),
            words,
            (&[], FileFailure::None),
            line,
            (0, 0),
        );
    }
}

static MODULE: [(&str, &[u8]); 3] = [
    ("a.tf", b"variable \"n\" {}\n"),
    ("b.tf", b"a=\n"),
    ("c.tf", b""),
];

// Words, the failing call, the line that is shown, and how many files are opened and returned.
static REFUSALS: [(Words, FileFailure, &str, (u64, u64)); 3] = [
    (
        &["tfrules", "a.tf", "b.tf", "c.tf"],
        FileFailure::None,
        "tfrules: error: b.tf:1:3: unexpected token\n",
        (2, 2),
    ),
    (
        &["tfrules", "a.tf", "d.tf", "c.tf"],
        FileFailure::None,
        "tfrules: error: d.tf: cannot be opened\n",
        (2, 1),
    ),
    (
        &["tfrules", "c.tf", "a.tf", "b.tf"],
        FileFailure::Read(1, 0),
        "tfrules: error: a.tf: read failed\n",
        (2, 2),
    ),
];

#[test]
fn the_first_refused_file_ends_the_run(rt: HostRuntime) {
    for (words, failure, line, calls) in &REFUSALS {
        is_refused(&rt, rt.alloc(), words, (&MODULE, *failure), line, *calls);
    }
}

const MANY: &[u8] =
    b"// old\nvariable \"n\" {}\nlocals {\n  Bad = \"${var.n}\"\n  u   = aws.x.0\n}\n";

const OF_MANY: &[&str] = &[
    "8 issue(s) found:\n\n",
    "v.tf:1:1: Warning - line comments should begin with # (terraform_comment_syntax)\n",
    "v.tf:2:1: Notice - variable \"n\" has no description (terraform_documented_variables)\n",
    "v.tf:2:1: Warning - variable \"n\" has no type (terraform_typed_variables)\n",
    "v.tf:4:3: Notice - local name \"Bad\" must match snake_case (terraform_naming_convention)\n",
    "v.tf:4:3: Warning - local \"Bad\" is declared but not used (terraform_unused_declarations)\n",
    "v.tf:4:9: Warning - interpolation-only expressions are deprecated (terraform_deprecated_interpolation)\n",
    "v.tf:5:3: Warning - local \"u\" is declared but not used (terraform_unused_declarations)\n",
    "v.tf:5:14: Warning - list items should be accessed using square brackets (terraform_deprecated_index)\n",
];

const UNVERSIONED: &[u8] = b"module \"m\" {\n  source = \"hashicorp/consul/aws\"\n}\n";

const OF_UNVERSIONED: &[&str] = &[
    "1 issue(s) found:\n\n",
    "m.tf:1:1: Warning - module \"m\" has no version (terraform_module_version)\n",
];

// Words, the file that they name, the parts of its report, and the status, which is 2 if an issue is severe enough.
static REPORTS: [(Words, (&str, &[u8]), &[&str], u8); 4] = [
    (
        &["tfrules", "--rules", "all", "v.tf"],
        ("v.tf", MANY),
        OF_MANY,
        2,
    ),
    (
        &["tfrules", "m.tf"],
        ("m.tf", UNVERSIONED),
        OF_UNVERSIONED,
        2,
    ),
    (
        &["tfrules", "--force", "m.tf"],
        ("m.tf", UNVERSIONED),
        OF_UNVERSIONED,
        0,
    ),
    (
        &["tfrules", "--minimum-failure-severity", "error", "m.tf"],
        ("m.tf", UNVERSIONED),
        OF_UNVERSIONED,
        0,
    ),
];

#[test]
fn issues_give_a_report_and_a_status(rt: HostRuntime) {
    for (words, file, parts, status) in &REPORTS {
        let report = join(&rt, rt.alloc(), parts);
        let files = [*file];
        let module = (files.as_slice(), FileFailure::None);
        check(
            &rt,
            rt.alloc(),
            words,
            module,
            (&report, b"", *status),
            (1, 1),
        );
    }
}

static TWO: [(&str, &[u8]); 2] = [("a.tf", b"a = 1\n"), ("b.tf", b"b = 1\n")];

#[test]
fn a_name_that_comes_again_is_read_once(rt: HostRuntime) {
    let words = ["tfrules", "a.tf", "b.tf", "a.tf"];
    check(
        &rt,
        rt.alloc(),
        &words,
        (&TWO, FileFailure::None),
        (b"", b"", 0),
        (2, 2),
    );
}

// This many operands with one name.
fn operands(rt: &impl Abort, alloc: Global, count: usize) -> Vec<&'static str> {
    let mut words = Vec::new(alloc);
    words.push("tfrules").expect(rt, "memory");
    for _ in 0..count {
        words.push("a.tf").expect(rt, "memory");
    }
    words
}

#[test]
fn operands_are_counted_as_given(rt: HostRuntime) {
    let alloc = rt.alloc();
    let module = (TWO.as_slice(), FileFailure::None);
    check(
        &rt,
        alloc,
        &operands(&rt, alloc, 256),
        module,
        (b"", b"", 0),
        (1, 1),
    );
    let line = "tfrules: error: more than 256 files\n";
    is_refused(&rt, alloc, &operands(&rt, alloc, 257), module, line, (0, 0));
}

// A text this many times, and another one after it.
fn repeat_text(rt: &impl Abort, alloc: Global, text: &[u8], count: usize, last: &[u8]) -> Vec<u8> {
    let mut bytes = Vec::new(alloc);
    for _ in 0..count {
        bytes.extend_from_slice(text).expect(rt, "memory");
    }
    bytes.extend_from_slice(last).expect(rt, "memory");
    bytes
}

// A dozen words, and a file of nearly 4 MiB with an issue in its last line.
#[test]
fn a_large_file_is_linted(rt: HostRuntime) {
    let alloc = rt.alloc();
    let text = repeat_text(&rt, alloc, b"a = 1\n", 699_046, b"variable \"n\" {}\n");
    let words = [
        "tfrules",
        "--rules",
        "terraform_typed_variables",
        "--naming",
        "mixed_snake_case",
        "--minimum-failure-severity",
        "error",
        "a.tf",
        "b.tf",
        "a.tf",
        "b.tf",
        "--force",
    ];
    let files = [("a.tf", text.as_slice()), ("b.tf", b"b = 1\n".as_slice())];
    let report =
        b"1 issue(s) found:\n\na.tf:699047:1: Warning - variable \"n\" has no type (terraform_typed_variables)\n";
    let module = (files.as_slice(), FileFailure::None);
    check(&rt, alloc, &words, module, (report, b"", 0), (2, 2));
}

#[test]
fn a_fault_far_down_has_its_line(rt: HostRuntime) {
    let alloc = rt.alloc();
    let text = repeat_text(&rt, alloc, b"\n", 150_000, b"a=\n");
    let files = [("a.tf", text.as_slice())];
    let line = "tfrules: error: a.tf:150001:3: unexpected token\n";
    let module = (files.as_slice(), FileFailure::None);
    is_refused(&rt, alloc, &["tfrules", "a.tf"], module, line, (1, 1));
}
