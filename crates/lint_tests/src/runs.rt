//! Runs over modules of a tree in memory.

ghost use Rattle.std.specs.Prelude.{◌≡◌, false};

use crate::checks::{Modules, PIPES, same_bytes, same_counts, same_number};
use command_line::Streams;
use hcl_scan::MemorySink;
use module_find::{Governed, Module, Policy};
use std::alloc::{AllocError, Global};
use std::process::Abort;
use tf_rules::{Naming, RuleSet, Settings, Severity};
use tfrules_command::Hashing;
use tree_devices::calls::{Failures, STEADY};
use tree_devices::entry::{MemoryEntry, Stands};
use tree_devices::memory_tree::MemoryTree;
use tree_lint::counts::Counts;
use tree_lint::module_tree::ModuleTree;
use tree_lint::run::{RunEnd, run_over};
use tree_lint::written::{Manner, Written};

/// Two modules with issues, with a refused one and one without issues between them.
static ENTRIES: &[MemoryEntry<'static>] = &[
    MemoryEntry {
        name: b"a/main.tf",
        stands: Stands::File(b"variable \"x\" {}\noutput \"y\" {\n  value = var.x\n}\n"),
    },
    MemoryEntry {
        name: b"b/main.tf",
        stands: Stands::File(b"x = \n"),
    },
    MemoryEntry {
        name: b"c/main.tf",
        stands: Stands::File(b"locals {}\n"),
    },
    MemoryEntry {
        name: b"d/a.tf",
        stands: Stands::File(b"variable \"z\" {\n  type = string\n}\n"),
    },
    MemoryEntry {
        name: b"d/b.tofu",
        stands: Stands::File(b"variable \"w\" {}\n"),
    },
];

static ALL: Modules = &[
    &["a/main.tf"],
    &["b/main.tf"],
    &["c/main.tf"],
    &["d/a.tf", "d/b.tofu"],
];

static C_ALONE: Modules = &[&["c/main.tf"]];

static D_BETWEEN: Modules = &[&["c/main.tf"], &["d/a.tf", "d/b.tofu"], &["c/main.tf"]];

static B_THEN_D: Modules = &[&["b/main.tf"], &["d/a.tf", "d/b.tofu"]];

static EMPTY_THEN_A: Modules = &[&[], &["a/main.tf"]];

static NONE: Modules = &[];

static A_ALONE: Modules = &[&["a/main.tf"]];

static A_THEN_B: Modules = &[&["a/main.tf"], &["b/main.tf"]];

static A_THEN_D: Modules = &[&["a/main.tf"], &["d/a.tf", "d/b.tofu"]];

static C_A_B: Modules = &[&["c/main.tf"], &["a/main.tf"], &["b/main.tf"]];

static D_ALONE: Modules = &[&["d/a.tf", "d/b.tofu"]];

static A_REPORT: &str =
    "1 issue(s) found:\n\na/main.tf:1:1: Warning - variable \"x\" has no type (terraform_typed_variables)\n";

static B_REFUSAL: &str = "tfrules-all: error: b/main.tf:1:5: unexpected token\n";

static D_REPORT: &str =
    "3 issue(s) found:\n\nd/a.tf:1:1: Warning - variable \"z\" is declared but not used (terraform_unused_declarations)\nd/b.tofu:1:1: Warning - variable \"w\" has no type (terraform_typed_variables)\nd/b.tofu:1:1: Warning - variable \"w\" is declared but not used (terraform_unused_declarations)\n";

static BOTH_REPORTS: &str =
    "1 issue(s) found:\n\na/main.tf:1:1: Warning - variable \"x\" has no type (terraform_typed_variables)\n\n3 issue(s) found:\n\nd/a.tf:1:1: Warning - variable \"z\" is declared but not used (terraform_unused_declarations)\nd/b.tofu:1:1: Warning - variable \"w\" has no type (terraform_typed_variables)\nd/b.tofu:1:1: Warning - variable \"w\" is declared but not used (terraform_unused_declarations)\n";

/// Reports as `tfrules` has them.
const TEXT: Written<'static> = Written {
    manner: Manner {
        form: None,
        terminals: PIPES,
    },
    head: b"",
};

/// A run: the files of its modules, the severity from which on an issue fails it, its failures, and the number of
/// writes to standard output before the next one fails.
#[derive(Clone, Copy)]
struct Given {
    modules: Modules,
    minimum: Severity,
    force: bool,
    failures: Failures,
    write: Option<usize>,
}

/// Its output: its reports and its messages, and its end.
#[derive(Drop)]
struct Shown {
    out: MemorySink,
    err: MemorySink,
    end: RunEnd,
}

/// A run in which nothing fails.
fn steady_run(modules: Modules) -> Given {
    Given {
        modules,
        minimum: Severity::Notice,
        force: false,
        failures: STEADY,
        write: None,
    }
}

fn policy(given: &Given) -> Policy {
    Policy {
        settings: Settings {
            rules: RuleSet::recommended(),
            naming: Naming::SnakeCase,
        },
        minimum: given.minimum,
        force: given.force,
        checks: false,
    }
}

/// A module of these files. Its folder is shown as `f/`.
fn module_of(alloc: Global, names: &[&str]) -> Result<Module, AllocError> {
    let mut files = Vec::new(alloc);
    for name in names {
        files.push(String::from_str(alloc, *name)?)?;
    }
    Ok(Module {
        folder: Vec::from_slice(alloc, b"f/")?,
        files,
        is_whole: true,
    })
}

/// A module of these files, with the run's policy.
fn governed_of(alloc: Global, given: &Given, names: &[&str]) -> Result<Governed, AllocError> {
    Ok(Governed {
        module: module_of(alloc, names)?,
        policy: policy(given),
    })
}

fn modules_of(alloc: Global, given: &Given) -> Result<Vec<Governed>, AllocError> {
    let mut modules = Vec::new(alloc);
    for names in given.modules {
        modules.push(governed_of(alloc, given, *names)?)?;
    }
    Ok(modules)
}

fn sink(write: Option<usize>) -> MemorySink
    ensures { result.has_failed ≡ false }
{
    match write {
        Some(good) => MemorySink::new(4096).failing_after(good),
        None => MemorySink::new(4096),
    }
}

/// Runs over modules of the tree.
fn run(alloc: Global, given: &Given, modules: &[Governed]) -> Result<Shown, AllocError> {
    let tree = MemoryTree::new(alloc, ENTRIES, given.failures)?;
    let mut files = ModuleTree::new(tree, Hashing::with_shared_seed());
    let mut streams = Streams {
        out: sink(given.write),
        err: sink(None),
    };
    let end = run_over(alloc, TEXT, modules, &mut files, &mut streams);
    let Streams { out, err } = streams;
    Ok(Shown { out, err, end })
}

/// Checks the output of a run.
fn shows(rt: &impl Abort, alloc: Global, given: Given, out: &str, err: &str, status: u8) {
    let modules = modules_of(alloc, &given).expect(rt, "memory");
    let shown = run(alloc, &given, modules.as_slice()).expect(rt, "memory");
    same_bytes(rt, shown.out.bytes(), out.as_bytes(), given.modules);
    same_bytes(rt, shown.err.bytes(), err.as_bytes(), given.modules);
    same_number(
        rt,
        u64::from(shown.end.status),
        u64::from(status),
        given.modules,
    );
}

#[test]
fn a_refused_module_stops_no_other(rt: HostRuntime) {
    shows(&rt, rt.alloc(), steady_run(ALL), BOTH_REPORTS, B_REFUSAL, 1);
}

#[test]
fn the_status_is_the_worst(rt: HostRuntime) {
    shows(&rt, rt.alloc(), steady_run(C_ALONE), "", "", 0);
    shows(&rt, rt.alloc(), steady_run(D_BETWEEN), D_REPORT, "", 2);
    shows(
        &rt,
        rt.alloc(),
        steady_run(B_THEN_D),
        D_REPORT,
        B_REFUSAL,
        1,
    );
    shows(&rt, rt.alloc(), steady_run(EMPTY_THEN_A), A_REPORT, "", 2);
    shows(&rt, rt.alloc(), steady_run(NONE), "", "", 0);
}

#[test]
fn issues_fail_a_run_as_they_are_asked_to(rt: HostRuntime) {
    let severe = Given {
        minimum: Severity::Error,
        ..steady_run(A_ALONE)
    };
    shows(&rt, rt.alloc(), severe, A_REPORT, "", 0);
    let forced = Given {
        force: true,
        ..steady_run(A_THEN_B)
    };
    shows(&rt, rt.alloc(), forced, A_REPORT, B_REFUSAL, 1);
}

#[test]
fn what_fails_at_one_module_stops_no_other(rt: HostRuntime) {
    let unopened = Given {
        failures: Failures {
            call: Some(0),
            ..STEADY
        },
        ..steady_run(A_THEN_D)
    };
    shows(
        &rt,
        rt.alloc(),
        unopened,
        D_REPORT,
        "tfrules-all: error: a/main.tf: cannot be read\n",
        1,
    );
    let unread = Given {
        failures: Failures {
            read: Some((0, 0)),
            ..STEADY
        },
        ..steady_run(A_THEN_D)
    };
    shows(
        &rt,
        rt.alloc(),
        unread,
        D_REPORT,
        "tfrules-all: error: a/main.tf: read failed\n",
        1,
    );
}

#[test]
fn a_failed_write_ends_the_run(rt: HostRuntime) {
    let unwritten = Given {
        write: Some(0),
        ..steady_run(C_A_B)
    };
    shows(&rt, rt.alloc(), unwritten, "", "", 1);
}

/// This many modules without issues, and one with an issue after them.
fn many(alloc: Global, count: usize) -> Result<Vec<Governed>, AllocError> {
    let given = steady_run(NONE);
    let mut modules = Vec::new(alloc);
    for _ in 0..count {
        modules.push(governed_of(alloc, &given, &["c/main.tf"])?)?;
    }
    modules.push(governed_of(alloc, &given, &["a/main.tf"])?)?;
    Ok(modules)
}

/// One module of this many files.
fn large_module(alloc: Global, count: usize) -> Result<Vec<Governed>, AllocError> {
    let given = steady_run(NONE);
    let mut one = governed_of(alloc, &given, &["c/main.tf"])?;
    for _ in 1..count {
        one.module
            .files
            .push(String::from_str(alloc, "c/main.tf")?)?;
    }
    let mut modules = Vec::new(alloc);
    modules.push(one)?;
    modules.push(governed_of(alloc, &given, &["a/main.tf"])?)?;
    Ok(modules)
}

#[test]
fn many_modules_are_linted(rt: HostRuntime) {
    let modules = many(rt.alloc(), 1000).expect(&rt, "memory");
    let shown = run(rt.alloc(), &steady_run(NONE), modules.as_slice()).expect(&rt, "memory");
    same_bytes(&rt, shown.out.bytes(), A_REPORT.as_bytes(), A_ALONE);
    same_number(&rt, u64::from(shown.end.status), 2, A_ALONE);
}

#[test]
fn too_many_files_are_told(rt: HostRuntime) {
    let modules = large_module(rt.alloc(), 257).expect(&rt, "memory");
    let shown = run(rt.alloc(), &steady_run(NONE), modules.as_slice()).expect(&rt, "memory");
    same_bytes(&rt, shown.out.bytes(), A_REPORT.as_bytes(), A_ALONE);
    same_bytes(
        &rt,
        shown.err.bytes(),
        b"tfrules-all: error: f/: more than 256 files\n",
        A_ALONE,
    );
    same_number(&rt, u64::from(shown.end.status), 1, A_ALONE);
}

/// Checks the numbers of a run over modules.
fn counts(rt: &impl Abort, alloc: Global, given: Given, wanted: Counts) {
    let modules = modules_of(alloc, &given).expect(rt, "memory");
    let shown = run(alloc, &given, modules.as_slice()).expect(rt, "memory");
    same_counts(rt, shown.end.counts, wanted, given.modules);
}

#[test]
fn issues_and_modules_are_counted(rt: HostRuntime) {
    let all = Counts {
        modules: 4,
        refused: 1,
        reported: 2,
        issues: 4,
    };
    counts(&rt, rt.alloc(), steady_run(ALL), all);
    let one = Counts {
        modules: 1,
        refused: 0,
        reported: 1,
        issues: 1,
    };
    counts(&rt, rt.alloc(), steady_run(EMPTY_THEN_A), one);
    let none = Counts {
        modules: 0,
        refused: 0,
        reported: 0,
        issues: 0,
    };
    counts(&rt, rt.alloc(), steady_run(NONE), none);
}

#[test]
fn each_module_is_linted_by_its_own_policy(rt: HostRuntime) {
    let given = steady_run(A_THEN_D);
    let mut modules = modules_of(rt.alloc(), &given).expect(&rt, "memory");
    for one in modules.iter_mut().skip(1) {
        one.policy.settings.rules = RuleSet::none();
    }
    let shown = run(rt.alloc(), &given, modules.as_slice()).expect(&rt, "memory");
    same_bytes(&rt, shown.out.bytes(), A_REPORT.as_bytes(), A_THEN_D);
    same_number(&rt, u64::from(shown.end.status), 2, A_THEN_D);
}
