//! A run over modules.

ghost use Rattle.std.specs.Prelude.{◌≡◌, ◌||◌, ◌≤◌, [], false, length};
ghost use Rattle.command_line.specs.Rows.{end_of_streams, writer};
ghost use Rattle.tfrules_command.specs.Line.{max_files};
ghost use Rattle.tree_lint.specs.Numbers.{is_module};
ghost use Rattle.tree_lint.specs.Readers.{Leaves, has_reader_out};
ghost use Rattle.tree_lint.specs.Runs.{IsLintRun, worse_status};
ghost use Rattle.tree_lint.specs.Verdicts.{CanBeRead, IsVerdict};
ghost use Rattle.tree_lint.specs.Inner.Showing.{Shows};

use crate::counts::{Counts, Ended};
use crate::gather::{Gathered, gather};
use crate::module_tree::ModuleTree;
use crate::report::{REFUSED, no_memory, refuse, show, too_many};
use crate::written::{Manner, Written};
use command_line::Streams;
use file_tree::tree::Tree;
use hcl_scan::{ByteSink, write_fully};
use module_find::kept::KeptRefusals;
use module_find::{Governed, Module, Policy};
use std::alloc::Global;
use tf_rules::Facts;
use tfrules_command::file_names::MAX_FILES;

/// How to lint and to show a module.
#[derive(Clone, Copy)]
pub(crate) struct ModuleTask {
    /// The policy by which it is linted.
    pub policy: Policy,
    pub manner: Manner,
    /// Other outputs precede its own.
    pub is_after: bool,
}

/// Lints the files of a module, which can all be looked at and aren't too many.
fn lint_files<T: Tree + Drop, O: ByteSink, E: ByteSink>(
    alloc: Global,
    task: ModuleTask,
    one: &Module,
    files: &mut ModuleTree<T>,
    streams: &mut Streams<O, E>,
    kept: &mut KeptRefusals,
) -> Ended
    requires readable { CanBeRead one.now }
    requires back { has_reader_out files.old ≡ false }
    requires out { O.failed streams.old.out ≡ false }
    requires err { E.failed streams.old.err ≡ false }
    ensures shows { Shows task one.now (IsVerdict (T.files files.old.tree) task.manner.terminals
        task.policy one.now (T.faults files.old.tree) (T.faults files.new.tree))
        (writer O.ByteSink streams.old.out streams.new.out)
        (writer E.ByteSink streams.old.err streams.new.err)
        kept.old kept.new result }
    ensures leaves { Leaves T.Tree files.old files.new }
{
    let Ok(facts) = Facts::with_hashing(alloc, files.hashing()) else {
        return refuse(alloc, no_memory(one), &mut streams.err, kept);
    };
    let mut all = Gathered::new(alloc, facts, task.policy.checks, task.manner.terminals);
    if let Err(stopped) = gather(alloc, one.files.as_slice(), files, &mut all) {
        return refuse(alloc, stopped.refusal(), &mut streams.err, kept);
    }
    match all.facts.issue_list(&task.policy.settings) {
        Ok(issues) => {
            let linted = all.as_linted(&issues);
            show(alloc, task, one, linted, streams, kept)
        }
        Err(_) => refuse(alloc, no_memory(one), &mut streams.err, kept),
    }
}

/// Lints one module.
fn lint_one<T: Tree + Drop, O: ByteSink, E: ByteSink>(
    alloc: Global,
    task: ModuleTask,
    one: &Module,
    files: &mut ModuleTree<T>,
    streams: &mut Streams<O, E>,
    kept: &mut KeptRefusals,
) -> Ended
    requires back { has_reader_out files.old ≡ false }
    requires out { O.failed streams.old.out ≡ false }
    requires err { E.failed streams.old.err ≡ false }
    ensures shows { Shows task one.now (IsVerdict (T.files files.old.tree) task.manner.terminals
        task.policy one.now (T.faults files.old.tree) (T.faults files.new.tree))
        (writer O.ByteSink streams.old.out streams.new.out)
        (writer E.ByteSink streams.old.err streams.new.err)
        kept.old kept.new result }
    ensures leaves { Leaves T.Tree files.old files.new }
{
    if !one.is_whole {
        return REFUSED;
    }
    if one.files.len() > MAX_FILES {
        return refuse(alloc, too_many(one), &mut streams.err, kept);
    }
    lint_files(alloc, task, one, files, streams, kept)
}

/// The worse of two statuses: 1 is worse than 2.
pub fn worse_status(one: u8, other: u8) -> u8
    ensures { result ≡ worse_status one other }
{
    if one == 1 || other == 1 {
        return 1;
    }
    one.max(other)
}

fn either(one: bool, other: bool) -> bool
    ensures { result ≡ (one || other) }
{
    one || other
}

/// Whether a module counts as one: it has a file, or isn't whole.
fn is_module(one: &Module) -> bool
    ensures { result ≡ is_module one.now }
{
    !(one.files.is_empty() && one.is_whole)
}

/// The end of a run over modules.
#[derive(Drop)]
pub struct RunEnd {
    /// The worst status of a module, or that of a failed write.
    pub status: u8,
    /// Its numbers, unless a write failed.
    pub counts: Counts,
    /// Whether any output went to standard output, unless a write failed.
    pub has_output: bool,
    /// The refusals, for the end of a form, unless a write failed.
    pub kept: KeptRefusals,
}

impl RunEnd {
    /// The end of a run in which a write failed.
    fn with_failed_write(counts: Counts, kept: KeptRefusals) -> RunEnd
        ensures { result.status ≡ 1 }
    {
        RunEnd {
            status: 1,
            counts,
            has_output: false,
            kept,
        }
    }
}

/// Lints modules one after another, each by its own policy, whatever the others' verdicts: a refused module stops none.
fn run_all<T: Tree + Drop, O: ByteSink, E: ByteSink>(
    alloc: Global,
    manner: Manner,
    modules: &[Governed],
    files: &mut ModuleTree<T>,
    streams: &mut Streams<O, E>,
) -> RunEnd
    requires back { has_reader_out files.old ≡ false }
    requires out { O.failed streams.old.out ≡ false }
    requires err { E.failed streams.old.err ≡ false }
    ensures ran { IsLintRun (T.files files.old.tree) manner [] modules.now
        (T.faults files.old.tree) (T.faults files.new.tree)
        (end_of_streams O.ByteSink E.ByteSink streams.old streams.new result.status) result }
    ensures leaves { Leaves T.Tree files.old files.new }
{
    let mut status = 0;
    let mut has_output = false;
    let mut counts = Counts::new();
    let mut kept = KeptRefusals::new(alloc, manner.form.is_some());
    for one in modules {
        let task = ModuleTask {
            policy: one.policy,
            manner,
            is_after: has_output,
        };
        let ended = lint_one(alloc, task, &one.module, files, streams, &mut kept);
        if streams.has_failed() {
            return RunEnd::with_failed_write(counts, kept);
        }
        has_output = either(has_output, ended.is_shown);
        status = worse_status(status, ended.status);
        counts = counts.add(is_module(&one.module), ended);
    }
    RunEnd {
        status,
        counts,
        has_output,
        kept,
    }
}

/// Lints modules one after another, each by its own policy, whatever the others' verdicts: a refused module stops none.
/// Standard output gets the head and then the issues of each module, in a form or as the report of `tfrules`, with an
/// empty line between two. Standard error gets why modules are refused, except those that aren't whole. Returns the
/// worst status of a module, where 1 is worse than 2. After a failed write nothing more is linted, and the status is 1.
pub fn run_over<T: Tree + Drop, O: ByteSink, E: ByteSink>(
    alloc: Global,
    written: Written<'_>,
    modules: &[Governed],
    files: &mut ModuleTree<T>,
    streams: &mut Streams<O, E>,
) -> RunEnd
    requires back { has_reader_out files.old ≡ false }
    requires out { O.failed streams.old.out ≡ false }
    requires err { E.failed streams.old.err ≡ false }
    // The verdict on each module, its texts, the status, and the findings of the run.
    ensures ran { IsLintRun (T.files files.old.tree) written.entry.manner written.entry.head.now
        modules.now (T.faults files.old.tree) (T.faults files.new.tree)
        (end_of_streams O.ByteSink E.ByteSink streams.old streams.new result.status) result }
    ensures leaves { Leaves T.Tree files.old files.new }
{
    if let Err(_fault) = write_fully(&mut streams.out, written.head) {
        return RunEnd::with_failed_write(Counts::new(), KeptRefusals::new(alloc, false));
    }
    run_all(alloc, written.manner, modules, files, streams)
}
