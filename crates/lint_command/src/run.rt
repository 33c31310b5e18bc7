//! A run over any tree and any devices.

ghost use Rattle.std.specs.Prelude.{◌≡◌, ◌==◌, ◌&&◌, ◌||◌, ◌++◌, [], IfErr, IfOk, List, Some, ℕ, codes, false, flat_map, is_err, is_some, map, nat_lt, true, if◌then◌else◌};
ghost use Rattle.command_line.specs.Rows.{Took, end_of_streams, error_line, writer};
ghost use Rattle.module_config.specs.Words.{configured_words};
ghost use Rattle.module_find.specs.Faults.{fault_lines};
ghost use Rattle.tree_lint.specs.Numbers.{summary_line};
ghost use Rattle.tree_lint.specs.Readers.{Leaves, has_reader_out};
ghost use Rattle.module_find.specs.Refusals.{tree_linter};
ghost use Rattle.tree_lint.specs.Runs.{worse_status};
ghost use Rattle.lint_command.specs.Inner.Asked.{request_of, job_of};
ghost use Rattle.lint_command.specs.Ends.{IsEnd, IsFoot, RunsThen, count_lines, fault_status, head_of, last_words, summary};
ghost use Rattle.lint_command.specs.Inner.Runs.{EndsByRequest, IsEndOf, LintsCollected, LintsOr, LintsNamed, ReadsAndLints};
ghost use Rattle.lint_command.specs.Inner.Closing.{Closes};
ghost use Rattle.lint_command.specs.Line.{request_of_texts, request_of_words, reads_names};

use crate::collect::{Collected, collect};
use crate::options::{Job, LintOptions, options};
use crate::usage::NUMBER;
use crate::words::{say, tree_linter};
use command_line::{Streams, write_parts};
use file_tree::tree::Tree;
use file_tree::walk::Found;
use hcl_scan::{ByteSink, ByteSource, Failed};
use lint_forms::Form;
use lint_forms::form::{foot, head};
use module_config::configure::{Configured, configure};
use module_config::keep::keep_configured;
use module_config::words::{tell_configured, tell_unlinted};
use module_find::refusal::tell_faults;
use std::alloc::{AllocError, Global};
use tree_lint::counts::{Counts, tell_summary};
use tree_lint::module_tree::ModuleTree;
use tree_lint::run::{RunEnd, run_over, worse_status};
use tree_lint::written::{Manner, Terminals, Written};
use tree_words::operands::{operands_in, operands_of, read_names};
use tree_words::words::{CommandLine, words_of};

static READ_FAILED: &str = "tfrules-all: error: read failed\n";

/// Writes how many issues were found in the linted modules; if none was linted for lack of options, it writes nothing.
fn tell_linted<E: ByteSink>(unlinted: usize, counts: &Counts, err: &mut E) -> Result<(), Failed>
    requires err { E.failed err.old ≡ false }
    ensures took { Took (writer E.ByteSink err.old err.new)
        (if counts.now.modules == 0 && nat_lt 0 unlinted then [] else summary_line counts.now) }
    ensures failed { E.failed err.new ≡ is_err result }
{
    if counts.modules == 0 && unlinted > 0 {
        return Ok(());
    }
    tell_summary(err, counts)
}

/// Writes how many issues were found, and how many modules weren't linted.
fn tell_counts<E: ByteSink>(unlinted: usize, counts: &Counts, err: &mut E) -> Result<(), Failed>
    requires err { E.failed err.old ≡ false }
    ensures took { Took (writer E.ByteSink err.old err.new) (count_lines unlinted counts.now) }
    ensures failed { E.failed err.new ≡ is_err result }
{
    if tell_linted(unlinted, counts, err).is_err() {
        return Err(Failed);
    }
    tell_unlinted(err, unlinted)
}

/// Writes the counts of the run, unless the run is quiet.
fn summarise<E: ByteSink>(
    quiet: bool,
    unlinted: usize,
    counts: &Counts,
    err: &mut E,
) -> Result<(), Failed>
    requires err { E.failed err.old ≡ false }
    ensures took { Took (writer E.ByteSink err.old err.new) (summary quiet unlinted counts.now) }
    ensures failed { E.failed err.new ≡ is_err result }
{
    if quiet {
        return Ok(());
    }
    tell_counts(unlinted, counts, err)
}

/// Writes which files `.tfrules` are bad, and the counts of the run.
fn tell_rest<E: ByteSink>(
    quiet: bool,
    counts: &Counts,
    configured: &Configured,
    err: &mut E,
) -> Result<(), Failed>
    requires err { E.failed err.old ≡ false }
    ensures took { Took (writer E.ByteSink err.old err.new)
        (configured_words configured.now ++ summary quiet configured.now.unlinted counts.now) }
    ensures failed { E.failed err.new ≡ is_err result }
{
    if tell_configured(err, configured).is_err() {
        return Err(Failed);
    }
    summarise(quiet, configured.unlinted, counts, err)
}

/// Writes which names can't be looked at, which files `.tfrules` are bad, and the counts of the run.
fn tell_end<E: ByteSink>(
    quiet: bool,
    counts: &Counts,
    faults: &[Found],
    configured: &Configured,
    err: &mut E,
) -> Result<(), Failed>
    requires err { E.failed err.old ≡ false }
    ensures took { Took (writer E.ByteSink err.old err.new)
        (flat_map fault_lines faults.now
        ++ (configured_words configured.now
        ++ summary quiet configured.now.unlinted counts.now)) }
    ensures failed { E.failed err.new ≡ is_err result }
{
    if tell_faults(err, faults).is_err() {
        return Err(Failed);
    }
    tell_rest(quiet, counts, configured, err)
}

/// The messages of a run, besides its findings in modules.
#[derive(Clone, Copy)]
struct Rest<'r> {
    /// No message about the run as a whole is shown.
    quiet: bool,
    manner: Manner,
    /// The names that can't be looked at.
    faults: &'r [Found],
    configured: &'r Configured,
}

/// The status of a run by the names that can't be looked at and the modules that aren't linted.
fn fault_status(rest: Rest<'_>) -> u8
    ensures { result ≡ fault_status rest.entry.faults.now rest.entry.configured.now.unlinted }
{
    if !rest.faults.is_empty() {
        return 1;
    }
    if rest.configured.unlinted == 0 { 0 } else { 1 }
}

/// Shows the last message of a run without a failed write, and returns its status.
fn end_well<E: ByteSink>(rest: Rest<'_>, ran: &RunEnd, err: &mut E) -> u8
    requires err { E.failed err.old ≡ false }
    ensures took { Took (writer E.ByteSink err.old err.new)
        (flat_map fault_lines rest.entry.faults.now
        ++ (configured_words rest.entry.configured.now
        ++ summary rest.entry.quiet rest.entry.configured.now.unlinted ran.now.counts)) }
    ensures exit { result ≡ (if E.failed err.new then 1
        else worse_status ran.now.status
        (fault_status rest.entry.faults.now rest.entry.configured.now.unlinted)) }
{
    match tell_end(rest.quiet, &ran.counts, rest.faults, rest.configured, err) {
        Ok(()) => worse_status(ran.status, fault_status(rest)),
        Err(_) => 1,
    }
}

/// Shows the last message of a run, and returns its status.
fn finish<O: ByteSink, E: ByteSink>(rest: Rest<'_>, ran: &RunEnd, out: &O, err: &mut E) -> u8
    requires err { E.failed err.old ≡ false }
    ensures took { Took (writer E.ByteSink err.old err.new)
        (last_words rest.entry.quiet (O.failed out.now) rest.entry.faults.now
        rest.entry.configured.now ran.now.counts) }
    ensures exit { result ≡ (if O.failed out.now || E.failed err.new then 1
        else worse_status ran.now.status
        (fault_status rest.entry.faults.now rest.entry.configured.now.unlinted)) }
{
    if out.has_failed() {
        return tree_linter().finish(out, err, 1);
    }
    end_well(rest, ran, err)
}

/// The head of the output, before the issues of all modules.
fn head_of(alloc: Global, form: Option<Form>) -> Result<Vec<u8>, AllocError>
    ensures { IfOk result (λ text. text.items ≡ head_of form) }
{
    match form {
        Some(form) => head(alloc, form, NUMBER),
        None => Ok(Vec::new(alloc)),
    }
}

/// The foot of a form, in a run with this status.
fn form_end(
    alloc: Global,
    form: Form,
    status: u8,
    ran: &mut RunEnd,
    rest: Rest<'_>,
) -> Result<Vec<u8>, AllocError>
    ensures foot { IfOk result (λ text. IsFoot (Some form) status ran.old
        rest.entry.faults.now rest.entry.configured.now text.items) }
    ensures counts { ran.new.counts ≡ ran.old.counts }
    ensures status { ran.new.status ≡ ran.old.status }
{
    ran.kept.add_faults(alloc, rest.faults);
    keep_configured(alloc, rest.configured, &mut ran.kept);
    if !ran.kept.is_whole {
        return Err(AllocError);
    }
    let refusals = ran.kept.remarks(alloc)?;
    foot(alloc, form, status, ran.has_output, refusals.as_slice())
}

/// The foot of the output, in a run with this status.
fn foot_of(
    alloc: Global,
    status: u8,
    ran: &mut RunEnd,
    rest: Rest<'_>,
) -> Result<Vec<u8>, AllocError>
    ensures foot { IfOk result (λ text. IsFoot rest.entry.manner.form status ran.old
        rest.entry.faults.now rest.entry.configured.now text.items) }
    // Without a form nothing needs memory.
    ensures lost { IfErr result (λ _. is_some rest.entry.manner.form ≡ true) }
    ensures counts { ran.new.counts ≡ ran.old.counts }
    ensures status { ran.new.status ≡ ran.old.status }
{
    match rest.manner.form {
        Some(form) => form_end(alloc, form, status, ran, rest),
        None => Ok(Vec::new(alloc)),
    }
}

/// Reports that memory ran out for the foot.
fn tell_lost<E: ByteSink>(err: &mut E) -> u8
    requires err { E.failed err.old ≡ false }
    ensures took { Took (writer E.ByteSink err.old err.new)
        (error_line tree_linter (codes "out of memory")) }
    ensures exit { result ≡ 1 }
{
    let _ = write_parts(err, &[b"tfrules-all: error: out of memory\n"]);
    1
}

/// Writes the foot, and shows the last message of a run in which no write failed.
fn close<O: ByteSink, E: ByteSink>(
    alloc: Global,
    ran: &mut RunEnd,
    rest: Rest<'_>,
    streams: &mut Streams<O, E>,
) -> u8
    requires out { O.failed streams.old.out ≡ false }
    requires err { E.failed streams.old.err ≡ false }
    ensures { Closes rest.entry.manner.form rest.entry.quiet rest.entry.configured.now
        rest.entry.faults.now ran.old (writer O.ByteSink streams.old.out streams.new.out)
        (writer E.ByteSink streams.old.err streams.new.err)
        (streams.new.out ≡ streams.old.out) result }
{
    let status = worse_status(ran.status, fault_status(rest));
    let Ok(text) = foot_of(alloc, status, ran, rest) else {
        return tell_lost(&mut streams.err);
    };
    let _ = write_parts(&mut streams.out, &[text.as_slice()]);
    finish(rest, ran, &streams.out, &mut streams.err)
}

/// Lints the modules whose options are known, and shows the other messages.
fn lint_configured<T: Tree + Drop, O: ByteSink, E: ByteSink>(
    alloc: Global,
    rest: Rest<'_>,
    head: &[u8],
    files: &mut ModuleTree<T>,
    streams: &mut Streams<O, E>,
) -> u8
    requires back { has_reader_out files.old ≡ false }
    requires out { O.failed streams.old.out ≡ false }
    requires err { E.failed streams.old.err ≡ false }
    requires head { head.now ≡ head_of rest.manner.form }
    ensures ran { RunsThen (T.files files.old.tree) rest.entry.manner rest.entry.quiet
        rest.entry.configured.now rest.entry.faults.now
        (T.faults files.old.tree) (T.faults files.new.tree)
        (end_of_streams O.ByteSink E.ByteSink streams.old streams.new result) }
    ensures leaves { Leaves T.Tree files.old files.new }
{
    let written = Written {
        manner: rest.manner,
        head,
    };
    let governed = rest.configured.governed.as_slice();
    let mut ran = run_over(alloc, written, governed, files, streams);
    if streams.err.has_failed() {
        return 1;
    }
    if streams.out.has_failed() {
        return tree_linter().finish(&streams.out, &mut streams.err, 1);
    }
    close(alloc, &mut ran, rest, streams)
}

/// The request, and the outputs that are read on a terminal.
#[derive(Clone, Copy)]
struct Task {
    job: Job,
    terminals: Terminals,
}

/// Finds the options of modules and lints them, and reports the names that can't be looked at.
fn lint_collected<T: Tree + Drop, O: ByteSink, E: ByteSink>(
    alloc: Global,
    task: Task,
    collected: Collected,
    files: &mut ModuleTree<T>,
    streams: &mut Streams<O, E>,
) -> u8
    requires back { has_reader_out files.old ≡ false }
    requires out { O.failed streams.old.out ≡ false }
    requires err { E.failed streams.old.err ≡ false }
    ensures ends { LintsCollected task.terminals (job_of task.job) collected.modules.items
        collected.faults.items (T.files files.old.tree) (T.faults files.old.tree)
        (T.faults files.new.tree)
        (end_of_streams O.ByteSink E.ByteSink streams.old streams.new result) }
    ensures leaves { Leaves T.Tree files.old files.new }
{
    let Collected { modules, faults } = collected;
    let job = task.job;
    let given = job.given;
    let Ok(configured) = configure(alloc, given.said, given.reads, modules, &mut files.tree) else {
        return streams.tell_out_of_memory(&tree_linter());
    };
    let Ok(head) = head_of(alloc, job.form) else {
        return streams.tell_out_of_memory(&tree_linter());
    };
    let rest = Rest {
        quiet: job.quiet,
        manner: Manner {
            form: job.form,
            terminals: task.terminals,
        },
        faults: faults.as_slice(),
        configured: &configured,
    };
    lint_configured(alloc, rest, head.as_slice(), files, streams)
}

/// Finds the modules and lints them.
fn lint<T: Tree + Drop, O: ByteSink, E: ByteSink>(
    alloc: Global,
    task: Task,
    operands: &[&[u8]],
    files: &mut ModuleTree<T>,
    streams: &mut Streams<O, E>,
) -> u8
    requires back { has_reader_out files.old ≡ false }
    requires out { O.failed streams.old.out ≡ false }
    requires err { E.failed streams.old.err ≡ false }
    ensures ends { LintsOr task.terminals (job_of task.job)
        (map (λ operand. operand.now) operands.now)
        (T.files files.old.tree) (T.faults files.old.tree) (T.faults files.new.tree)
        (end_of_streams O.ByteSink E.ByteSink streams.old streams.new result) }
    ensures leaves { Leaves T.Tree files.old files.new }
{
    match collect(alloc, task.job.shard, operands, &mut files.tree) {
        Ok(collected) => lint_collected(alloc, task, collected, files, streams),
        Err(_) => streams.tell_out_of_memory(&tree_linter()),
    }
}

/// Reads the names from a device, and lints their modules.
fn lint_null<T: Tree + Drop, R: ByteSource, O: ByteSink, E: ByteSink>(
    alloc: Global,
    task: Task,
    input: &mut R,
    files: &mut ModuleTree<T>,
    streams: &mut Streams<O, E>,
) -> u8
    requires back { has_reader_out files.old ≡ false }
    requires input { R.failed input.old ≡ false }
    requires out { O.failed streams.old.out ≡ false }
    requires err { E.failed streams.old.err ≡ false }
    ensures ends { ReadsAndLints task.terminals (job_of task.job) (R.failed input.new)
        (R.left input.old)
        (T.files files.old.tree) (T.faults files.old.tree) (T.faults files.new.tree)
        (end_of_streams O.ByteSink E.ByteSink streams.old streams.new result) }
    ensures leaves { Leaves T.Tree files.old files.new }
{
    let read = read_names(alloc, input);
    if input.has_failed() {
        return streams.tell(&tree_linter(), READ_FAILED, 1);
    }
    let Ok(names) = read else {
        return streams.tell_out_of_memory(&tree_linter());
    };
    match operands_in(alloc, names.as_slice()) {
        Ok(operands) => lint(alloc, task, operands.as_slice(), files, streams),
        Err(_) => streams.tell_out_of_memory(&tree_linter()),
    }
}

/// Lints the modules of the line's names.
fn lint_named<T: Tree + Drop, O: ByteSink, E: ByteSink>(
    alloc: Global,
    task: Task,
    names: &[&[u8]],
    files: &mut ModuleTree<T>,
    streams: &mut Streams<O, E>,
) -> u8
    requires back { has_reader_out files.old ≡ false }
    requires out { O.failed streams.old.out ≡ false }
    requires err { E.failed streams.old.err ≡ false }
    ensures ends { LintsNamed task.terminals (job_of task.job) (map (λ name. name.now) names.now)
        (T.files files.old.tree) (T.faults files.old.tree) (T.faults files.new.tree)
        (end_of_streams O.ByteSink E.ByteSink streams.old streams.new result) }
    ensures leaves { Leaves T.Tree files.old files.new }
{
    match operands_of(alloc, names) {
        Ok(operands) => lint(alloc, task, operands.as_slice(), files, streams),
        Err(_) => streams.tell_out_of_memory(&tree_linter()),
    }
}

/// Does what the options request.
fn run_request<T: Tree + Drop, R: ByteSource, O: ByteSink, E: ByteSink>(
    alloc: Global,
    terminals: Terminals,
    options: &LintOptions<'_>,
    files: &mut ModuleTree<T>,
    input: &mut R,
    streams: &mut Streams<O, E>,
) -> u8
    requires back { has_reader_out files.old ≡ false }
    requires input { R.failed input.old ≡ false }
    requires out { O.failed streams.old.out ≡ false }
    requires err { E.failed streams.old.err ≡ false }
    ensures ends { EndsByRequest terminals (request_of options.now) (R.failed input.new)
        (R.left input.old) (T.files files.old.tree) (T.faults files.old.tree)
        (T.faults files.new.tree)
        (end_of_streams O.ByteSink E.ByteSink streams.old streams.new result) }
    // Standard input is read only for names.
    ensures unread { options.now.null ≡ false → input.new ≡ input.old }
    ensures leaves { Leaves T.Tree files.old files.new }
{
    let task = Task {
        job: options.job,
        terminals,
    };
    if options.null {
        return lint_null(alloc, task, input, files, streams);
    }
    lint_named(alloc, task, options.names.as_slice(), files, streams)
}

/// The whole program for words that are texts, and other words, which are names.
fn run_line<'w, T: Tree + Drop, R: ByteSource, O: ByteSink, E: ByteSink>(
    alloc: Global,
    line: CommandLine<'w>,
    terminals: Terminals,
    files: &mut ModuleTree<T>,
    input: &mut R,
    streams: &mut Streams<O, E>,
) -> u8
    requires back { has_reader_out files.old ≡ false }
    requires input { R.failed input.old ≡ false }
    requires out { O.failed streams.old.out ≡ false }
    requires err { E.failed streams.old.err ≡ false }
    ensures ends { IsEndOf terminals (map (λ word. word.now) line.entry.texts.now)
        (map (λ name. name.now) line.entry.others.now) (R.failed input.new) (R.left input.old)
        (T.files files.old.tree)
        (T.faults files.old.tree) (T.faults files.new.tree)
        (end_of_streams O.ByteSink E.ByteSink streams.old streams.new result) }
    // Standard input is read only for names.
    ensures unread { reads_names (request_of_texts (map (λ word. word.now) line.entry.texts.now)
        (map (λ name. name.now) line.entry.others.now)) ≡ false → input.new ≡ input.old }
    ensures leaves { Leaves T.Tree files.old files.new }
{
    match options(alloc, line.texts, line.others) {
        Ok(options) => run_request(alloc, terminals, &options, files, input, streams),
        Err(usage) => say(alloc, line.texts, usage, streams),
    }
}

/// The whole program over any tree and any devices. The words are the process's arguments, with the program's name
/// first. If an output is read on a terminal, lines of the files follow the messages about them.
pub fn program<T: Tree + Drop, R: ByteSource, O: ByteSink, E: ByteSink>(
    alloc: Global,
    words: &[&[u8]],
    terminals: Terminals,
    files: &mut ModuleTree<T>,
    input: &mut R,
    streams: &mut Streams<O, E>,
) -> u8
    requires back { has_reader_out files.old ≡ false }
    requires input { R.failed input.old ≡ false }
    requires out { O.failed streams.old.out ≡ false }
    requires err { E.failed streams.old.err ≡ false }
    // The modules that were linted, the messages, and the status.
    ensures ends { IsEnd terminals (map (λ word. word.now) words.now) (R.failed input.new)
        (R.left input.old) (T.files files.old.tree)
        (T.faults files.old.tree) (T.faults files.new.tree)
        (end_of_streams O.ByteSink E.ByteSink streams.old streams.new result) }
    // Standard input is read only if the words request names from there.
    ensures unread { reads_names (request_of_words (map (λ word. word.now) words.now)) ≡ false
        → input.new ≡ input.old }
    ensures leaves { Leaves T.Tree files.old files.new }
{
    let Ok(words) = words_of(alloc, "tfrules-all", words) else {
        return streams.tell_out_of_memory(&tree_linter());
    };
    let line = CommandLine {
        texts: words.texts.as_slice(),
        others: words.others.as_slice(),
    };
    run_line(alloc, line, terminals, files, input, streams)
}
