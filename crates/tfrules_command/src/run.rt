//! A run over any devices.

ghost use Rattle.std.specs.Prelude.{◌≡◌, ◌<◌, ◌≤◌, ◌++◌, [], ℕ, List, false, map, length, string_bytes, IfOk, IfErr, Ok};
ghost use Rattle.command_line.specs.Rows.{Shows, ShowsIfMemory, ShowsOne, end_of, message_row};
ghost use Rattle.tf_rules.specs.declared.issue.Issue.{Issue};
ghost use Rattle.tfrules_command.specs.Answer.{file_error, linter, refusal_row, usage_line};
ghost use Rattle.tfrules_command.specs.Line.{options_of};
ghost use Rattle.tfrules_command.specs.Report.{report_row, status};
ghost use Rattle.tfrules_command.specs.Rows.{IsRow};
ghost use Rattle.tfrules_command.specs.Asked.{request_of};
ghost use Rattle.tf_rules.specs.Stored.{no_facts};
ghost use Rattle.tfrules_command.specs.Inner.Steps.{stop_row, usage_row, usage_text};

use crate::gather::gather;
use crate::module_files::ModuleFiles;
use crate::options::{LintOptions, options};
use crate::report::{has_severe, show_issues};
use crate::stop::Stop;
use crate::usage::Usage;
use command_line::Program;
use hcl_scan::{ByteSink, Fault};
use std::alloc::{AllocError, Global};
use tf_rules::{Facts, IssueList};

static USAGE: &str =
    "usage: tfrules [--rules LIST] [--naming snake_case|mixed_snake_case] [--minimum-failure-severity error|warning|notice] [--force] [--help] FILE...\n";

/// This program in its messages.
fn linter() -> Program
    ensures { result ≡ linter }
{
    Program::new(
        "tfrules",
        1,
        "tfrules: error: write failed\n",
        "tfrules: error: out of memory\n",
    )
}

/// The line of a file's fault.
fn fault_line(alloc: Global, name: &str, fault: &Fault) -> Result<String, AllocError>
    ensures { IfOk result (λ text. string_bytes text ≡ (refusal_row name.now fault.now).err) }
{
    let line = fault.at.line;
    let column = fault.at.column;
    let text = fault.kind.text();
    format!(in alloc; "tfrules: error: {name}:{line}:{column}: {text}\n")
}

/// The line of a file with another message.
fn line_about(alloc: Global, name: &str, text: &str) -> Result<String, AllocError>
    ensures { IfOk result (λ line. string_bytes line ≡ (file_error name.now text.now).err) }
{
    format!(in alloc; "tfrules: error: {name}: {text}\n")
}

/// The message about a stop at a file.
fn stop_line(alloc: Global, name: &str, why: Stop) -> Result<String, AllocError>
    ensures { IfOk result (λ text. string_bytes text ≡ (stop_row name.now why).err) }
{
    match why {
        Stop::NotOpened => line_about(alloc, name, "cannot be opened"),
        Stop::NotRead => line_about(alloc, name, "read failed"),
        Stop::Refused(fault) => fault_line(alloc, name, &fault),
        Stop::TooLarge => line_about(alloc, name, "module too large"),
        Stop::OutOfMemory => Err(AllocError),
    }
}

/// Reports why a run stopped at a file.
fn refuse<O: ByteSink, E: ByteSink>(
    alloc: Global,
    out: &mut O,
    err: &mut E,
    name: &str,
    why: Stop,
) -> u8
    requires out { O.failed out.old ≡ false }
    requires err { E.failed err.old ≡ false }
    ensures { ShowsIfMemory linter (λ row. row ≡ stop_row name.now why)
        (end_of O.ByteSink out.old out.new E.ByteSink err.old err.new result) }
{
    linter().tell_line(out, err, stop_line(alloc, name, why), 1)
}

/// The status of a run that found these issues.
fn status_of(options: &LintOptions<'_>, issues: &IssueList<'_>) -> u8
    ensures { result ≡ status (request_of options.now) issues.now }
{
    if !options.force && has_severe(options.minimum, issues) {
        return 2;
    }
    0
}

/// Shows the issues of a module.
fn show<O: ByteSink, E: ByteSink>(
    options: &LintOptions<'_>,
    issues: &IssueList<'_>,
    out: &mut O,
    err: &mut E,
) -> u8
    requires out { O.failed out.old ≡ false }
    requires err { E.failed err.old ≡ false }
    ensures { Shows linter (report_row (request_of options.now) issues.now)
        (end_of O.ByteSink out.old out.new E.ByteSink err.old err.new result) }
{
    let status = status_of(options, issues);
    show_issues(out, &options.files, issues);
    linter().finish(out, err, status)
}

/// Runs with facts of no file yet.
fn run_over<M: ModuleFiles, O: ByteSink, E: ByteSink>(
    alloc: Global,
    facts: &mut Facts,
    options: &LintOptions<'_>,
    files: &mut M,
    out: &mut O,
    err: &mut E,
) -> u8
    requires empty { facts.old ≡ no_facts }
    requires opened { M.open_failed files.old ≡ false }
    requires read { M.read_failed files.old ≡ false }
    requires back { M.is_out files.old ≡ false }
    requires out { O.failed out.old ≡ false }
    requires err { E.failed err.old ≡ false }
    ensures row { ShowsOne linter (IsRow (M.told files.old) (Ok (request_of options.now))
        (M.open_failed files.new) (M.read_failed files.new))
        (end_of O.ByteSink out.old out.new E.ByteSink err.old err.new result) }
    // No file is left open.
    ensures back { M.is_out files.new ≡ false }
{
    if let Err(stopped) = gather(alloc, &options.files, files, facts) {
        return refuse(alloc, out, err, stopped.name, stopped.why);
    }
    match facts.issue_list(&options.settings) {
        Ok(issues) => show(options, &issues, out, err),
        Err(_) => linter().tell_out_of_memory(out, err),
    }
}

/// Reads the named files, in their order and each once, and lints them: writes the report of their issues to standard
/// output, or the reason why one of them is refused to standard error, and returns the exit status. No file is opened
/// after a refused one.
pub fn run<M: ModuleFiles, O: ByteSink, E: ByteSink>(
    alloc: Global,
    options: &LintOptions<'_>,
    files: &mut M,
    out: &mut O,
    err: &mut E,
) -> u8
    requires opened { M.open_failed files.old ≡ false }
    requires read { M.read_failed files.old ≡ false }
    requires back { M.is_out files.old ≡ false }
    requires out { O.failed out.old ≡ false }
    requires err { E.failed err.old ≡ false }
    // However the run goes, it shows a row.
    ensures row { ShowsOne linter (IsRow (M.told files.old) (Ok (request_of options.now))
        (M.open_failed files.new) (M.read_failed files.new))
        (end_of O.ByteSink out.old out.new E.ByteSink err.old err.new result) }
    // No file is left open.
    ensures back { M.is_out files.new ≡ false }
{
    let Ok(mut facts) = Facts::with_hashing(alloc, files.hashing()) else {
        return linter().tell_out_of_memory(out, err);
    };
    run_over(alloc, &mut facts, options, files, out, err)
}

/// Prints the usage line. It opens nothing.
pub fn bad_line<O: ByteSink, E: ByteSink>(out: &mut O, err: &mut E) -> u8
    requires out { O.failed out.old ≡ false }
    requires err { E.failed err.old ≡ false }
    ensures { Shows linter (message_row usage_line 1)
        (end_of O.ByteSink out.old out.new E.ByteSink err.old err.new result) }
{
    linter().tell(out, err, USAGE, 1)
}

/// The message for a line without options.
fn usage_text(usage: Usage) -> &'static str
    ensures { result.now ≡ usage_text usage }
{
    match usage {
        Usage::Help | Usage::BadLine => USAGE,
        Usage::UnknownRule => "tfrules: error: unknown rule\n",
        Usage::BadNaming => "tfrules: error: unknown naming\n",
        Usage::BadSeverity => "tfrules: error: unknown severity\n",
        Usage::TooManyFiles => "tfrules: error: more than 256 files\n",
        Usage::OutOfMemory => "tfrules: error: out of memory\n",
    }
}

/// Prints the message for a line's usage. It opens nothing.
fn tell_usage<O: ByteSink, E: ByteSink>(usage: Usage, out: &mut O, err: &mut E) -> u8
    requires out { O.failed out.old ≡ false }
    requires err { E.failed err.old ≡ false }
    ensures { Shows linter (usage_row usage)
        (end_of O.ByteSink out.old out.new E.ByteSink err.old err.new result) }
{
    match usage {
        Usage::Help => linter().deliver(out, err, USAGE, 0),
        _ => linter().tell(out, err, usage_text(usage), 1),
    }
}

/// The whole program over any devices: reads the words, with the program's name first, and then the files that they
/// name, shows the result, and returns the exit status.
pub fn program<M: ModuleFiles, O: ByteSink, E: ByteSink>(
    alloc: Global,
    words: &[&str],
    files: &mut M,
    out: &mut O,
    err: &mut E,
) -> u8
    requires opened { M.open_failed files.old ≡ false }
    requires read { M.read_failed files.old ≡ false }
    requires back { M.is_out files.old ≡ false }
    requires out { O.failed out.old ≡ false }
    requires err { E.failed err.old ≡ false }
    // However the run goes, it shows a row.
    ensures row { ShowsOne linter (IsRow (M.told files.old)
        (options_of (map (λ word. word.now) words.now)) (M.open_failed files.new)
        (M.read_failed files.new))
        (end_of O.ByteSink out.old out.new E.ByteSink err.old err.new result) }
    // No file is left open.
    ensures back { M.is_out files.new ≡ false }
    // If the words give no options, nothing is opened.
    ensures unopened { IfErr (options_of (map (λ word. word.now) words.now))
        (λ _. (M.open_failed files.new ≡ false) × (M.read_failed files.new ≡ false)) }
{
    match options(alloc, words) {
        Ok(options) => run(alloc, &options, files, out, err),
        Err(usage) => tell_usage(usage, out, err),
    }
}
