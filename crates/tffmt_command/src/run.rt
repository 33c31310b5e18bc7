//! A run over any devices.

ghost use Rattle.std.specs.Prelude.{◌≡◌, ◌≢◌, ◌||◌, ◌<◌, ◌≤◌, ℕ, List, [], false, true, length, map, if◌then◌else◌, string_bytes, IfOk, IfErr, IsTrue};
ghost use Rattle.command_line.specs.Rows.{Row, Took, Shows, ShowsIfMemory, ShowsOne, end_of, message_row, output_row, writer};
ghost use Rattle.tffmt_command.specs.Rows.{IsRow, OfInput, formatter};
ghost use Rattle.hcl_source.specs.Devices.{one_more};
ghost use Rattle.hcl_source.specs.Load.{max_source};
ghost use Rattle.hcl_layout.specs.Print.{print};
ghost use Rattle.tffmt_command.specs.Line.{options_of};
ghost use Rattle.tffmt_command.specs.Answer.{fault_line, refusal_row, usage_line, row_of_file, IsTextAnswer, IsFileAnswer, IsAnswer};

use crate::options::{FmtOptions, Usage, options};
use command_line::Program;
use hcl_layout::{emit, fits, is_formatted, is_surely_formatted, prints_nothing};
use hcl_scan::{
    ByteSink, ByteSource, Fault, FaultKind, LoadError, MAX_SOURCE, Position, ScanError, Source,
    scan,
};
use hcl_syntax::{Accepted, accepts};
use std::alloc::{AllocError, Global};

static USAGE: &str = "usage: tffmt [--check] [--help]\n";

static READ_FAILED: &str = "tffmt: error: read failed\n";

/// This program in its messages.
fn formatter() -> Program
    ensures { result ≡ formatter }
{
    Program::new(
        "tffmt",
        4,
        "tffmt: error: write failed\n",
        "tffmt: error: out of memory\n",
    )
}

/// The line of a fault.
fn fault_line(alloc: Global, fault: &Fault) -> Result<String, AllocError>
    ensures { IfOk result (λ text. string_bytes text ≡ fault_line fault.now) }
{
    let line = fault.at.line;
    let column = fault.at.column;
    let text = fault.kind.text();
    format!(in alloc; "tffmt: error: {line}:{column}: {text}\n")
}

/// Reports why a file is refused.
fn refuse<O: ByteSink, E: ByteSink>(alloc: Global, out: &mut O, err: &mut E, fault: &Fault) -> u8
    requires out { O.failed out.old ≡ false }
    requires err { E.failed err.old ≡ false }
    ensures { ShowsIfMemory formatter (λ row. row ≡ refusal_row fault.now)
        (end_of O.ByteSink out.old out.new E.ByteSink err.old err.new result) }
{
    formatter().tell_line(out, err, fault_line(alloc, fault), 2)
}

/// Writes the print of a file.
fn print<O: ByteSink>(accepted: &Accepted<'_, '_>, out: &mut O)
    requires out { O.failed out.old ≡ false }
    ensures took { Took (writer O.ByteSink out.old out.new) (print accepted.now.tokens) }
    ensures flushed { O.failed out.new ≡ false → 0 < length (print accepted.now.tokens)
        → O.flushed out.new ≡ true }
    ensures once { O.failed out.new ≡ false → 0 < length (print accepted.now.tokens)
        → O.flushes out.new ≡ one_more (O.flushes out.old) }
    ensures untouched { length (print accepted.now.tokens) ≡ 0 → O.failed out.new ≡ false }
    ensures no_flush { length (print accepted.now.tokens) ≡ 0
        → O.flushes out.new ≡ O.flushes out.old }
{
    if emit(accepted, out).is_ok() && !prints_nothing(accepted) {
        let _ = out.flush();
    }
}

/// Prints a file.
fn show<O: ByteSink, E: ByteSink>(accepted: &Accepted<'_, '_>, out: &mut O, err: &mut E) -> u8
    requires out { O.failed out.old ≡ false }
    requires err { E.failed err.old ≡ false }
    ensures { Shows formatter (output_row (print accepted.now.tokens) 0)
        (end_of O.ByteSink out.old out.new E.ByteSink err.old err.new result) }
{
    print(accepted, out);
    formatter().finish(out, err, 0)
}

/// The text of a file.
fn text_of<'s>(accepted: &Accepted<'_, 's>) -> &'s str
    ensures value { result.now ≡ accepted.now.text }
    ensures small { length result.now ≤ max_source }
{
    accepted.tokens().source().text()
}

/// Shows the result for a file that is its own print, and so is no larger than a source.
fn show_formatted<O: ByteSink, E: ByteSink>(
    options: &FmtOptions,
    accepted: &Accepted<'_, '_>,
    out: &mut O,
    err: &mut E,
) -> u8
    requires formatted { print accepted.now.tokens ≡ accepted.now.text }
    requires out { O.failed out.old ≡ false }
    requires err { E.failed err.old ≡ false }
    ensures { Shows formatter (row_of_file options.now accepted.now)
        (end_of O.ByteSink out.old out.new E.ByteSink err.old err.new result) }
{
    let text = text_of(accepted);
    if options.check {
        formatter().tell(out, err, "", 0)
    } else {
        formatter().deliver(out, err, text, 0)
    }
}

/// Shows the result for a file that isn't its own print, or isn't known to be if that makes no difference.
fn show_changed<O: ByteSink, E: ByteSink>(
    alloc: Global,
    options: &FmtOptions,
    accepted: &Accepted<'_, '_>,
    out: &mut O,
    err: &mut E,
) -> u8
    requires changed { options.now.check ≡ true → print accepted.now.tokens ≢ accepted.now.text }
    requires out { O.failed out.old ≡ false }
    requires err { E.failed err.old ≡ false }
    ensures { ShowsIfMemory formatter (λ row. row ≡ row_of_file options.now accepted.now)
        (end_of O.ByteSink out.old out.new E.ByteSink err.old err.new result) }
{
    if !fits(accepted, MAX_SOURCE as u64) {
        let fault = Fault {
            kind: FaultKind::ResultTooLarge,
            at: Position { line: 1, column: 1 },
        };
        return refuse(alloc, out, err, &fault);
    }
    if options.check {
        formatter().tell(out, err, "", 3)
    } else {
        show(accepted, out, err)
    }
}

/// Whether a file is known to be its own print. Unless the words ask for that, only the quick test is made: other files
/// are printed anew, and their runs needn't be read ahead twice.
fn is_known_formatted(options: &FmtOptions, accepted: &Accepted<'_, '_>) -> bool
    ensures formatted { IsTrue result → print accepted.now.tokens ≡ accepted.now.text }
    ensures check { options.now.check ≡ true → print accepted.now.tokens ≡ accepted.now.text
        → IsTrue result }
{
    if options.check {
        return is_formatted(accepted);
    }
    is_surely_formatted(accepted)
}

/// Shows the result for an accepted file. A formatted file, which most are, is walked once and not printed anew.
fn format<O: ByteSink, E: ByteSink>(
    alloc: Global,
    options: &FmtOptions,
    accepted: &Accepted<'_, '_>,
    out: &mut O,
    err: &mut E,
) -> u8
    requires out { O.failed out.old ≡ false }
    requires err { E.failed err.old ≡ false }
    ensures { ShowsIfMemory formatter (λ row. row ≡ row_of_file options.now accepted.now)
        (end_of O.ByteSink out.old out.new E.ByteSink err.old err.new result) }
{
    if is_known_formatted(options, accepted) {
        show_formatted(options, accepted, out, err)
    } else {
        show_changed(alloc, options, accepted, out, err)
    }
}

/// Shows the result for a source.
fn answer<O: ByteSink, E: ByteSink>(
    alloc: Global,
    options: &FmtOptions,
    source: &Source,
    out: &mut O,
    err: &mut E,
) -> u8
    requires out { O.failed out.old ≡ false }
    requires err { E.failed err.old ≡ false }
    ensures { ShowsIfMemory formatter (IsTextAnswer options.now source.now)
        (end_of O.ByteSink out.old out.new E.ByteSink err.old err.new result) }
{
    match scan(alloc, source) {
        Ok(tokens) => match accepts(&tokens) {
            Ok(accepted) => format(alloc, options, &accepted, out, err),
            Err(fault) => refuse(alloc, out, err, &fault),
        },
        Err(ScanError::Fault(fault)) => refuse(alloc, out, err, &fault),
        Err(ScanError::OutOfMemory) => formatter().tell_out_of_memory(out, err),
    }
}

/// Reads the input to its end and formats it: writes its print to standard output, or the reason for refusing it to
/// standard error, and returns the exit status. With `check` it prints nothing and says by the status whether the input
/// is formatted.
pub fn run<R: ByteSource, O: ByteSink, E: ByteSink>(
    alloc: Global,
    options: &FmtOptions,
    input: &mut R,
    out: &mut O,
    err: &mut E,
) -> u8
    requires input { R.failed input.old ≡ false }
    requires out { O.failed out.old ≡ false }
    requires err { E.failed err.old ≡ false }
    // However the run goes, it shows a row.
    ensures { ShowsOne formatter (IsRow (IsFileAnswer options.now) (R.failed input.new)
        (R.left input.old)) (end_of O.ByteSink out.old out.new E.ByteSink err.old err.new result) }
{
    match Source::read_from(alloc, input) {
        Ok(source) => answer(alloc, options, &source, out, err),
        Err(LoadError::Fault(fault)) => refuse(alloc, out, err, &fault),
        Err(LoadError::ReadFailed) => formatter().tell(out, err, READ_FAILED, 4),
        Err(LoadError::OutOfMemory) => formatter().tell_out_of_memory(out, err),
    }
}

/// Prints the usage line. It reads nothing.
pub fn bad_line<O: ByteSink, E: ByteSink>(out: &mut O, err: &mut E) -> u8
    requires out { O.failed out.old ≡ false }
    requires err { E.failed err.old ≡ false }
    ensures { Shows formatter (message_row usage_line 2)
        (end_of O.ByteSink out.old out.new E.ByteSink err.old err.new result) }
{
    formatter().tell(out, err, USAGE, 2)
}

/// The whole program over any devices: reads the words, with the program's name first, and then the input, shows the
/// result, and returns the exit status.
pub fn program<R: ByteSource, O: ByteSink, E: ByteSink>(
    alloc: Global,
    words: &[&str],
    input: &mut R,
    out: &mut O,
    err: &mut E,
) -> u8
    requires input { R.failed input.old ≡ false }
    requires out { O.failed out.old ≡ false }
    requires err { E.failed err.old ≡ false }
    // However the run goes, it shows a row.
    ensures row { ShowsOne formatter
        (IsRow (IsAnswer (map (λ word. word.now) words.now)) (R.failed input.new)
        (R.left input.old)) (end_of O.ByteSink out.old out.new E.ByteSink err.old err.new result) }
    // If nothing failed and memory sufficed, it shows the row of its words and its input.
    ensures answer { R.failed input.new ≡ false → O.failed out.new ≡ false
        → E.failed err.new ≡ false → result ≢ 4
        → OfInput (R.left input.old) (λ bytes. (row : Row)
        × IsAnswer (map (λ word. word.now) words.now) bytes row
        × Shows formatter row (end_of O.ByteSink out.old out.new E.ByteSink err.old err.new
        result)) }
    // If the words give no options, nothing is read.
    ensures unread { IfErr (options_of (map (λ word. word.now) words.now))
        (λ _. (R.failed input.new ≡ false) × (R.left input.new ≡ R.left input.old)) }
{
    match options(alloc, words) {
        Ok(options) => run(alloc, &options, input, out, err),
        Err(Usage::Help) => formatter().deliver(out, err, USAGE, 0),
        Err(Usage::BadLine) => bad_line(out, err),
        Err(Usage::OutOfMemory) => formatter().tell_out_of_memory(out, err),
    }
}
