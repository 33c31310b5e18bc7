//! A run over any tree and any devices.

ghost use Rattle.std.specs.Prelude.{◌≡◌, ◌||◌, ℕ, List, false, IfOk, Some, if◌then◌else◌, map};
ghost use Rattle.command_line.specs.Rows.{Shows, Took, end_of_streams, writer};
ghost use Rattle.file_tree.specs.Unchanged.{Unchanged};
ghost use Rattle.tree_command.specs.Ends.{IsEnd, IsSelected, words_at_end};
ghost use Rattle.tree_command.specs.Inner.Runs.{EndsByRequest, FormatsNamed, FormatsOr, IsEndOf, ReadsAndFormats, ShowsUsage};
ghost use Rattle.tree_command.specs.Inner.Asked.{request_of, selection_view};
ghost use Rattle.tree_command.specs.Formatter.{formatter};
ghost use Rattle.tree_command.specs.Line.{request_of_texts, request_of_words, mode_of_texts, mode_of_words, reads_names};
ghost use Rattle.tree_command.specs.declared.usage.Usage.TheVariants.{BadLine};
ghost use Rattle.tree_format.specs.declared.mode.Mode.{Mode};
ghost use Rattle.tree_format.specs.Runs.{IsSafe, MayBecome};
ghost use Rattle.tree_format.specs.States.{state_of};

use crate::formatter_words::formatter_words;
use crate::options::{TreeOptions, options};
use crate::selection::{Selection, selection_of};
use crate::usage::{BAD_JOBS, BAD_PART, HELP, NAMES_TWICE, TWO_MODES, Usage, VERSION};
use command_line::{Program, Streams};
use file_tree::once::each_file_once;
use file_tree::tree::{Tree, WritableTree};
use file_tree::walk::{Found, find};
use hcl_scan::{ByteSink, ByteSource};
use std::alloc::{AllocError, Global};
use tree_format::mode::Mode;
use tree_format::progress::Progress;
use tree_format::run::{Ran, run_over};
use tree_format::tally::tell_tally;
use tree_words::operands::{operands_in, operands_of, read_names};
use tree_words::pick::pick;
use tree_words::words::{CommandLine, words_of};
use tree_words::wrong::bad_line_text;

/// The status of a run in which something failed.
const FAILURE: u8 = 4;

static READ_FAILED: &str = "tffmt-all: error: read failed\n";

/// This program, for its messages.
fn formatter() -> Program
    ensures { result ≡ formatter }
{
    Program::new(
        "tffmt-all",
        4,
        "tffmt-all: error: write failed\n",
        "tffmt-all: error: out of memory\n",
    )
}

/// The files that these names stand for, without links to files that are found under another name as well, as far as
/// the part takes them.
fn find_selected<T: Tree>(
    alloc: Global,
    selection: Selection<'_>,
    operands: &[&[u8]],
    tree: &mut T,
) -> Result<Vec<Found>, AllocError>
    ensures unchanged { Unchanged T.Tree tree.old tree.new }
    ensures finds { IfOk result
        (λ found. IsSelected (T.files tree.old) (T.faults tree.old) (T.faults tree.new)
        (selection_view selection.entry) (map (λ operand. operand.now) operands.now) found.items) }
{
    let found = find(alloc, selection.choice, operands, tree)?;
    let found = each_file_once(alloc, found)?;
    pick(alloc, found, selection.shard)
}

/// What a run is to do.
#[derive(Clone, Copy)]
struct Job<'p> {
    /// No message about the run as a whole is shown.
    quiet: bool,
    mode: Mode,
    /// The part of the files that it takes.
    selection: Selection<'p>,
}

/// Writes the last message of a run, and returns its status.
fn finish<O: ByteSink, E: ByteSink>(job: Job<'_>, ran: &Ran, out: &O, err: &mut E) -> u8
    requires err { E.failed err.old ≡ false }
    ensures took { Took (writer E.ByteSink err.old err.new)
        (words_at_end job.entry.quiet job.entry.mode (O.failed out.now) ran.now.tally) }
    ensures exit { result ≡ (if O.failed out.now || E.failed err.new then 4 else ran.now.status) }
{
    if job.quiet || out.has_failed() {
        return formatter().finish(out, err, ran.status);
    }
    match tell_tally(err, job.mode, &ran.tally) {
        Ok(()) => ran.status,
        Err(_) => FAILURE,
    }
}

/// Finds the files and looks at each.
#[tactic(auto, using(tree_format::proofs::KeptFormatLemmas::kept_same, tree_format::proofs::KeptFormatLemmas::kept_still, tree_format::proofs::KeptFormatLemmas::kept_from))]
fn run<T: WritableTree, P: Progress, O: ByteSink, E: ByteSink>(
    alloc: Global,
    job: Job<'_>,
    operands: &[&[u8]],
    tree: &mut T,
    progress: &mut P,
    streams: &mut Streams<O, E>,
) -> u8
    requires out { O.failed streams.old.out ≡ false }
    requires err { E.failed streams.old.err ≡ false }
    // However the run ends, each file is unchanged, or, if files are to be written, it has the format of its bytes.
    ensures kept { (name : List ℕ)
        → MayBecome job.entry.mode ((T.files tree.old).told name) ((T.files tree.new).told name) }
    ensures ends { FormatsOr (P.shows progress.old) job.entry.quiet job.entry.mode
        (selection_view job.entry.selection)
        (map (λ operand. operand.now) operands.now) (state_of T.Tree tree.old)
        (state_of T.Tree tree.new)
        (end_of_streams O.ByteSink E.ByteSink streams.old streams.new result) }
{
    match find_selected(alloc, job.selection, operands, tree) {
        Ok(found) => {
            let ran = run_over(alloc, job.mode, found.as_slice(), tree, progress, streams);
            progress.end();
            if streams.err.has_failed() {
                return FAILURE;
            }
            finish(job, &ran, &streams.out, &mut streams.err)
        }
        Err(_) => streams.tell_out_of_memory(&formatter()),
    }
}

/// Reads the names from a device, and formats their files.
#[tactic(auto, using(tree_format::proofs::KeptFormatLemmas::kept_same, tree_format::proofs::KeptFormatLemmas::kept_still, tree_format::proofs::KeptFormatLemmas::kept_from))]
fn run_null<T: WritableTree, P: Progress, R: ByteSource, O: ByteSink, E: ByteSink>(
    alloc: Global,
    job: Job<'_>,
    input: &mut R,
    tree: &mut T,
    progress: &mut P,
    streams: &mut Streams<O, E>,
) -> u8
    requires input { R.failed input.old ≡ false }
    requires out { O.failed streams.old.out ≡ false }
    requires err { E.failed streams.old.err ≡ false }
    // However the run ends, each file is unchanged, or, if files are to be written, it has the format of its bytes.
    ensures kept { (name : List ℕ)
        → MayBecome job.entry.mode ((T.files tree.old).told name) ((T.files tree.new).told name) }
    ensures ends { ReadsAndFormats (P.shows progress.old) job.entry.quiet job.entry.mode
        (selection_view job.entry.selection)
        (R.failed input.new) (R.left input.old)
        (state_of T.Tree tree.old) (state_of T.Tree tree.new)
        (end_of_streams O.ByteSink E.ByteSink streams.old streams.new result) }
{
    let read = read_names(alloc, input);
    if input.has_failed() {
        return streams.tell(&formatter(), READ_FAILED, FAILURE);
    }
    let Ok(names) = read else {
        return streams.tell_out_of_memory(&formatter());
    };
    match operands_in(alloc, names.as_slice()) {
        Ok(operands) => run(alloc, job, operands.as_slice(), tree, progress, streams),
        Err(_) => streams.tell_out_of_memory(&formatter()),
    }
}

/// Formats the files of the line's names.
#[tactic(auto, using(tree_format::proofs::KeptFormatLemmas::kept_same, tree_format::proofs::KeptFormatLemmas::kept_still, tree_format::proofs::KeptFormatLemmas::kept_from))]
fn run_named<T: WritableTree, P: Progress, O: ByteSink, E: ByteSink>(
    alloc: Global,
    job: Job<'_>,
    names: &[&[u8]],
    tree: &mut T,
    progress: &mut P,
    streams: &mut Streams<O, E>,
) -> u8
    requires out { O.failed streams.old.out ≡ false }
    requires err { E.failed streams.old.err ≡ false }
    // However the run ends, each file is unchanged, or, if files are to be written, it has the format of its bytes.
    ensures kept { (name : List ℕ)
        → MayBecome job.entry.mode ((T.files tree.old).told name) ((T.files tree.new).told name) }
    ensures ends { FormatsNamed (P.shows progress.old) job.entry.quiet job.entry.mode
        (selection_view job.entry.selection)
        (map (λ name. name.now) names.now) (state_of T.Tree tree.old) (state_of T.Tree tree.new)
        (end_of_streams O.ByteSink E.ByteSink streams.old streams.new result) }
{
    match operands_of(alloc, names) {
        Ok(operands) => run(alloc, job, operands.as_slice(), tree, progress, streams),
        Err(_) => streams.tell_out_of_memory(&formatter()),
    }
}

/// Shows the wrong word of a wrong line, and the usage.
fn bad_line<O: ByteSink, E: ByteSink>(
    alloc: Global,
    words: &[&str],
    streams: &mut Streams<O, E>,
) -> u8
    requires out { O.failed streams.old.out ≡ false }
    requires err { E.failed streams.old.err ≡ false }
    ensures { ShowsUsage (map (λ word. word.now) words.now) BadLine
        (end_of_streams O.ByteSink E.ByteSink streams.old streams.new result) }
{
    match bad_line_text(alloc, &formatter_words(), words) {
        Ok(text) => streams.tell_bytes(&formatter(), text.as_slice(), 2),
        Err(_) => streams.tell_out_of_memory(&formatter()),
    }
}

/// Shows the answer to words that request no run.
fn say<O: ByteSink, E: ByteSink>(
    alloc: Global,
    words: &[&str],
    usage: Usage,
    streams: &mut Streams<O, E>,
) -> u8
    requires out { O.failed streams.old.out ≡ false }
    requires err { E.failed streams.old.err ≡ false }
    ensures { ShowsUsage (map (λ word. word.now) words.now) usage
        (end_of_streams O.ByteSink E.ByteSink streams.old streams.new result) }
{
    match usage {
        Usage::Help => streams.deliver(&formatter(), HELP, 0),
        Usage::Version => streams.deliver(&formatter(), VERSION, 0),
        Usage::BadLine => bad_line(alloc, words, streams),
        Usage::TwoModes => streams.tell(&formatter(), TWO_MODES, 2),
        Usage::BadPart => streams.tell(&formatter(), BAD_PART, 2),
        Usage::BadJobs => streams.tell(&formatter(), BAD_JOBS, 2),
        Usage::NamesTwice => streams.tell(&formatter(), NAMES_TWICE, 2),
        Usage::OutOfMemory => streams.tell_out_of_memory(&formatter()),
    }
}

/// Does what the options request.
#[tactic(auto, using(tree_format::proofs::KeptFormatLemmas::safe_same, tree_format::proofs::KeptFormatLemmas::safe_kept))]
fn run_request<T: WritableTree, P: Progress, R: ByteSource, O: ByteSink, E: ByteSink>(
    alloc: Global,
    options: &TreeOptions<'_>,
    tree: &mut T,
    progress: &mut P,
    input: &mut R,
    streams: &mut Streams<O, E>,
) -> u8
    requires input { R.failed input.old ≡ false }
    requires out { O.failed streams.old.out ≡ false }
    requires err { E.failed streams.old.err ≡ false }
    // However the run ends, each file is unchanged, or, if files are to be written, it has the format of its bytes.
    ensures kept { (name : List ℕ)
        → MayBecome options.now.mode ((T.files tree.old).told name) ((T.files tree.new).told name) }
    // Standard input is read only for names.
    ensures unread { options.now.given.null ≡ false → input.new ≡ input.old }
    ensures ends { EndsByRequest (P.shows progress.old) (request_of options.now)
        (R.failed input.new) (R.left input.old)
        (state_of T.Tree tree.old) (state_of T.Tree tree.new)
        (end_of_streams O.ByteSink E.ByteSink streams.old streams.new result) }
{
    let given = &options.given;
    let job = Job {
        quiet: given.quiet,
        mode: options.mode,
        selection: selection_of(options),
    };
    if given.null {
        return run_null(alloc, job, input, tree, progress, streams);
    }
    run_named(alloc, job, given.names.as_slice(), tree, progress, streams)
}

/// The whole program for words that are texts, and other words, which are names.
#[tactic(auto, using(tree_format::proofs::KeptFormatLemmas::safe_same, tree_format::proofs::KeptFormatLemmas::safe_kept))]
fn run_line<'w, T: WritableTree, P: Progress, R: ByteSource, O: ByteSink, E: ByteSink>(
    alloc: Global,
    line: CommandLine<'w>,
    tree: &mut T,
    progress: &mut P,
    input: &mut R,
    streams: &mut Streams<O, E>,
) -> u8
    requires input { R.failed input.old ≡ false }
    requires out { O.failed streams.old.out ≡ false }
    requires err { E.failed streams.old.err ≡ false }
    // However the run ends, each file is unchanged, or has the format of its bytes.
    ensures safe { (name : List ℕ)
        → IsSafe ((T.files tree.old).told name) ((T.files tree.new).told name) }
    // A file is changed to its format only if the words request that.
    ensures kept { (mode : Mode)
        → mode_of_texts (map (λ word. word.now) line.entry.texts.now) ≡ Some mode
        → (name : List ℕ) → MayBecome mode ((T.files tree.old).told name)
        ((T.files tree.new).told name) }
    // Standard input is read only for names.
    ensures unread { reads_names (request_of_texts (map (λ word. word.now) line.entry.texts.now)
        (map (λ name. name.now) line.entry.others.now)) ≡ false → input.new ≡ input.old }
    // The files that were looked at, the messages, and the status.
    ensures ends { IsEndOf (P.shows progress.old) (map (λ word. word.now) line.entry.texts.now)
        (map (λ name. name.now) line.entry.others.now) (R.failed input.new) (R.left input.old)
        (state_of T.Tree tree.old) (state_of T.Tree tree.new)
        (end_of_streams O.ByteSink E.ByteSink streams.old streams.new result) }
{
    match options(alloc, line.texts, line.others) {
        Ok(options) => run_request(alloc, &options, tree, progress, input, streams),
        Err(usage) => say(alloc, line.texts, usage, streams),
    }
}

/// The whole program over any tree and any devices. The words are the process's arguments, with the program's name
/// first.
#[tactic(auto, using(tree_format::proofs::KeptFormatLemmas::safe_same, tree_format::proofs::KeptFormatLemmas::safe_kept))]
pub fn program<T: WritableTree, P: Progress, R: ByteSource, O: ByteSink, E: ByteSink>(
    alloc: Global,
    words: &[&[u8]],
    tree: &mut T,
    progress: &mut P,
    input: &mut R,
    streams: &mut Streams<O, E>,
) -> u8
    requires input { R.failed input.old ≡ false }
    requires out { O.failed streams.old.out ≡ false }
    requires err { E.failed streams.old.err ≡ false }
    // However the run ends, each file is unchanged, or has the format of its bytes.
    ensures safe { (name : List ℕ)
        → IsSafe ((T.files tree.old).told name) ((T.files tree.new).told name) }
    // A file is changed to its format only if the words request that.
    ensures kept { (mode : Mode) → mode_of_words (map (λ word. word.now) words.now) ≡ Some mode
        → (name : List ℕ) → MayBecome mode ((T.files tree.old).told name)
        ((T.files tree.new).told name) }
    // Standard input is read only if the words request names from there.
    ensures unread { reads_names (request_of_words (map (λ word. word.now) words.now)) ≡ false
        → input.new ≡ input.old }
    // The files that were looked at, the messages, and the status.
    ensures ends { IsEnd (P.shows progress.old) (map (λ word. word.now) words.now)
        (R.failed input.new) (R.left input.old)
        (state_of T.Tree tree.old) (state_of T.Tree tree.new)
        (end_of_streams O.ByteSink E.ByteSink streams.old streams.new result) }
{
    let Ok(words) = words_of(alloc, "tffmt-all", words) else {
        return streams.tell_out_of_memory(&formatter());
    };
    let line = CommandLine {
        texts: words.texts.as_slice(),
        others: words.others.as_slice(),
    };
    run_line(alloc, line, tree, progress, input, streams)
}
