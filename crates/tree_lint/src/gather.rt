//! The files of a module, read one after another.

ghost use Rattle.std.specs.Prelude.{◌≡◌, ◌≤◌, ◌++◌, [], OnOk, false, length, map, string_bytes};
ghost use Rattle.tree_lint.specs.CommentFaults.{fault_view};
ghost use Rattle.tfrules_command.specs.Files.{max_module};
ghost use Rattle.tfrules_command.specs.Line.{max_files};
ghost use Rattle.tree_lint.specs.Readers.{Leaves, has_reader_out};
ghost use Rattle.module_find.specs.Modules.{bytes_of_name};
ghost use Rattle.tree_lint.specs.Verdicts.{shows_lines};
ghost use Rattle.tree_lint.specs.Inner.Gathering.{AddsComments, AddsFile, AddsRead, Gathers, IsEmpty, KeepsFile, KeepsScanned, StopsWith, texts_kept};
ghost use Rattle.tree_lint.specs.Inner.Showing.{linted_view};

use crate::comment_fault::CommentFault;
use crate::comments::add_comment_faults;
use crate::linted::Linted;
use crate::module_tree::ModuleTree;
use crate::stop::{Stop, Stopped};
use crate::written::Terminals;
use file_tree::fault::TreeFault;
use file_tree::tree::Tree;
use hcl_scan::{Source, Tokens};
use source_snippet::snippet_of;
use std::alloc::{AllocError, Global};
use tf_rules::{Facts, IssueList};
use tfrules_command::gather::{ScannedFile, keep_tokens, scan_file};
use tfrules_command::stop::Stop as FileStop;

/// The facts, comments and texts of a module's files.
#[derive(Drop)]
pub(crate) struct Gathered {
    pub facts: Facts,
    /// Comments are checked: those are found that are meant to silence a rule and don't.
    checks: bool,
    /// The comments that were found.
    comments: Vec<CommentFault>,
    /// The outputs on which lines of the files are shown.
    terminals: Terminals,
    /// The texts of the files, if lines of them are shown.
    texts: Vec<Source>,
}

impl Gathered {
    /// These facts, with no comment and no text.
    pub(crate) fn new(alloc: Global, facts: Facts, checks: bool, terminals: Terminals) -> Gathered
        ensures facts { result.facts ≡ facts }
        ensures checks { result.checks ≡ checks }
        ensures comments { result.comments.items ≡ [] }
        ensures terminals { result.terminals ≡ terminals }
        ensures texts { result.texts.items ≡ [] }
    {
        Gathered {
            facts,
            checks,
            comments: Vec::new(alloc),
            terminals,
            texts: Vec::new(alloc),
        }
    }

    /// These issues, with the comments and the texts.
    pub(crate) fn as_linted<'a, 'f>(&'a self, issues: &'a IssueList<'f>) -> Linted<'a, 'f>
        ensures { linted_view result ≡ record {
          issues = issues.entry.now;
          comments = map fault_view self.entry.now.comments.items;
          texts = self.entry.now.texts.items;
        } }
    {
        Linted {
            issues,
            comments: self.comments.as_slice(),
            texts: self.texts.as_slice(),
        }
    }
}

/// Keeps the comments of a file, if they are checked.
fn keep_comments(
    alloc: Global,
    number: u32,
    tokens: &Tokens<'_>,
    into: &mut Gathered,
) -> Result<(), AllocError>
    ensures facts { into.new.facts ≡ into.old.facts }
    ensures ok { OnOk result (AddsComments (record { number = number; source = tokens.now })
        into.old into.new) }
{
    if !into.checks {
        return Ok(());
    }
    add_comment_faults(alloc, number, tokens, &mut into.comments)?;
    Ok(())
}

/// Keeps the facts and the comments of a file by its tokens, and returns how many bytes the files have together with
/// it.
fn keep_scanned(
    alloc: Global,
    number: u32,
    file: &ScannedFile<'_>,
    into: &mut Gathered,
) -> Result<usize, FileStop>
    ensures { KeepsScanned file.now number into.old into.new result }
{
    let all = match keep_tokens(number, file.all, &file.tokens, &mut into.facts) {
        Ok(all) => all,
        Err(stop) => return Err(stop),
    };
    match keep_comments(alloc, number, &file.tokens, into) {
        Ok(()) => Ok(all),
        Err(_) => Err(FileStop::OutOfMemory),
    }
}

/// Keeps the facts and the comments of a file after others, which have `size` bytes, and returns how many they have
/// together.
fn keep(
    alloc: Global,
    number: u32,
    size: usize,
    source: &Source,
    into: &mut Gathered,
) -> Result<usize, FileStop>
    requires { size ≤ max_module }
    ensures { KeepsFile source.now size number into.old into.new result }
{
    match scan_file(alloc, size, source) {
        Ok(file) => keep_scanned(alloc, number, &file, into),
        Err(stop) => Err(stop),
    }
}

/// Keeps the text of a file, if lines of it may be shown.
fn keep_text(source: Source, into: &mut Gathered) -> Result<(), AllocError>
    ensures rest { OnOk result (into.new ≡ record into.old { texts = into.new.texts }) }
    ensures texts { OnOk result (into.new.texts.items ≡ into.old.texts.items
        ++ texts_kept (shows_lines into.old.terminals) source) }
{
    if !into.terminals.shows_lines() {
        return Ok(());
    }
    let Ok(()) = into.texts.push(source) else {
        return Err(AllocError);
    };
    Ok(())
}

/// Why a file that was read isn't kept, with the line of its fault if that is shown.
fn stop_with(alloc: Global, shows: bool, source: &Source, stop: FileStop) -> Stop
    ensures { StopsWith shows source.now stop result }
{
    match stop {
        FileStop::Refused(fault) => match snippet_of(alloc, shows, source, fault.at) {
            Ok(line) => Stop::Refused(fault, line),
            Err(_) => Stop::Failed(TreeFault::OutOfMemory),
        },
        FileStop::TooLarge => Stop::TooLarge,
        FileStop::OutOfMemory => Stop::Failed(TreeFault::OutOfMemory),
        FileStop::NotOpened | FileStop::NotRead => Stop::Failed(TreeFault::ReadFailed),
    }
}

/// Keeps the facts, the comments and the text of a file that was read after others, which have `size` bytes.
fn add_read(
    alloc: Global,
    number: u32,
    size: usize,
    source: Source,
    into: &mut Gathered,
) -> Result<usize, Stop>
    requires { size ≤ max_module }
    ensures { AddsRead source size number into.old into.new result }
{
    let shows = into.terminals.err;
    match keep(alloc, number, size, &source, into) {
        Ok(all) => match keep_text(source, into) {
            Ok(()) => Ok(all),
            Err(_) => Err(Stop::Failed(TreeFault::OutOfMemory)),
        },
        Err(stop) => Err(stop_with(alloc, shows, &source, stop)),
    }
}

/// Reads a file and keeps its facts, its comments and its text. Its tokens are dropped before it returns.
fn add_file<T: Tree + Drop>(
    alloc: Global,
    number: u32,
    size: usize,
    name: &str,
    files: &mut ModuleTree<T>,
    into: &mut Gathered,
) -> Result<usize, Stop>
    requires back { has_reader_out files.old ≡ false }
    requires small { size ≤ max_module }
    ensures adds { AddsFile (bytes_of_name (T.files files.old.tree) name.now) size number
        (T.faults files.old.tree) (T.faults files.new.tree) into.old into.new result }
    ensures leaves { Leaves T.Tree files.old files.new }
{
    match files.read(alloc, name) {
        Ok(source) => add_read(alloc, number, size, source, into),
        Err(stop) => Err(stop),
    }
}

/// Reads the files of these names in their order, up to the first that isn't kept, and keeps their facts, their
/// comments and their texts.
pub(crate) fn gather<'n, T: Tree + Drop>(
    alloc: Global,
    names: &'n [String],
    files: &mut ModuleTree<T>,
    into: &mut Gathered,
) -> Result<(), Stopped<'n>>
    requires few { length names.now ≤ max_files }
    requires none { IsEmpty into.old }
    requires back { has_reader_out files.old ≡ false }
    ensures gathers { Gathers (bytes_of_name (T.files files.old.tree))
        (map string_bytes names.entry.now) into.old.checks into.old.terminals
        (T.faults files.old.tree) (T.faults files.new.tree) into.new result }
    ensures leaves { Leaves T.Tree files.old files.new }
{
    let mut size = 0;
    for number in 0..names.len() {
        let name = names[number].as_str();
        match add_file(alloc, number as u32, size, name, files, into) {
            Ok(all) => size = all,
            Err(why) => return Err(Stopped { name, why }),
        }
    }
    Ok(())
}
