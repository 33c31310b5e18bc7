//! A look at one file.

ghost use Rattle.std.specs.Prelude.{◌≡◌, ◌≢◌, ◌≤◌, ◌++◌, false, Some, length, IfOk, IfErr};
ghost use Rattle.hcl_layout.specs.Print.{print};
ghost use Rattle.hcl_source.specs.Devices.{Tells};
ghost use Rattle.hcl_source.specs.Load.{max_source, IsText};
ghost use Rattle.tree_format.specs.Looks.{Asks, Looks, Notes, Visits, shown_diff};
ghost use Rattle.tree_format.specs.Refusals.{is_about_line as is_about_line_of};
ghost use Rattle.file_tree.specs.Quotes.{shown_head};
ghost use Rattle.file_tree.specs.Unchanged.{Unchanged};
ghost use Rattle.tree_format.specs.declared.mode.Mode.TheVariants.{Write};
ghost use Rattle.file_tree.specs.declared.fault.TreeFault.TheVariants.{OutOfMemory};
ghost use Rattle.tree_format.specs.Inner.Steps.{Completes, IsShown, LoadNotes, LoadsFile, Makes, MakesAsking, outcome_by, outcome_of_scan};

use crate::mode::Mode;
use crate::outcome::Outcome;
use file_tree::fault::TreeFault;
use file_tree::path::join;
use file_tree::quote::shown_head;
use file_tree::tree::{Replaced, Tree, WritableTree, Writing};
use hcl_layout::{fits, is_formatted};
use hcl_scan::{
    ByteSink, Fault, FaultKind, LoadError, MAX_SOURCE, Position, ScanError, Source, scan,
};
use hcl_syntax::{Accepted, accepts};
use line_diff::diff::diff;
use source_snippet::snippet_of;
use std::alloc::{AllocError, Global};
use text_format::print_of;

/// Replaces a file by its print.
#[tactic(auto, using(crate::proofs::KeptFormatLemmas::notes_call, crate::proofs::KeptFormatLemmas::notes_fault, crate::proofs::KeptFormatLemmas::notes_memory))]
fn write_print<T: WritableTree>(
    alloc: Global,
    name: &[u8],
    accepted: &Accepted<'_, '_>,
    writing: Writing,
    tree: &mut T,
) -> Outcome
    requires changed { print accepted.now.tokens ≢ accepted.now.text }
    requires fits { length (print accepted.now.tokens) ≤ max_source }
    requires old { Tells
        ((T.files tree.old).told ((T.files tree.old).real name.now)) accepted.now.text }
    ensures makes { Makes (Write writing) (T.files tree.old) (T.files tree.new) name.now
        ((T.files tree.old).real name.now) accepted.now result }
    ensures notes { Notes (T.faults tree.old) (T.faults tree.new) result }
    ensures asks { MakesAsking (Write writing) name.now accepted.now
        (T.asked tree.old) (T.asked tree.new) result }
{
    let printed = match print_of(alloc, accepted) {
        Ok(printed) => printed,
        Err(_) => return Outcome::Failed(TreeFault::OutOfMemory),
    };
    let old = accepted.tokens().source().text().as_bytes();
    match tree.replace(name, old, printed.bytes(), writing) {
        Ok(how) => Outcome::Changed(how),
        Err(fault) => Outcome::Failed(fault),
    }
}

/// A name below a folder, as the head of a diff shows it.
fn head_of(alloc: Global, folder: &[u8], name: &[u8]) -> Result<Vec<u8>, AllocError>
    ensures { IfOk result (λ head. head.items ≡ shown_head (folder.now ++ name.now)) }
{
    let path = join(alloc, folder, name)?;
    shown_head(alloc, path.as_slice())
}

/// The changes to a file of this name, as they are shown.
fn shown_diff(alloc: Global, name: &[u8], old: &[u8], new: &[u8]) -> Result<Vec<u8>, AllocError>
    ensures { IfOk result (λ text. text.items ≡ shown_diff name.now old.now new.now) }
{
    let old_name = head_of(alloc, b"old/", name)?;
    let new_name = head_of(alloc, b"new/", name)?;
    diff(alloc, old_name.as_slice(), new_name.as_slice(), old, new)
}

/// Shows the changes that the print makes.
fn show_print(alloc: Global, name: &[u8], accepted: &Accepted<'_, '_>) -> Outcome
    ensures { IsShown name.now accepted.now result }
{
    let printed = match print_of(alloc, accepted) {
        Ok(printed) => printed,
        Err(_) => return Outcome::Failed(TreeFault::OutOfMemory),
    };
    let old = accepted.tokens().source().text().as_bytes();
    match shown_diff(alloc, name, old, printed.bytes()) {
        Ok(text) => Outcome::Differs(text),
        Err(_) => Outcome::Failed(TreeFault::OutOfMemory),
    }
}

/// Treats an accepted file by the mode.
#[tactic(auto, using(crate::proofs::KeptFormatLemmas::notes_call, crate::proofs::KeptFormatLemmas::notes_shown))]
fn change<T: WritableTree>(
    alloc: Global,
    mode: Mode,
    name: &[u8],
    accepted: &Accepted<'_, '_>,
    tree: &mut T,
) -> Outcome
    requires old { Tells
        ((T.files tree.old).told ((T.files tree.old).real name.now)) accepted.now.text }
    ensures makes { Makes mode (T.files tree.old) (T.files tree.new) name.now
        ((T.files tree.old).real name.now) accepted.now result }
    ensures notes { Notes (T.faults tree.old) (T.faults tree.new) result }
    ensures asks { MakesAsking mode name.now accepted.now
        (T.asked tree.old) (T.asked tree.new) result }
{
    if is_formatted(accepted) {
        return Outcome::Formatted;
    }
    if !fits(accepted, MAX_SOURCE as u64) {
        let fault = Fault {
            kind: FaultKind::ResultTooLarge,
            at: Position { line: 1, column: 1 },
        };
        return Outcome::Refused(fault, None);
    }
    match mode {
        Mode::Check | Mode::List(_) => Outcome::Changed(Replaced::Kept),
        Mode::Diff => show_print(alloc, name, accepted),
        Mode::Write(writing) => write_print(alloc, name, accepted, writing, tree),
    }
}

/// Treats a source by the mode.
#[tactic(auto, using(crate::proofs::KeptFormatLemmas::notes_call, crate::proofs::KeptFormatLemmas::notes_memory))]
fn change_source<T: WritableTree>(
    alloc: Global,
    mode: Mode,
    name: &[u8],
    source: &Source,
    tree: &mut T,
) -> Outcome
    requires text { IsText source.now }
    requires old { Tells ((T.files tree.old).told ((T.files tree.old).real name.now)) source.now }
    ensures looks { Looks false mode (T.files tree.old) (T.files tree.new) name.now
        ((T.files tree.old).real name.now) source.now result }
    ensures notes { Notes (T.faults tree.old) (T.faults tree.new) result }
    ensures asks { Asks mode name.now ((T.files tree.old).told ((T.files tree.old).real name.now))
        (T.asked tree.old) (T.asked tree.new) result }
{
    match scan(alloc, source) {
        Ok(tokens) => match accepts(&tokens) {
            Ok(accepted) => change(alloc, mode, name, &accepted, tree),
            Err(fault) => Outcome::Refused(fault, None),
        },
        Err(error) => outcome_of_scan(error),
    }
}

/// Whether a fault of this kind is about a line.
fn is_about_line(kind: FaultKind) -> bool
    ensures { result ≡ is_about_line_of kind }
{
    !matches!(
        kind,
        FaultKind::TooLarge
            | FaultKind::InvalidUtf8
            | FaultKind::ByteOrderMark
            | FaultKind::ResultTooLarge
    )
}

/// The outcome, with the line of its fault if that is to be shown.
fn with_line(alloc: Global, shows: bool, source: &Source, outcome: Outcome) -> Outcome
    ensures { Completes shows source.now outcome result }
{
    match outcome {
        Outcome::Refused(fault, _) => {
            let shows = shows && is_about_line(fault.kind);
            match snippet_of(alloc, shows, source, fault.at) {
                Ok(snippet) => Outcome::Refused(fault, Some(snippet)),
                Err(_) => Outcome::Failed(TreeFault::OutOfMemory),
            }
        }
        Outcome::Formatted => Outcome::Formatted,
        Outcome::Changed(how) => Outcome::Changed(how),
        Outcome::Differs(text) => Outcome::Differs(text),
        Outcome::Failed(fault) => Outcome::Failed(fault),
    }
}

/// A loaded text, or the outcome of a look whose load failed.
fn outcome_of(loaded: Result<Source, LoadError>) -> Result<Source, Outcome>
    ensures { result ≡ outcome_by loaded }
{
    match loaded {
        Ok(source) => Ok(source),
        Err(LoadError::Fault(fault)) => Err(Outcome::Refused(fault, None)),
        Err(LoadError::ReadFailed) => Err(Outcome::Failed(TreeFault::ReadFailed)),
        Err(LoadError::OutOfMemory) => Err(Outcome::Failed(TreeFault::OutOfMemory)),
    }
}

/// The outcome of a look whose scan failed.
fn outcome_of_scan(error: ScanError) -> Outcome
    ensures { result ≡ outcome_of_scan error }
{
    match error {
        ScanError::Fault(fault) => Outcome::Refused(fault, None),
        ScanError::OutOfMemory => Outcome::Failed(TreeFault::OutOfMemory),
    }
}

/// The text of a file.
#[tactic(auto, using(crate::proofs::KeptFormatLemmas::notes_fault))]
fn load<T: Tree>(alloc: Global, name: &[u8], tree: &mut T) -> Result<Source, Outcome>
    ensures loads { LoadsFile ((T.files tree.old).told ((T.files tree.old).real name.now)) result }
    ensures unchanged { Unchanged T.Tree tree.old tree.new }
    ensures notes { LoadNotes (T.faults tree.old) (T.faults tree.new) result }
{
    let mut reader = match tree.reader(name) {
        Ok(reader) => reader,
        Err(fault) => return Err(Outcome::Failed(fault)),
    };
    let loaded = Source::read_from(alloc, &mut reader);
    tree.give_back(reader);
    outcome_of(loaded)
}

/// Looks at one file and treats it by the mode.
#[tactic(auto, using(crate::proofs::KeptFormatLemmas::visits_loaded, crate::proofs::KeptFormatLemmas::visits_unloaded, crate::proofs::KeptFormatLemmas::asks_loaded, crate::proofs::KeptFormatLemmas::asks_unloaded))]
pub fn visit<T: WritableTree>(
    alloc: Global,
    shows: bool,
    mode: Mode,
    name: &[u8],
    tree: &mut T,
) -> Outcome
    ensures visits { Visits shows mode (T.files tree.old) (T.files tree.new) name.now
        ((T.files tree.old).real name.now) result }
    ensures notes { Notes (T.faults tree.old) (T.faults tree.new) result }
    ensures asks { Asks mode name.now ((T.files tree.old).told ((T.files tree.old).real name.now))
        (T.asked tree.old) (T.asked tree.new) result }
{
    match load(alloc, name, tree) {
        Ok(source) => {
            let outcome = change_source(alloc, mode, name, &source, tree);
            with_line(alloc, shows, &source, outcome)
        }
        Err(outcome) => outcome,
    }
}
