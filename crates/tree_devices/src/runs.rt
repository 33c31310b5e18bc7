//! Looks and runs over the trees of this crate, which meet the premises of the laws of runs.

ghost use Rattle.std.specs.Prelude.{◌≡◌, ◌&&◌, [], Some, false, true};
ghost use Rattle.command_line.specs.Rows.{end_of_streams};
ghost use Rattle.tree_devices.specs.Runs.{FailsByALook, HasGoodRun, NotesOne};
ghost use Rattle.tree_devices.specs.Inner.Told.{IsReadyIn, IsToldIn};
ghost use Rattle.tree_format.specs.States.{state_of};

use crate::memory_tree::MemoryTree;
use crate::planned_tree::PlannedTree;
use command_line::Streams;
use file_tree::tree::Tree;
use file_tree::walk::Found;
use hcl_scan::ByteSink;
use std::alloc::Global;
use tree_format::laws::{a_run, failures_are_real, format_or_fault};
use tree_format::mode::Mode;
use tree_format::outcome::Outcome;
use tree_format::progress::Progress;
use tree_format::run::run_over;
use tree_format::visit::visit;

/// An observer that does nothing.
#[derive(Drop)]
struct Nobody;

impl Progress for Nobody {
    ghost shows = { λ _. false };

    fn shows_lines(&self) -> bool {
        false
    }

    fn after_look(&mut self, _outcome: &Outcome) {}

    fn after_report(&mut self) {}

    fn end(&mut self) {}
}

/// A look at a file of a tree whose calls fail by a plan.
#[tactic(auto, using(crate::proofs::RunLemmas::notes_one))]
pub fn visit_planned<'a>(
    alloc: Global,
    mode: Mode,
    name: &[u8],
    tree: &mut PlannedTree<'a>,
) -> Outcome
    requires fresh { ⟦<PlannedTree<'a> as Tree>⟧.faults tree.old ≡ Some [] }
    // If it fails, that is the one fault of the tree's calls, or memory ran out.
    ensures notes { NotesOne (⟦<PlannedTree<'a> as Tree>⟧.faults tree.new) result }
{
    visit(alloc, false, mode, name, tree)
}

/// A run over found files in a tree whose calls fail by a plan. Returns its status.
pub fn run_planned<'a, O: ByteSink, E: ByteSink>(
    alloc: Global,
    mode: Mode,
    found: &[Found],
    tree: &mut PlannedTree<'a>,
    streams: &mut Streams<O, E>,
) -> u8
    requires out { O.failed streams.old.out ≡ false }
    requires err { E.failed streams.old.err ≡ false }
    ensures real { FailsByALook mode found.now
        (state_of ⟦<PlannedTree<'a> as Tree>⟧ tree.old)
        (state_of ⟦<PlannedTree<'a> as Tree>⟧ tree.new)
        (end_of_streams O.ByteSink E.ByteSink streams.old streams.new result) }
{
    failures_are_real();
    let ran = run_over(alloc, mode, found, tree, &mut Nobody, streams);
    ran.status
}

/// Whether the tree tells the bytes of the file to which a name leads.
fn is_told<'a>(name: &[u8], tree: &MemoryTree<'a>) -> bool
    ensures { result ≡ true → IsToldIn (⟦<MemoryTree<'a> as Tree>⟧.files tree.now) name.now }
{
    match tree.bytes_at(name) {
        Some(bytes) => {
            format_or_fault(bytes);
            true
        }
        None => false,
    }
}

/// Whether nothing prevents a look at a found file.
fn is_ready<'a>(found: &Found, tree: &MemoryTree<'a>) -> bool
    ensures { result ≡ true → IsReadyIn (⟦<MemoryTree<'a> as Tree>⟧.files tree.now) found.now }
{
    match found.fault {
        Some(_) => false,
        None => is_told(found.name.as_slice(), tree),
    }
}

fn both(one: bool, other: bool) -> bool
    ensures { result ≡ (one && other) }
{
    one && other
}

/// Whether there is a run over these files of the tree in which nothing fails: the tree tells each.
pub fn has_good_run<'a>(found: &[Found], tree: &MemoryTree<'a>) -> bool
    ensures { result ≡ true
        → HasGoodRun found.now (state_of ⟦<MemoryTree<'a> as Tree>⟧ tree.now) }
{
    a_run();
    let mut are_ready = true;
    for each in found {
        are_ready = both(are_ready, is_ready(each, tree));
    }
    are_ready
}
