//! A run over found files.

ghost use Rattle.std.specs.Prelude.{◌≡◌, ◌≢◌, ℕ, List, [], All, false};
ghost use Rattle.command_line.specs.Rows.{end_of_streams};
ghost use Rattle.tree_format.specs.Runs.{MayBecome, Sees, Settled, is_failed};
ghost use Rattle.tree_format.specs.States.{state_of};
ghost use Rattle.tree_format.specs.Tally.{Tallies};

use crate::mode::Mode;
use crate::outcome::Outcome;
use crate::progress::Progress;
use crate::report::{report, status_of, worse_status};
use crate::tally::Tally;
use crate::visit::visit;
use command_line::Streams;
use file_tree::tree::WritableTree;
use file_tree::walk::Found;
use hcl_scan::ByteSink;
use std::alloc::Global;

/// Looks at one name.
#[tactic(auto, using(crate::proofs::KeptFormatLemmas::kept_same, crate::proofs::KeptFormatLemmas::visit_kept, crate::proofs::KeptFormatLemmas::visit_real, crate::proofs::KeptFormatLemmas::visit_elsewhere))]
fn look_at<T: WritableTree>(
    alloc: Global,
    shows: bool,
    mode: Mode,
    found: &Found,
    tree: &mut T,
) -> Outcome
    ensures kept { (name : List ℕ)
        → MayBecome mode ((T.files tree.old).told name) ((T.files tree.new).told name) }
    ensures settled { let real = (T.files tree.old).real found.now.name.items in
        is_failed result ≡ false
        → Settled mode ((T.files tree.old).told real) ((T.files tree.new).told real) }
    ensures elsewhere { (name : List ℕ) → name ≢ (T.files tree.old).real found.now.name.items
        → (T.files tree.new).told name ≡ (T.files tree.old).told name }
    ensures real { (name : List ℕ) → (T.files tree.new).real name ≡ (T.files tree.old).real name }
    ensures sees { Sees shows mode found.now result
        (state_of T.Tree tree.old) (state_of T.Tree tree.new) }
{
    match found.fault {
        Some(fault) => Outcome::Failed(fault),
        None => visit(alloc, shows, mode, found.name.as_slice(), tree),
    }
}

/// The end of a run over files.
#[derive(Clone, Copy)]
pub struct Ran {
    /// The worst status of a file, or that of a failed report.
    pub status: u8,
    /// The tally of the files that were looked at.
    pub tally: Tally,
}

/// Looks at the files, one after another.
#[tactic(auto, using(crate::proofs::KeptFormatLemmas::kept_same, crate::proofs::KeptFormatLemmas::kept_trans))]
pub fn run_over<T: WritableTree, P: Progress, O: ByteSink, E: ByteSink>(
    alloc: Global,
    mode: Mode,
    all: &[Found],
    tree: &mut T,
    progress: &mut P,
    streams: &mut Streams<O, E>,
) -> Ran
    requires out { O.failed streams.old.out ≡ false }
    requires err { E.failed streams.old.err ≡ false }
    // However the run ends, each file is unchanged, or, if files are to be written, it has the format of its bytes.
    ensures kept { (name : List ℕ)
        → MayBecome mode ((T.files tree.old).told name) ((T.files tree.new).told name) }
    // If nothing failed, each file that was found is settled.
    ensures done { result.status ≢ 4
        → All (λ f. Settled mode ((T.files tree.old).told ((T.files tree.old).real f.name.items))
        ((T.files tree.new).told ((T.files tree.old).real f.name.items))) all.now }
    // A file to which no found name leads keeps its bytes.
    ensures untouched { (name : List ℕ)
        → All (λ f. name ≢ (T.files tree.old).real f.name.items) all.now
        → (T.files tree.new).told name ≡ (T.files tree.old).told name }
    // The looks, their reports and their answers.
    ensures ran { Tallies (P.shows progress.old) mode all.now
        (state_of T.Tree tree.old) (state_of T.Tree tree.new)
        (end_of_streams O.ByteSink E.ByteSink streams.old streams.new result.status) result.tally }
{
    let _count = all.len();
    let shows = progress.shows_lines();
    let mut status = 0;
    let mut tally = Tally::new();
    for found in all {
        let outcome = look_at(alloc, shows, mode, found, tree);
        progress.after_look(&outcome);
        tally = tally.add(&outcome);
        if report(mode, found.name.as_slice(), &outcome, streams).is_err() {
            return Ran { status: 4, tally };
        }
        progress.after_report();
        status = worse_status(status, status_of(mode, &outcome));
    }
    Ran { status, tally }
}
