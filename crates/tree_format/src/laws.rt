//! Laws about the definitions alone. No program calls these functions: their contracts are the laws.

ghost use Rattle.std.specs.Prelude.{◌≡◌, ◌≢◌, ◌||◌, ℕ, Bool, List, [], false, map, true};
ghost use Rattle.std.specs.List.{list_any};
ghost use Rattle.command_line.specs.Rows.{End};
ghost use Rattle.file_tree.specs.declared.walk.Found.{Found};
ghost use Rattle.tree_format.specs.GoodRuns.{HasFormatOrFault, AreReady, AreTold, is_narrowed};
ghost use Rattle.tree_format.specs.Runs.{IsRun, is_failed, reports_of};
ghost use Rattle.tree_format.specs.States.{State};
ghost use Rattle.tree_format.specs.declared.mode.Mode.{Mode};
ghost use Rattle.tree_format.specs.declared.outcome.Outcome.{Outcome};

use hcl_scan::laws::{list_or_fault, text_or_fault};

/// A run over found names has status 4 only if a writer failed or a look did. A failed look has the fault of a call of
/// the device, in the walk or in the look, or memory ran out; this is in the definition `LooksAtAll`.
pub fn failures_are_real()
    ensures { (shows : Bool) (mode : Mode) (found : List Found) (last : List Outcome → List ℕ)
        (before after : State) (end : End) → (run : IsRun shows mode found last before after end)
        → end.status ≡ 4
        → (end.out.failed || end.err.failed) ≡ false → list_any is_failed run.answers ≡ true }
{}

/// Unless something fails, a run is a function of the found names and of the files: two runs over the same files, both
/// with another status than 4, have the same output for each name, the same status, and the same files afterwards. If
/// neither run narrowed the rights to a file, their messages about each name are the same too.
pub fn one_run()
    ensures { (shows : Bool) (mode : Mode) (found : List Found)
        (last other_last : List Outcome → List ℕ)
        (before other_before after other_after : State) (end other_end : End)
        → AreTold before.files found → other_before.files ≡ before.files
        → (run : IsRun shows mode found last before after end)
        → (other : IsRun shows mode found other_last other_before other_after other_end)
        → end.status ≢ 4 → other_end.status ≢ 4
        → (map (λ r. r.out) (reports_of mode run.seen run.answers)
        ≡ map (λ r. r.out) (reports_of mode other.seen other.answers))
        × (end.status ≡ other_end.status) × (after.files ≡ other_after.files)
        × (list_any is_narrowed run.answers ≡ false → list_any is_narrowed other.answers ≡ false
        → reports_of mode run.seen run.answers ≡ reports_of mode other.seen other.answers) }
{}

/// Each file has a format, or a fault because of which it has none. The body shows it for bytes as a value: it loads
/// and scans them, and keeps nothing.
pub fn format_or_fault(bytes: &[u8])
    ensures { HasFormatOrFault bytes.now }
{
    match text_or_fault(bytes) {
        Some(text) => list_or_fault(text),
        None => {}
    }
}

/// Over names whose files the device tells, and for which there is memory, there is a run in which nothing fails.
pub fn a_run()
    ensures { (shows : Bool) (mode : Mode) (found : List Found) (before : State)
        → AreReady shows mode before.files found → (after : State) × (end : End)
        × (run : IsRun shows mode found (λ answers. []) before after end) × (end.status ≢ 4) }
{}
