//! Laws of the definitions alone. No program calls this function: its contract is the law.

ghost use Rattle.std.specs.Prelude.{◌≡◌, ◌≤◌, ℕ, List, length};
ghost use Rattle.std.specs.Str.{IsUtf8};
ghost use Rattle.hcl_source.specs.Places.{place};
ghost use Rattle.module_check.specs.Marks.{BeginsCluster, marked_from};

/// What is marked for the place of an offset begins at that offset, if a cluster of its line begins there.
pub fn marks_begin_at_their_offsets()
    ensures { (text : List ℕ) (at : ℕ) → IsUtf8 text → at ≤ length text → BeginsCluster text at
        → marked_from text (place text at) ≡ at }
{}
