//! The places of edits.

ghost use Rattle.std.specs.Prelude.{◌≡◌, ◌≤◌, ◌<◌, ◌^◌, length};
ghost use Rattle.text_places.specs.Places.{place_at, walk_to};
ghost use Rattle.text_places.specs.Edits.{edit_of};
ghost use Rattle.text_places.specs.PlacedEdits.{in_range, placed_edit};

use crate::edits::TextEdit;
use crate::place::{Place, Units, Walk};

/// The places at which an edit begins and ends.
#[derive(Clone, Copy, PartialEq, Eq)]
pub struct Range {
    pub start: Place,
    pub end: Place,
}

/// The range of an edit, by a walk through the old text that has not passed it, and the walk up to the edit's end.
pub fn place_edit(walk: Walk, units: Units, old: &[u8], edit: &TextEdit<'_>) -> (Walk, Range)
    requires walk { walk ≡ walk_to units old.now walk.offset }
    requires order { walk.offset ≤ edit.now.from }
    requires ends { edit.now.from ≤ edit.now.to }
    requires within { edit.now.to ≤ length old.now }
    requires small { length old.now < 2 ^ 32 }
    ensures walk { result.0 ≡ walk_to units old.now edit.now.to }
    ensures offset { result.0.offset ≡ edit.now.to }
    ensures range { in_range result.1 edit.now.text.now
        ≡ placed_edit units old.now (edit_of edit.now) }
{
    let at_start = walk.go_on(units, old, edit.from);
    let at_end = at_start.go_on(units, old, edit.to);
    let range = Range {
        start: at_start.place(),
        end: at_end.place(),
    };
    (at_end, range)
}
