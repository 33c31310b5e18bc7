//! Laws of the definitions alone. No program calls these functions: their contracts are the laws.

ghost use Rattle.std.specs.Prelude.{◌≡◌, ◌≤◌, ℕ, List, [], drop, length, map, true};
ghost use Rattle.std.specs.Str.{IsUtf8};
ghost use Rattle.text_places.specs.Places.{begins_character, offset_at, place_at, walk_to};
ghost use Rattle.text_places.specs.Edits.{EditsAscend, edited_text, line_edits};
ghost use Rattle.text_places.specs.PlacedEdits.{made_text, offset_edit, placed_edits};
ghost use Rattle.text_places.specs.declared.place.Units.{Units};

/// An editor reads the place of an offset as that offset, if a character begins there.
pub fn places_stand_for_their_offsets()
    ensures { (units : Units) (text : List ℕ) (offset : ℕ) → offset ≤ length text
        → begins_character units (walk_to units text offset) (drop offset text) ≡ true
        → offset_at units text (place_at units text offset) ≡ offset }
{}

/// The edits make the old text the new one.
pub fn edits_make_the_new_text()
    ensures { (old new : List ℕ) → edited_text (line_edits old new) old ≡ new }
{}

/// They are in order of the old text, and share none of its bytes.
pub fn edits_ascend()
    ensures { (old new : List ℕ) → EditsAscend 0 (length old) (line_edits old new) }
{}

/// A text is made itself by no edits.
pub fn same_text_has_no_edits()
    ensures { (text : List ℕ) → line_edits text text ≡ [] }
{}

/// An editor reads the places of the edits as their offsets.
pub fn editors_read_the_edits()
    ensures { (units : Units) (old new : List ℕ) → IsUtf8 old
        → map (offset_edit units old) (placed_edits units old (line_edits old new))
        ≡ line_edits old new }
{}

/// AN EDITOR MAKES THE NEW TEXT: reading the places of the edits as the protocol counts them, it gets the new text.
pub fn editors_make_the_new_text()
    ensures { (units : Units) (old new : List ℕ) → IsUtf8 old
        → made_text units old (placed_edits units old (line_edits old new)) ≡ new }
{}
