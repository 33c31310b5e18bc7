//! The offsets of places.

ghost use Rattle.std.specs.Prelude.{◌≡◌, ◌≤◌, ◌<◌, ◌+◌, ◌^◌, length};
ghost use Rattle.text_places.specs.Places.{is_there, offset_at};

use crate::place::{Place, Units, Walk, units_of};

/// Whether a place is in front of the character that a byte begins, or within it, after this walk.
fn is_there(units: Units, walk: Walk, byte: u8, place: Place) -> bool
    requires { walk.character + 2 < 2 ^ 64 }
    ensures { result ≡ is_there units walk byte place }
{
    if walk.line != place.line {
        return false;
    }
    if byte == b'\n' {
        return !walk.after_cr;
    }
    if byte == b'\r' {
        return true;
    }
    place.character < walk.character + units_of(units, byte)
}

/// The offset of a place, as an editor reads it: within a character of two units of UTF-16 it is the character's front,
/// after a line's last character the line's end, and after the last line the text's end.
pub fn offset_at(units: Units, text: &[u8], place: Place) -> usize
    requires { length text.now < 2 ^ 32 }
    ensures offset { result ≡ offset_at units text.now place }
    ensures within { result ≤ length text.now }
{
    let mut walk = Walk::start();
    for at in 0..text.len() {
        if is_there(units, walk, text[at], place) {
            return at;
        }
        walk = walk.step(units, text[at]);
    }
    text.len()
}
