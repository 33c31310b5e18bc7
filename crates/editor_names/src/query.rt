//! What an editor asks of a name.

ghost use Rattle.std.specs.Prelude.{◌≡◌, ◌≤◌, length};
ghost use Rattle.tf_names.specs.Views.{occurrence_seen};
ghost use Rattle.editor_names.specs.Names.{is_wanted, is_wanted_kind, range_of};
ghost use Rattle.editor_names.specs.Views.{query_seen};

use text_places::{PlaceIndex, Range, Units};
use tf_names::{Name, Occurrence, OccurrenceKind, is_same};

/// Which occurrences of a name are asked for.
#[derive(Clone, Copy)]
pub enum Wanted {
    Declarations,
    References,
    All,
}

/// A name, and which of its occurrences are asked for.
#[derive(Clone, Copy)]
pub struct Query<'s> {
    pub name: Name<'s>,
    pub wanted: Wanted,
    /// In which their places are counted.
    pub units: Units,
}

/// Whether occurrences of this kind are asked for.
fn is_wanted_kind(wanted: Wanted, kind: OccurrenceKind) -> bool
    ensures { result ≡ is_wanted_kind wanted kind }
{
    match wanted {
        Wanted::Declarations => matches!(kind, OccurrenceKind::Declaration),
        Wanted::References => matches!(kind, OccurrenceKind::Reference),
        Wanted::All => true,
    }
}

/// Whether an occurrence is asked for.
pub(crate) fn is_wanted(query: Query<'_>, occurrence: Occurrence<'_>) -> bool
    ensures { result ≡ is_wanted (query_seen query.entry) (occurrence_seen occurrence.entry) }
{
    is_same(query.name, occurrence.name) && is_wanted_kind(query.wanted, occurrence.kind)
}

/// The range in which the last part of an occurrence's name is spelled.
pub(crate) fn range_of(places: &PlaceIndex<'_>, occurrence: Occurrence<'_>) -> Range
    requires start { occurrence.start ≤ length places.now.text }
    requires end { occurrence.end ≤ length places.now.text }
    ensures { result
        ≡ range_of places.now.units places.now.text (occurrence_seen occurrence.entry) }
{
    Range {
        start: places.place(occurrence.start),
        end: places.place(occurrence.end),
    }
}
