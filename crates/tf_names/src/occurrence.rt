//! The occurrences of names in a file.

ghost use Rattle.std.specs.Prelude.{◌≡◌};
ghost use Rattle.tf_names.specs.Inner.Found.{stretch_seen};
ghost use Rattle.tf_names.specs.Names.{declaration_of};
ghost use Rattle.tf_names.specs.Views.{name_seen, occurrence_seen};

use crate::name::Name;
use crate::stretch::Stretch;

/// Whether an occurrence declares its name or refers to it.
#[derive(Clone, Copy)]
pub enum OccurrenceKind {
    Declaration,
    Reference,
}

/// An occurrence of a name in a file, by offsets.
#[derive(Clone, Copy)]
pub struct Occurrence<'s> {
    pub name: Name<'s>,
    pub kind: OccurrenceKind,
    /// Where the first word of a reference begins; at a declaration the same as `start`.
    pub front: usize,
    /// Where the last part of the name begins, without quotes.
    pub start: usize,
    /// Where it ends.
    pub end: usize,
}

/// The declaration of a name that is spelled by this stretch.
pub fn declaration_of<'s>(name: Name<'s>, spelled: Stretch<'s>) -> Occurrence<'s>
    ensures { occurrence_seen result
        ≡ declaration_of (name_seen name.entry) (stretch_seen spelled.entry) }
{
    Occurrence {
        name,
        kind: OccurrenceKind::Declaration,
        front: spelled.start,
        start: spelled.start,
        end: spelled.end,
    }
}
