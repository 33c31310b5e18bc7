//! The name at a place of a text.

ghost use Rattle.std.specs.Prelude.{◌≡◌, ◌≤◌, ◌<◌, ◌^◌, All, IfOk, find, length, map, option_map};
ghost use Rattle.hcl_source.specs.Load.{IsText};
ghost use Rattle.tf_names.specs.Names.{IsInOrder};
ghost use Rattle.tf_names.specs.Views.{occurrence_seen};
ghost use Rattle.editor_names.specs.Names.{HasNameAt, is_at, name_in};
ghost use Rattle.editor_names.specs.Views.{name_at_seen, named_seen};

use crate::owned_name::OwnedName;
use crate::query::range_of;
use hcl_scan::{LoadError, ScanError, Source, scan};
use hcl_syntax::{Accepted, accepts};
use std::alloc::{AllocError, Global};
use text_places::{Place, PlaceIndex, Range, Units, offset_at};
use tf_names::{Occurrence, occurrences_of};

/// The name at a place of a text.
#[derive(Drop)]
pub struct NameAt {
    pub name: OwnedName,
    /// In which its last part is spelled there.
    pub range: Range,
}

/// Whether an offset is in an occurrence, or at its end.
fn is_at(offset: usize, occurrence: &Occurrence<'_>) -> bool
    ensures { result ≡ is_at offset (occurrence_seen occurrence.now) }
{
    occurrence.front <= offset && offset <= occurrence.end
}

/// The first occurrence that an offset is in.
fn first_at<'r, 's>(offset: usize, occurrences: &'r [Occurrence<'s>]) -> Option<&'r Occurrence<'s>>
    ensures { option_map (λ o. o.now) result
        ≡ find (λ o. is_at offset (occurrence_seen o)) occurrences.now }
{
    occurrences
        .iter()
        .find(|occurrence| is_at(offset, occurrence))
}

/// The name at a place of a file.
fn name_in(
    alloc: Global,
    units: Units,
    place: Place,
    accepted: &Accepted<'_, '_>,
) -> Result<Option<NameAt>, AllocError>
    ensures { IfOk result (λ found. named_seen found ≡ name_in units place accepted.now) }
{
    let occurrences = occurrences_of(alloc, accepted)?;
    let text = accepted.tokens().source().text();
    let offset = offset_at(units, text.as_bytes(), place);
    let Some(occurrence) = first_at(offset, occurrences.as_slice()) else {
        return Ok(None);
    };
    let places = PlaceIndex::new(alloc, units, text)?;
    Ok(Some(NameAt {
        name: OwnedName::copy_of(alloc, occurrence.name)?,
        range: range_of(&places, *occurrence),
    }))
}

/// The name at a place of a source.
fn name_in_source(
    alloc: Global,
    units: Units,
    place: Place,
    source: &Source,
) -> Result<Option<NameAt>, AllocError>
    requires { IsText source.now }
    ensures { IfOk result (λ found. HasNameAt units place source.now (named_seen found)) }
{
    let tokens = match scan(alloc, source) {
        Ok(tokens) => tokens,
        Err(ScanError::OutOfMemory) => return Err(AllocError),
        Err(ScanError::Fault(_)) => return Ok(None),
    };
    match accepts(&tokens) {
        Ok(accepted) => name_in(alloc, units, place, &accepted),
        Err(_) => Ok(None),
    }
}

/// The name at a place of a text, with places in these units: that of the occurrence in which the place is, from its
/// first word to its end. A text that is refused has none. An error means that memory ran out.
pub fn name_at(
    alloc: Global,
    units: Units,
    place: Place,
    text: &str,
) -> Result<Option<NameAt>, AllocError>
    ensures { IfOk result (λ found. HasNameAt units place text.now (named_seen found)) }
{
    match Source::from_bytes(alloc, text.as_bytes()) {
        Ok(source) => name_in_source(alloc, units, place, &source),
        Err(LoadError::Fault(_)) => Ok(None),
        Err(_) => Err(AllocError),
    }
}
