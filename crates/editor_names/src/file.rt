//! Where one file spells a name.

ghost use Rattle.std.specs.Prelude.{◌≡◌, ◌++◌, ◌∷◌, [], All, IfOk, OnOk, filter, length, map};
ghost use Rattle.std.specs.List.{list_any};
ghost use Rattle.file_tree.specs.Unchanged.{Unchanged};
ghost use Rattle.hcl_source.specs.Load.{IsText};
ghost use Rattle.tf_names.specs.Names.{IsInOrder};
ghost use Rattle.tf_names.specs.Views.{occurrence_seen};
ghost use Rattle.editor_names.specs.Modules.{IsFileRanges, IsTextRanges, file_declares, is_read};
ghost use Rattle.editor_names.specs.Names.{declarations_of, declares, is_wanted, range_of, ranges_in};
ghost use Rattle.editor_names.specs.Views.{query_seen};

use crate::query::{Query, Wanted, is_wanted, range_of};
use file_tree::fault::TreeFault;
use file_tree::tree::Tree;
use hcl_scan::{ByteSource, LoadError, ScanError, Source, scan};
use hcl_syntax::{Accepted, accepts};
use std::alloc::{AllocError, Global};
use text_places::{PlaceIndex, Range};
use tf_names::{Occurrence, occurrences_of};

/// How a file of the language spells a name.
#[derive(Drop)]
pub struct Spelling {
    /// In which the occurrences stand that are asked for.
    pub ranges: Vec<Range>,
    /// Whether the file declares the name.
    pub declares: bool,
}

/// Where a file of a module spells a name.
#[derive(Drop)]
pub enum FileRanges {
    /// It is a file of the language.
    Spelled(Spelling),
    /// It is no file of the language.
    Refused,
    /// It can't be opened or read.
    Unread,
}

/// Whether it is a file of the language.
pub(crate) fn is_read(file: &FileRanges) -> bool
    ensures { result ≡ is_read file.now }
{
    matches!(file, FileRanges::Spelled(_))
}

/// Whether it is a file of the language that declares the name.
pub(crate) fn file_declares(file: &FileRanges) -> bool
    ensures { result ≡ file_declares file.now }
{
    match file {
        FileRanges::Spelled(spelling) => spelling.declares,
        FileRanges::Refused | FileRanges::Unread => false,
    }
}

/// Adds the range of an occurrence, if it is asked for.
fn add_range(
    query: Query<'_>,
    places: &PlaceIndex<'_>,
    occurrence: Occurrence<'_>,
    ranges: &mut Vec<Range>,
) -> Result<(), AllocError>
    requires { IsInOrder (length places.now.text) (occurrence_seen occurrence) }
    ensures { OnOk result (ranges.new.items ≡ ranges.old.items
        ++ map (range_of places.now.units places.now.text)
        (filter (is_wanted (query_seen query.entry)) (occurrence_seen occurrence.entry ∷ []))) }
{
    if !is_wanted(query, occurrence) {
        return Ok(());
    }
    match ranges.push(range_of(places, occurrence)) {
        Ok(()) => Ok(()),
        Err(_) => Err(AllocError),
    }
}

/// The ranges of the occurrences that are asked for.
fn wanted_ranges(
    alloc: Global,
    query: Query<'_>,
    places: &PlaceIndex<'_>,
    occurrences: &[Occurrence<'_>],
) -> Result<Vec<Range>, AllocError>
    requires { All (λ o. IsInOrder (length places.now.text) (occurrence_seen o)) occurrences.now }
    ensures { IfOk result (λ ranges. ranges.items ≡ map (range_of places.now.units places.now.text)
        (filter (is_wanted (query_seen query.entry)) (map occurrence_seen occurrences.now))) }
{
    let mut ranges = Vec::new(alloc);
    for occurrence in occurrences {
        add_range(query, places, *occurrence, &mut ranges)?;
    }
    Ok(ranges)
}

/// Whether one of the occurrences declares the name.
fn is_declared_among(query: Query<'_>, occurrences: &[Occurrence<'_>]) -> bool
    ensures { result ≡ list_any (λ o. is_wanted (declarations_of (query_seen query.entry))
        (occurrence_seen o)) occurrences.now }
{
    let declarations = Query {
        name: query.name,
        wanted: Wanted::Declarations,
        units: query.units,
    };
    occurrences
        .iter()
        .any(|occurrence| is_wanted(declarations, *occurrence))
}

/// How an accepted file spells a name.
fn spelling_in(
    alloc: Global,
    query: Query<'_>,
    accepted: &Accepted<'_, '_>,
) -> Result<Spelling, AllocError>
    ensures ranges { IfOk result (λ spelling. spelling.ranges.items
        ≡ ranges_in (query_seen query.entry) accepted.now) }
    ensures declares { IfOk result (λ spelling. spelling.declares
        ≡ declares (query_seen query.entry) accepted.now) }
{
    let occurrences = occurrences_of(alloc, accepted)?;
    let text = accepted.tokens().source().text();
    let places = PlaceIndex::new(alloc, query.units, text)?;
    Ok(Spelling {
        ranges: wanted_ranges(alloc, query, &places, occurrences.as_slice())?,
        declares: is_declared_among(query, occurrences.as_slice()),
    })
}

/// Where a source spells a name.
pub(crate) fn source_ranges(
    alloc: Global,
    query: Query<'_>,
    source: &Source,
) -> Result<FileRanges, AllocError>
    requires { IsText source.now }
    ensures { IfOk result (IsTextRanges (query_seen query.entry) source.now) }
{
    let tokens = match scan(alloc, source) {
        Ok(tokens) => tokens,
        Err(ScanError::OutOfMemory) => return Err(AllocError),
        Err(ScanError::Fault(_)) => return Ok(FileRanges::Refused),
    };
    match accepts(&tokens) {
        Ok(accepted) => Ok(FileRanges::Spelled(spelling_in(alloc, query, &accepted)?)),
        Err(_) => Ok(FileRanges::Refused),
    }
}

/// Where a text spells a name.
pub(crate) fn text_ranges(
    alloc: Global,
    query: Query<'_>,
    text: &str,
) -> Result<FileRanges, AllocError>
    ensures { IfOk result (IsTextRanges (query_seen query.entry) text.now) }
{
    match Source::from_bytes(alloc, text.as_bytes()) {
        Ok(source) => source_ranges(alloc, query, &source),
        Err(LoadError::Fault(_)) => Ok(FileRanges::Refused),
        Err(_) => Err(AllocError),
    }
}

/// Where the file of this name spells a name.
pub(crate) fn file_ranges<T: Tree>(
    alloc: Global,
    query: Query<'_>,
    name: &str,
    tree: &mut T,
) -> Result<FileRanges, AllocError>
    ensures unchanged { Unchanged T.Tree tree.old tree.new }
    ensures is { IfOk result (IsFileRanges (query_seen query.entry)
        ((T.files tree.old).told ((T.files tree.old).real name.now))) }
{
    let mut reader = match tree.reader(name.as_bytes()) {
        Ok(reader) => reader,
        Err(TreeFault::OutOfMemory) => return Err(AllocError),
        Err(_) => return Ok(FileRanges::Unread),
    };
    let loaded = Source::read_from(alloc, &mut reader);
    tree.give_back(reader);
    match loaded {
        Ok(source) => source_ranges(alloc, query, &source),
        Err(LoadError::Fault(_)) => Ok(FileRanges::Refused),
        Err(LoadError::ReadFailed) => Ok(FileRanges::Unread),
        Err(LoadError::OutOfMemory) => Err(AllocError),
    }
}
