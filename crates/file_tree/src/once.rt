//! Files that links lead to.

ghost use Rattle.std.specs.Prelude.{◌≡◌, [], ◌∷◌, ◌++◌, Some, IfOk, OnOk, true};
ghost use Rattle.std.specs.BTreeSet.{contains};
ghost use Rattle.file_tree.specs.Ordered.{Rises};
ghost use Rattle.file_tree.specs.Inner.Once.{AreKept, MeetsBy, MeetsLink, NotesIdentity, NotesPlain, Owns};
ghost use Rattle.file_tree.specs.Once.{KeepsOnce};

use crate::kind::Identity;
use crate::walk::{Found, FoundFile};
use std::alloc::{AllocError, Global};
use std::collections::BTreeSet;

/// Notes an identity. Returns whether it is new.
fn note(met: &mut BTreeSet<Identity>, identity: Identity) -> Result<bool, AllocError>
    ensures { IfOk result (NotesIdentity (contains ⟦<Identity as Ord>⟧.cmp met.old)
        (contains ⟦<Identity as Ord>⟧.cmp met.new) identity) }
{
    match met.insert(identity) {
        Ok(is_new) => Ok(is_new),
        Err(_) => Err(AllocError),
    }
}

/// Notes the file of a name that is no link.
fn note_plain(met: &mut BTreeSet<Identity>, file: Option<FoundFile>) -> Result<(), AllocError>
    ensures { OnOk result (NotesPlain file (contains ⟦<Identity as Ord>⟧.cmp met.old)
        (contains ⟦<Identity as Ord>⟧.cmp met.new)) }
{
    let Some(file) = file else {
        return Ok(());
    };
    if file.is_link {
        return Ok(());
    }
    note(met, file.identity)?;
    Ok(())
}

/// The files of the names that are no links.
fn plain_files(alloc: Global, found: &[Found]) -> Result<BTreeSet<Identity>, AllocError>
    ensures { IfOk result (λ met. Owns found.now (contains ⟦<Identity as Ord>⟧.cmp met)) }
{
    let mut met = BTreeSet::new(alloc);
    for each in found {
        note_plain(&mut met, each.file)?;
    }
    Ok(met)
}

fn keep(kept: &mut Vec<Found>, found: Found) -> Result<(), AllocError>
    ensures { OnOk result (kept.new.items ≡ kept.old.items ++ found ∷ []) }
{
    match kept.push(found) {
        Ok(()) => Ok(()),
        Err(_) => Err(AllocError),
    }
}

/// Keeps a link, unless its file was met.
fn keep_link(
    met: &mut BTreeSet<Identity>,
    kept: &mut Vec<Found>,
    identity: Identity,
    found: Found,
) -> Result<(), AllocError>
    ensures { OnOk result (MeetsLink identity found (contains ⟦<Identity as Ord>⟧.cmp met.old)
        (contains ⟦<Identity as Ord>⟧.cmp met.new) kept.old.items kept.new.items) }
{
    if !note(met, identity)? {
        return Ok(());
    }
    keep(kept, found)
}

/// Keeps a found name, unless it is a link to a file that was met.
fn keep_once(
    met: &mut BTreeSet<Identity>,
    kept: &mut Vec<Found>,
    found: Found,
) -> Result<(), AllocError>
    ensures { OnOk result (MeetsBy found.file found (contains ⟦<Identity as Ord>⟧.cmp met.old)
        (contains ⟦<Identity as Ord>⟧.cmp met.new) kept.old.items kept.new.items) }
{
    match found.file {
        Some(file) if file.is_link => keep_link(met, kept, file.identity, found),
        _ => keep(kept, found),
    }
}

/// Keeps of the names, in order, those that aren't links to files that were met or that come under an earlier link.
fn keep_all(
    alloc: Global,
    mut met: BTreeSet<Identity>,
    found: Vec<Found>,
) -> Result<Vec<Found>, AllocError>
    ensures { IfOk result (λ kept. Rises found.items
        → AreKept (contains ⟦<Identity as Ord>⟧.cmp met) found.items kept.items) }
{
    let mut kept = Vec::new(alloc);
    for each in found {
        keep_once(&mut met, &mut kept, each)?;
    }
    Ok(kept)
}

/// The found names in order, without the links to files that were found under another name as well: under one that is
/// no link, or under an earlier link.
pub fn each_file_once(alloc: Global, found: Vec<Found>) -> Result<Vec<Found>, AllocError>
    ensures { IfOk result (λ kept. Rises found.items → KeepsOnce found.items kept.items) }
{
    let met = plain_files(alloc, found.as_slice())?;
    keep_all(alloc, met, found)
}
