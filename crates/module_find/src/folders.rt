//! Which folders are modules.

ghost use Rattle.std.specs.Prelude.{◌≡◌, ◌++◌, ◌∷◌, [], IfOk, IsTrue, List, OnOk, flat_map, map};
ghost use Rattle.file_tree.specs.Ordered.{HasName};
ghost use Rattle.file_tree.specs.Seen.{all_found};
ghost use Rattle.file_tree.specs.declared.walk.Found.{Found};
ghost use Rattle.module_find.specs.Inner.Adding.{AddsFolder};
ghost use Rattle.module_find.specs.Modules.{AreFolders, AreFoldersOf, is_gone_by, lost_of, stands, told_as};

use crate::lost::{is_lost, is_missing};
use crate::names::{folder_of, is_module_file, is_of_module};
use file_tree::path::join;
use file_tree::walk::{Found, ListedFolder, in_order};
use std::alloc::{AllocError, Global};

/// Whether a name stands for its folder: a found name, and one that matters to a module and can't be looked at.
fn stands(found: &Found) -> bool
    ensures { result ≡ stands found.now }
{
    match found.fault {
        None => true,
        Some(_) => is_of_module(found.name.as_slice()),
    }
}

fn keep(found: Found, kept: &mut Vec<Found>) -> Result<(), AllocError>
    ensures { OnOk result (kept.new.items ≡ kept.old.items ++ found ∷ []) }
{
    match kept.push(found) {
        Ok(()) => Ok(()),
        Err(_) => Err(AllocError),
    }
}

/// Whether the last of these has this name.
fn is_last(folders: &[Found], name: &[u8]) -> bool
    ensures { IsTrue result → HasName folders.now name.now }
{
    match folders.last() {
        Some(last) => last.name.as_slice() == name,
        None => false,
    }
}

/// Appends the folder of the found name, if the name stands for it, unless it was added last.
fn add_folder(alloc: Global, found: &Found, folders: &mut Vec<Found>) -> Result<(), AllocError>
    ensures { OnOk result (AddsFolder (stands found.now) found.now
        folders.old.items folders.new.items) }
{
    if !stands(found) {
        return Ok(());
    }
    let folder = folder_of(found.name.as_slice());
    if is_last(folders.as_slice(), folder) {
        return Ok(());
    }
    let name = join(alloc, folder, b"")?;
    let folder = Found {
        name,
        fault: None,
        file: None,
    };
    keep(folder, folders)
}

/// Appends the folders that names stand for to those of others.
fn add_folders(alloc: Global, found: &[Found], folders: &mut Vec<Found>) -> Result<(), AllocError>
    ensures { OnOk result ((before : List Found) → AreFoldersOf before folders.old.items
        → AreFoldersOf (before ++ found.now) folders.new.items) }
{
    for each in found {
        add_folder(alloc, each, folders)?;
    }
    Ok(())
}

/// The folders that names stand for, some of them more than once.
fn all_folders(
    alloc: Global,
    named: &[Found],
    looked: &[ListedFolder],
) -> Result<Vec<Found>, AllocError>
    ensures { IfOk result (λ folders. AreFoldersOf (all_found named.now looked.now)
        folders.items) }
{
    let mut folders = Vec::new(alloc);
    add_folders(alloc, named, &mut folders)?;
    for one in looked {
        add_folders(alloc, one.found.as_slice(), &mut folders)?;
    }
    Ok(folders)
}

/// The folders that the found names stand for, in order, each once.
pub fn folders_of(
    alloc: Global,
    named: &[Found],
    looked: &[ListedFolder],
) -> Result<Vec<Found>, AllocError>
    ensures { IfOk result (λ folders. AreFolders (all_found named.now looked.now)
        folders.items) }
{
    let folders = all_folders(alloc, named, looked)?;
    Ok(in_order(folders))
}

/// Whether it is the name of a deleted file of a module.
fn is_gone(found: &Found) -> bool
    ensures { result ≡ is_gone_by found.now.fault found.now.name.items }
{
    match found.fault {
        None => false,
        Some(fault) => is_missing(fault) && is_module_file(found.name.as_slice()),
    }
}

/// This name with its fault.
fn copy_of(alloc: Global, found: &Found) -> Result<Found, AllocError>
    ensures { IfOk result (λ copy. told_as copy ≡ told_as found.now) }
{
    let name = join(alloc, found.name.as_slice(), b"")?;
    Ok(Found {
        name,
        fault: found.fault,
        file: found.file,
    })
}

/// Appends the report for a name.
fn add_fault(alloc: Global, found: &Found, faults: &mut Vec<Found>) -> Result<(), AllocError>
    ensures { OnOk result (map told_as faults.new.items
        ≡ map told_as faults.old.items ++ map told_as (lost_of found.now)) }
{
    if !is_lost(found) || is_gone(found) {
        return Ok(());
    }
    let copy = copy_of(alloc, found)?;
    keep(copy, faults)
}

/// Appends the reports for these names.
fn add_faults(alloc: Global, found: &[Found], faults: &mut Vec<Found>) -> Result<(), AllocError>
    ensures { OnOk result (map told_as faults.new.items
        ≡ map told_as faults.old.items ++ map told_as (flat_map lost_of found.now)) }
{
    for each in found {
        add_fault(alloc, each, faults)?;
    }
    Ok(())
}

/// The found names that can't be looked at and are reported: a deleted file isn't, since its folder stands for it.
pub fn faults_of(
    alloc: Global,
    named: &[Found],
    looked: &[ListedFolder],
) -> Result<Vec<Found>, AllocError>
    ensures { IfOk result (λ faults. map told_as faults.items
        ≡ map told_as (flat_map lost_of (all_found named.now looked.now))) }
{
    let mut faults = Vec::new(alloc);
    add_faults(alloc, named, &mut faults)?;
    for one in looked {
        add_faults(alloc, one.found.as_slice(), &mut faults)?;
    }
    Ok(faults)
}
