//! The governor of a module.

ghost use Rattle.std.specs.Prelude.{◌≡◌, ◌++◌, ◌∷◌, [], IfErr, IfOk, OnOk, filter, map, option_map};
ghost use Rattle.file_tree.specs.Files.{Tells};
ghost use Rattle.file_tree.specs.Paths.{place};
ghost use Rattle.file_tree.specs.Unchanged.{Unchanged};
ghost use Rattle.module_config.specs.Governs.{Governs, counted_folders, file_at};
ghost use Rattle.module_config.specs.Governors.{IsGovernor, IsNoted, IsPlaced, OnlyMissing, wants};
ghost use Rattle.module_config.specs.declared.first.Stuck.TheVariants.{OutOfMemory};
ghost use Rattle.module_config.specs.Inner.Looking.{IsAskedIn, IsStuckOf, IsUnknownBy, StuckBy, counts};

use crate::first::{Stuck, first_with};
use crate::start::Start;
use crate::ups::ups;
use file_tree::fault::TreeFault;
use file_tree::path::{join, place};
use file_tree::tree::Tree;
use file_tree::walk::Found;
use module_find::Module;
use std::alloc::{AllocError, Global};

/// The governor of a module.
#[derive(Drop)]
pub enum Governor {
    /// No file does.
    Free,
    /// The file of this full path.
    File(Vec<u8>),
    /// It isn't known, because a call failed for this name.
    Unknown(Found),
}

/// A module and its governor.
#[derive(Drop)]
pub struct Placed {
    pub module: Module,
    pub governor: Governor,
}

/// A name, and why it can't be looked at, if it can't.
pub(crate) fn named_fault(
    alloc: Global,
    name: &[u8],
    fault: Option<TreeFault>,
) -> Result<Found, AllocError>
    ensures name { IfOk result (λ found. found.name.items ≡ name.now) }
    ensures fault { IfOk result (λ found. found.fault ≡ fault) }
{
    let name = Vec::from_slice(alloc, name)?;
    Ok(Found {
        name,
        fault,
        file: None,
    })
}

/// The failure of a call for this name.
fn failed_of(alloc: Global, name: &[u8], fault: TreeFault) -> Stuck
    ensures { IsStuckOf name.now fault result }
{
    match named_fault(alloc, name, Some(fault)) {
        Ok(found) => Stuck::Failed(found),
        Err(_) => Stuck::OutOfMemory,
    }
}

/// The full path of a folder.
fn path_of<T: Tree>(alloc: Global, folder: &[u8], tree: &mut T) -> Result<Vec<u8>, Stuck>
    ensures unchanged { Unchanged T.Tree tree.old tree.new }
    ensures ok { IfOk result (λ path. (T.faults tree.new ≡ T.faults tree.old)
        × Tells ((T.files tree.old).path (place folder.now)) path.items) }
    ensures err { IfErr result (StuckBy (λ asked. asked ≡ place folder.now)
        (T.faults tree.old) (T.faults tree.new)) }
{
    let name = place(folder);
    match tree.full_path(name) {
        Ok(path) => Ok(path),
        Err(fault) => Err(failed_of(alloc, name, fault)),
    }
}

/// Whether the `.tfrules` of a folder counts outside a repository.
fn counts(current: &[u8], own: &[u8], folder: &[u8]) -> bool
    ensures { result ≡ counts current.now own.now folder.now }
{
    folder == own || folder.starts_with(current)
}

/// Appends a folder whose `.tfrules` counts outside a repository.
fn add_counted<'p>(
    current: &[u8],
    own: &[u8],
    folder: &'p [u8],
    kept: &mut Vec<&'p [u8]>,
) -> Result<(), AllocError>
    ensures { OnOk result (map (λ folder. folder.now) kept.new.items
        ≡ map (λ folder. folder.now) kept.old.items
        ++ filter (counts current.now own.now) (folder.entry.now ∷ [])) }
{
    if !counts(current, own, folder) {
        return Ok(());
    }
    match kept.push(folder) {
        Ok(()) => Ok(()),
        Err(_) => Err(AllocError),
    }
}

/// The folders whose `.tfrules` counts outside a repository.
fn all_counted<'p>(
    alloc: Global,
    current: &[u8],
    own: &[u8],
    folders: &[&'p [u8]],
) -> Result<Vec<&'p [u8]>, AllocError>
    ensures { IfOk result (λ kept. map (λ folder. folder.now) kept.items
        ≡ filter (counts current.now own.now) (map (λ folder. folder.now) folders.now)) }
{
    let mut kept = Vec::new(alloc);
    for folder in folders {
        add_counted(current, own, *folder, &mut kept)?;
    }
    Ok(kept)
}

/// The folders whose `.tfrules` counts.
fn counted_folders<'p>(
    alloc: Global,
    current: &[u8],
    mut folders: Vec<&'p [u8]>,
    top: usize,
) -> Result<Vec<&'p [u8]>, AllocError>
    ensures { IfOk result (λ kept. map (λ folder. folder.now) kept.items
        ≡ counted_folders current.now (map (λ folder. folder.now) folders.entry.items) top) }
{
    if top < folders.as_slice().len() {
        folders.truncate(top + 1);
        return Ok(folders);
    }
    if folders.is_empty() {
        return Ok(folders);
    }
    all_counted(alloc, current, folders[0], folders.as_slice())
}

/// The file in the folder of this place, if there is one.
fn file_at(alloc: Global, folders: &[&[u8]], at: usize) -> Result<Option<Vec<u8>>, AllocError>
    ensures { IfOk result (λ file. option_map (λ name. name.items) file
        ≡ file_at (map (λ folder. folder.now) folders.now) at) }
{
    if at >= folders.len() {
        return Ok(None);
    }
    let name = join(alloc, folders[at], b".tfrules")?;
    Ok(Some(name))
}

/// The file in the folder of this place, if there is one, or running out of memory.
fn found_at(alloc: Global, folders: &[&[u8]], at: usize) -> Result<Option<Vec<u8>>, Stuck>
    ensures ok { IfOk result (λ file. option_map (λ name. name.items) file
        ≡ file_at (map (λ folder. folder.now) folders.now) at) }
    ensures err { IfErr result (λ stuck. stuck ≡ OutOfMemory) }
{
    match file_at(alloc, folders, at) {
        Ok(file) => Ok(file),
        Err(_) => Err(Stuck::OutOfMemory),
    }
}

/// The file that governs the modules of a folder of this full path, if one does.
fn file_over<T: Tree>(
    alloc: Global,
    current: &[u8],
    path: &[u8],
    tree: &mut T,
) -> Result<Option<Vec<u8>>, Stuck>
    ensures unchanged { Unchanged T.Tree tree.old tree.new }
    ensures ok { IfOk result (λ file. OnlyMissing (T.faults tree.old) (T.faults tree.new)
        × Governs (T.files tree.old) current.now path.now (option_map (λ name. name.items) file)) }
    ensures err { IfErr result (StuckBy (IsAskedIn path.now)
        (T.faults tree.old) (T.faults tree.new)) }
{
    let Ok(folders) = ups(alloc, path) else {
        return Err(Stuck::OutOfMemory);
    };
    let top = match first_with(alloc, folders.as_slice(), b".git", tree) {
        Ok(top) => top,
        Err(stuck) => return Err(stuck),
    };
    let Ok(folders) = counted_folders(alloc, current, folders, top) else {
        return Err(Stuck::OutOfMemory);
    };
    match first_with(alloc, folders.as_slice(), b".tfrules", tree) {
        Ok(at) => found_at(alloc, folders.as_slice(), at),
        Err(stuck) => Err(stuck),
    }
}

/// The governor after a failed call.
fn unknown_governor(stuck: Stuck) -> Result<Governor, AllocError>
    ensures { IfOk result (IsUnknownBy stuck) }
{
    match stuck {
        Stuck::OutOfMemory => Err(AllocError),
        Stuck::Failed(found) => Ok(Governor::Unknown(found)),
    }
}

/// The governor of the modules of a folder.
fn governor_over<T: Tree>(
    alloc: Global,
    current: &[u8],
    folder: &[u8],
    tree: &mut T,
) -> Result<Governor, AllocError>
    ensures unchanged { Unchanged T.Tree tree.old tree.new }
    ensures is { IfOk result (IsGovernor (T.files tree.old) current.now (place folder.now)
        (T.faults tree.old) (T.faults tree.new)) }
{
    let path = match path_of(alloc, folder, tree) {
        Ok(path) => path,
        Err(stuck) => return unknown_governor(stuck),
    };
    match file_over(alloc, current, path.as_slice(), tree) {
        Ok(Some(name)) => Ok(Governor::File(name)),
        Ok(None) => Ok(Governor::Free),
        Err(stuck) => unknown_governor(stuck),
    }
}

/// Whether a module is linted by options.
pub(crate) fn wants(one: &Module) -> bool
    ensures { result ≡ wants one.now }
{
    !one.files.is_empty() && one.is_whole
}

/// The governor of a module.
pub(crate) fn governor_of<T: Tree>(
    alloc: Global,
    start: &Start,
    one: &Module,
    tree: &mut T,
) -> Result<Governor, AllocError>
    ensures unchanged { Unchanged T.Tree tree.old tree.new }
    ensures is { IfOk result (IsPlaced (wants one.now) (T.files tree.old) start.now
        one.now.folder.items (T.faults tree.old) (T.faults tree.new)) }
{
    if !wants(one) {
        return Ok(Governor::Free);
    }
    match start {
        Start::Unneeded => Ok(Governor::Free),
        Start::Unknown(fault) => Ok(Governor::Unknown(named_fault(alloc, b"./", Some(*fault))?)),
        Start::At(current) => governor_over(alloc, current.as_slice(), one.folder.as_slice(), tree),
    }
}
