//! The first folder that has an entry.

ghost use Rattle.std.specs.Prelude.{◌≡◌, ◌++◌, IfErr, IfOk, map};
ghost use Rattle.file_tree.specs.Unchanged.{Unchanged};
ghost use Rattle.module_config.specs.Inner.Looking.{IsEntryOf, LooksFirst, LooksUp, StuckBy};

use file_tree::fault::TreeFault;
use file_tree::path::join;
use file_tree::tree::Tree;
use file_tree::walk::Found;
use std::alloc::Global;

/// Why the governor of a module isn't known.
#[derive(Drop)]
pub(crate) enum Stuck {
    OutOfMemory,
    /// A call failed for this name.
    Failed(Found),
}

/// Whether a name exists.
fn stands<T: Tree>(name: Vec<u8>, tree: &mut T) -> Result<bool, Stuck>
    ensures unchanged { Unchanged T.Tree tree.old tree.new }
    ensures ok { IfOk result (LooksUp (T.files tree.old) name.items
        (T.faults tree.old) (T.faults tree.new)) }
    ensures err { IfErr result (StuckBy (λ asked. asked ≡ name.items)
        (T.faults tree.old) (T.faults tree.new)) }
{
    match tree.entry_kind(name.as_slice()) {
        Ok(_) => Ok(true),
        Err(TreeFault::Missing) => Ok(false),
        Err(fault) => Err(Stuck::Failed(Found {
            name,
            fault: Some(fault),
            file: None,
        })),
    }
}

/// Whether a folder has this entry.
fn has<T: Tree>(alloc: Global, folder: &[u8], entry: &[u8], tree: &mut T) -> Result<bool, Stuck>
    ensures unchanged { Unchanged T.Tree tree.old tree.new }
    ensures ok { IfOk result (LooksUp (T.files tree.old) (folder.now ++ entry.now)
        (T.faults tree.old) (T.faults tree.new)) }
    ensures err { IfErr result (StuckBy (λ asked. asked ≡ folder.now ++ entry.now)
        (T.faults tree.old) (T.faults tree.new)) }
{
    match join(alloc, folder, entry) {
        Ok(name) => stands(name, tree),
        Err(_) => Err(Stuck::OutOfMemory),
    }
}

/// How many of these folders come before the first that has this entry: all of them, if none has it.
pub(crate) fn first_with<T: Tree>(
    alloc: Global,
    folders: &[&[u8]],
    entry: &[u8],
    tree: &mut T,
) -> Result<usize, Stuck>
    ensures unchanged { Unchanged T.Tree tree.old tree.new }
    ensures ok { IfOk result (LooksFirst (T.files tree.old) entry.now
        (map (λ folder. folder.now) folders.now) (T.faults tree.old) (T.faults tree.new)) }
    ensures err { IfErr result (StuckBy
        (IsEntryOf entry.now (map (λ folder. folder.now) folders.now))
        (T.faults tree.old) (T.faults tree.new)) }
{
    for at in 0..folders.len() {
        match has(alloc, folders[at], entry, tree) {
            Ok(true) => return Ok(at),
            Ok(false) => {}
            Err(stuck) => return Err(stuck),
        }
    }
    Ok(folders.len())
}
