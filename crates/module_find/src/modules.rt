//! The modules of folders.

ghost use Rattle.std.specs.Prelude.{◌≡◌, ◌&&◌, ◌++◌, ◌∷◌, [], None, Some, IfOk, IfSome, OnOk, map, string_bytes, true};
ghost use Rattle.std.specs.List.{Contains};
ghost use Rattle.file_tree.specs.Unchanged.{Unchanged};
ghost use Rattle.file_tree.specs.declared.walk.ListedFolder.{ListedFolder};
ghost use Rattle.module_find.specs.Inner.Adding.{AddsModule, TakesFound, told_by};
ghost use Rattle.module_find.specs.Modules.{AreAlone, AreModules, IsModule, IsModuleOf, fault_by, is_module_file, told_as};

use crate::lost::is_lost;
use crate::module::Module;
use crate::names::{is_module_file, is_of_module};
use file_tree::fault::TreeFault;
use file_tree::path::join;
use file_tree::tree::Tree;
use file_tree::walk::{Found, ListedFolder, find_in};
use std::alloc::{AllocError, Global};

fn both(one: bool, other: bool) -> bool
    ensures { result ≡ (one && other) }
{
    one && other
}

/// The module of a folder, and the reports for the folder.
#[derive(Drop)]
struct Sorted {
    module: Module,
    faults: Vec<Found>,
}

impl Sorted {
    /// Reports a name that can't be linted, if that is reported.
    fn tell(&mut self, found: Found) -> Result<(), AllocError>
        ensures faults { OnOk result (map told_as self.new.faults.items
            ≡ map told_as self.old.faults.items ++ told_by (told_as found)) }
        ensures module { self.new.module ≡ self.old.module }
    {
        if !is_lost(&found) {
            return Ok(());
        }
        let Ok(()) = self.faults.push(found) else {
            return Err(AllocError);
        };
        Ok(())
    }

    /// Appends a file.
    fn add_file(&mut self, name: String) -> Result<(), AllocError>
        ensures files { OnOk result (map string_bytes self.new.module.files.items
            ≡ map string_bytes self.old.module.files.items ++ string_bytes name ∷ []) }
        ensures whole { self.new.module.is_whole ≡ self.old.module.is_whole }
        ensures folder { self.new.module.folder ≡ self.old.module.folder }
        ensures told { self.new.faults ≡ self.old.faults }
    {
        match self.module.files.push(name) {
            Ok(()) => Ok(()),
            Err(_) => Err(AllocError),
        }
    }

    /// Takes an entry of a folder that can't be linted, for this reason.
    fn take_fault(&mut self, found: Found, fault: TreeFault) -> Result<(), AllocError>
        requires why { fault_by found.fault found.file found.name.items ≡ Some fault }
        ensures { OnOk result (TakesFound found self.old self.new) }
    {
        let is_sound = !is_of_module(found.name.as_slice());
        self.module.is_whole = both(self.module.is_whole, is_sound);
        self.tell(Found {
            name: found.name,
            fault: Some(fault),
            file: found.file,
        })
    }

    /// Takes an entry of a folder with the name of a file of a module.
    fn take_file(&mut self, found: Found) -> Result<(), AllocError>
        requires good { found.fault ≡ None }
        requires named { is_module_file found.name.items ≡ true }
        ensures { OnOk result (TakesFound found self.old self.new) }
    {
        if found.file.is_none() {
            return self.take_fault(found, TreeFault::NotAFile);
        }
        let Found { name, fault, file } = found;
        match String::from_utf8(name) {
            Ok(text) => self.add_file(text),
            Err(error) => {
                let name = error.into_bytes();
                self.take_fault(Found { name, fault, file }, TreeFault::NotUtf8)
            }
        }
    }

    /// Takes an entry of a folder.
    fn take(&mut self, found: Found) -> Result<(), AllocError>
        ensures { OnOk result (TakesFound found self.old self.new) }
    {
        if let Some(fault) = found.fault {
            return self.take_fault(found, fault);
        }
        if is_module_file(found.name.as_slice()) {
            return self.take_file(found);
        }
        Ok(())
    }
}

/// The module of a folder with these entries.
fn module_of(alloc: Global, folder: Vec<u8>, found: Vec<Found>) -> Result<Sorted, AllocError>
    ensures { IfOk result (λ s. IsModuleOf folder.items found.items s.module s.faults.items) }
{
    let mut taken = Sorted {
        module: Module {
            folder,
            files: Vec::new(alloc),
            is_whole: true,
        },
        faults: Vec::new(alloc),
    };
    for each in found {
        taken.take(each)?;
    }
    Ok(taken)
}

/// Removes and returns the entries of a folder, if it is one of these: their last one is the first by its name. Folders
/// before it are dropped.
fn take_looked(looked: &mut Vec<ListedFolder>, folder: &[u8]) -> Option<Vec<Found>>
    ensures taken { IfSome result (λ found. (l : ListedFolder) × Contains looked.old.items l
        × (l.folder.items ≡ folder.now) × (l.found.items ≡ found.items)) }
    ensures left { (l : ListedFolder) → Contains looked.new.items l → Contains looked.old.items l }
{
    for _ in 0..looked.len() {
        if looked.as_slice().last()?.folder.as_slice() > folder {
            return None;
        }
        let one = looked.pop()?;
        if one.folder.as_slice() == folder {
            return Some(one.found);
        }
    }
    None
}

/// The module of a folder, which is listed unless it was before.
fn module_in<T: Tree>(
    alloc: Global,
    folder: Vec<u8>,
    looked: &mut Vec<ListedFolder>,
    tree: &mut T,
) -> Result<Sorted, AllocError>
    ensures unchanged { Unchanged T.Tree tree.old tree.new }
    ensures left { (l : ListedFolder) → Contains looked.new.items l → Contains looked.old.items l }
    ensures is { IfOk result (λ s. IsModule (T.files tree.old) looked.old.items folder.items
        s.module s.faults.items (T.faults tree.old) (T.faults tree.new)) }
{
    if let Some(found) = take_looked(looked, folder.as_slice()) {
        return module_of(alloc, folder, found);
    }
    let found = find_in(alloc, folder.as_slice(), tree)?;
    module_of(alloc, folder, found)
}

/// Modules, and the reports for their folders.
#[derive(Drop)]
pub struct Modules {
    pub modules: Vec<Module>,
    pub faults: Vec<Found>,
}

impl Modules {
    /// Appends the module of a folder.
    fn add<T: Tree>(
        &mut self,
        alloc: Global,
        folder: Found,
        looked: &mut Vec<ListedFolder>,
        tree: &mut T,
    ) -> Result<(), AllocError>
        ensures unchanged { Unchanged T.Tree tree.old tree.new }
        ensures left { (l : ListedFolder) → Contains looked.new.items l
            → Contains looked.old.items l }
        ensures adds { OnOk result (AddsModule (T.files tree.old) looked.old.items
            folder.name.items self.old self.new (T.faults tree.old) (T.faults tree.new)) }
    {
        let Sorted { module, mut faults } = module_in(alloc, folder.name, looked, tree)?;
        let Ok(()) = self.modules.push(module) else {
            return Err(AllocError);
        };
        let Ok(()) = self.faults.append(&mut faults) else {
            return Err(AllocError);
        };
        Ok(())
    }
}

/// The modules of folders, in order, and the reports for these: each name that can't be looked at or linted, and why. A
/// folder that was listed isn't listed again.
pub fn modules_of<T: Tree>(
    alloc: Global,
    folders: Vec<Found>,
    mut looked: Vec<ListedFolder>,
    tree: &mut T,
) -> Result<Modules, AllocError>
    ensures unchanged { Unchanged T.Tree tree.old tree.new }
    // If the device tells the faults of its calls, each reported fault is one of these, or that of a name.
    ensures are { IfOk result (λ all. AreModules (T.files tree.old) looked.items folders.items
        all.modules.items all.faults.items (T.faults tree.old) (T.faults tree.new)) }
{
    let mut all = Modules {
        modules: Vec::new(alloc),
        faults: Vec::new(alloc),
    };
    looked.sort_unstable_by(|one, other| other.cmp(one));
    for folder in folders {
        all.add(alloc, folder, &mut looked, tree)?;
    }
    Ok(all)
}

/// The module of a folder alone.
pub fn modules_in<T: Tree>(
    alloc: Global,
    folder: &[u8],
    tree: &mut T,
) -> Result<Vec<Module>, AllocError>
    ensures unchanged { Unchanged T.Tree tree.old tree.new }
    ensures are { IfOk result (λ modules. AreAlone (T.files tree.old) folder.now modules.items) }
{
    let found = Found {
        name: join(alloc, folder, b"")?,
        fault: None,
        file: None,
    };
    let mut folders = Vec::new(alloc);
    let Ok(()) = folders.push(found) else {
        return Err(AllocError);
    };
    let found = modules_of(alloc, folders, Vec::new(alloc), tree)?;
    Ok(found.modules)
}
