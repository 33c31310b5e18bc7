//! The module of a folder.

ghost use Rattle.std.specs.Prelude.{◌≡◌, IfOk, option_map};
ghost use Rattle.file_tree.specs.Unchanged.{Unchanged};
ghost use Rattle.editor_modules.specs.Modules.{HasModule};
ghost use Rattle.editor_modules.specs.Told.{is_in_module, module_folder};
ghost use Rattle.module_find.specs.Modules.{folder_of};
ghost use Rattle.open_files.specs.Views.{path_seen};

use file_tree::names::is_passed_over;
use file_tree::tree::Tree;
use module_config::NOTHING;
use module_config::configure::configure;
use module_find::Governed;
use module_find::modules::modules_in;
use module_find::names::{folder_of, is_module_file};
use std::alloc::{AllocError, Global};

/// Whether the file of this path, which is in this folder, is one of the folder's module.
fn is_in_module(folder: &[u8], path: &[u8]) -> bool
    requires { folder.now ≡ folder_of path.now }
    ensures { result ≡ is_in_module path.now }
{
    is_module_file(path) && !is_passed_over(&path[folder.len()..])
}

/// The folder of the module to which the file of this path belongs, if it is one of a module.
pub fn module_folder(path: &Option<Vec<u8>>) -> Option<&[u8]>
    ensures { option_map (λ folder. folder.now) result ≡ module_folder (path_seen path.now) }
{
    let Some(path) = path else {
        return None;
    };
    let path = path.as_slice();
    let folder = folder_of(path);
    if is_in_module(folder, path) {
        Some(folder)
    } else {
        None
    }
}

/// The module of a folder, with the policy by which it is linted, unless that isn't known.
pub(crate) fn module_in<T: Tree>(
    alloc: Global,
    folder: &[u8],
    tree: &mut T,
) -> Result<Option<Governed>, AllocError>
    ensures unchanged { Unchanged T.Tree tree.old tree.new }
    ensures is { IfOk result (HasModule (T.files tree.old) folder.now) }
{
    let modules = modules_in(alloc, folder, tree)?;
    let mut configured = configure(alloc, NOTHING, true, modules, tree)?;
    Ok(configured.governed.pop())
}
