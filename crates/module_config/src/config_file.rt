//! The contents of the `.tfrules`.

ghost use Rattle.std.specs.Prelude.{◌≡◌, ◌++◌, ◌∷◌, [], IfOk, OnOk};
ghost use Rattle.file_tree.specs.Unchanged.{Unchanged};
ghost use Rattle.module_config.specs.Configs.{AreRead, IsRead};
ghost use Rattle.module_config.specs.Inner.Reading.{AddsFile, IsTextOf};

use crate::config_lines::{Config, config_in};
use file_tree::fault::TreeFault;
use file_tree::tree::Tree;
use file_tree::walk::Found;
use hcl_source::{Fault, LoadError, Source};
use std::alloc::{AllocError, Global};

/// The contents of a file, or why it has none.
#[derive(Drop)]
pub enum ConfigText {
    Says(Config),
    /// It isn't text.
    Refused(Fault),
    /// It can't be opened or read.
    Unread(TreeFault),
}

/// A `.tfrules` by its full path, and its contents.
#[derive(Drop)]
pub struct ConfigFile {
    pub name: Vec<u8>,
    pub text: ConfigText,
}

/// The contents in a loaded text.
fn text_of(alloc: Global, loaded: Result<Source, LoadError>) -> Result<ConfigText, AllocError>
    ensures { IfOk result (IsTextOf loaded) }
{
    match loaded {
        Ok(source) => Ok(ConfigText::Says(config_in(alloc, source.text())?)),
        Err(LoadError::Fault(fault)) => Ok(ConfigText::Refused(fault)),
        Err(LoadError::ReadFailed) => Ok(ConfigText::Unread(TreeFault::ReadFailed)),
        Err(LoadError::OutOfMemory) => Err(AllocError),
    }
}

/// The contents of the file with this name.
fn read_text<T: Tree>(alloc: Global, name: &[u8], tree: &mut T) -> Result<ConfigText, AllocError>
    ensures unchanged { Unchanged T.Tree tree.old tree.new }
    ensures is { IfOk result (IsRead (T.files tree.old) name.now
        (T.faults tree.old) (T.faults tree.new)) }
{
    let mut reader = match tree.reader(name) {
        Ok(reader) => reader,
        Err(fault) => return Ok(ConfigText::Unread(fault)),
    };
    let loaded = Source::read_from(alloc, &mut reader);
    tree.give_back(reader);
    text_of(alloc, loaded)
}

fn keep(file: ConfigFile, files: &mut Vec<ConfigFile>) -> Result<(), AllocError>
    ensures { OnOk result (files.new.items ≡ files.old.items ++ file ∷ []) }
{
    match files.push(file) {
        Ok(()) => Ok(()),
        Err(_) => Err(AllocError),
    }
}

/// Reads another file.
fn add_file<T: Tree>(
    alloc: Global,
    found: Found,
    files: &mut Vec<ConfigFile>,
    tree: &mut T,
) -> Result<(), AllocError>
    ensures unchanged { Unchanged T.Tree tree.old tree.new }
    ensures adds { OnOk result (AddsFile (T.files tree.old) found.name.items
        (T.faults tree.old) (T.faults tree.new) files.old.items files.new.items) }
{
    let text = read_text(alloc, found.name.as_slice(), tree)?;
    let file = ConfigFile {
        name: found.name,
        text,
    };
    keep(file, files)
}

/// The contents of the files with these names, in order.
pub(crate) fn read_all<T: Tree>(
    alloc: Global,
    found: Vec<Found>,
    tree: &mut T,
) -> Result<Vec<ConfigFile>, AllocError>
    ensures unchanged { Unchanged T.Tree tree.old tree.new }
    ensures are { IfOk result (λ files. AreRead (T.files tree.old) found.items files.items
        (T.faults tree.old) (T.faults tree.new)) }
{
    let mut files = Vec::new(alloc);
    for each in found {
        add_file(alloc, each, &mut files, tree)?;
    }
    Ok(files)
}
