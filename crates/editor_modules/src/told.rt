//! What an editor is told of a module.

ghost use Rattle.std.specs.Prelude.{◌≡◌, ◌≤◌, IfOk, IsTrue, length, map, string_bytes};
ghost use Rattle.editor_modules.specs.Messages.{AreMessages, TellsModule};
ghost use Rattle.editor_modules.specs.Told.{is_lintable, told_files};
ghost use Rattle.tfrules_command.specs.Line.{max_files};

use crate::diagnostics::file_message;
use crate::find::module_in;
use crate::message::ToldMessage;
use file_tree::tree::Tree;
use module_check::{Checked, check_module};
use module_find::Module;
use open_files::{Documents, OpenFiles};
use std::alloc::{AllocError, Global};
use text_places::Units;
use tf_rules::Hashing;
use tfrules_command::file_names::MAX_FILES;

/// The messages about the files of these names, which were judged and linted together.
fn messages_of(
    alloc: Global,
    units: Units,
    documents: &Documents,
    names: &[String],
    checked: &Checked,
) -> Result<Vec<ToldMessage>, AllocError>
    requires few { length names.now ≤ max_files }
    requires each { length names.now ≡ length checked.now.files.items }
    ensures { IfOk result (λ all. AreMessages (told_files units documents.now
        checked.now.issues.items 0 (map string_bytes names.now) checked.now.files.items)
        all.items) }
{
    let issues = checked.issues.as_slice();
    let mut all = Vec::new(alloc);
    for number in 0..names.len() {
        let uri = documents.file_uri(alloc, names[number].as_bytes())?;
        let state = &checked.files.as_slice()[number];
        let message = file_message(alloc, units, uri.as_str(), number as u32, state, issues)?;
        all.push(message)?;
    }
    Ok(all)
}

/// Whether the files of a module can be judged together.
fn is_lintable(candidate: &Module) -> bool
    ensures value { result ≡ is_lintable candidate.now }
    ensures few { IsTrue result → length candidate.now.files.items ≤ max_files }
{
    candidate.is_whole && candidate.files.len() <= MAX_FILES
}

/// The messages about the files of the module of a folder, with open documents over its files: the diagnostics of each,
/// or `None` if the module can't be linted. Names in the files are hashed as `hashing` says. An error means that memory
/// ran out.
pub fn module_messages<T: Tree + Drop>(
    alloc: Global,
    hashing: Hashing,
    units: Units,
    documents: &Documents,
    folder: &[u8],
    tree: T,
) -> Result<Option<Vec<ToldMessage>>, AllocError>
    ensures { IfOk result (TellsModule units documents.now (T.files tree) folder.now) }
{
    let mut files = OpenFiles::new(alloc, documents, tree);
    let Some(governed) = module_in(alloc, folder, &mut files)? else {
        return Ok(None);
    };
    if !is_lintable(&governed.module) {
        return Ok(None);
    }
    let names = governed.module.files.as_slice();
    let settings = governed.policy.settings;
    let checked = check_module(alloc, hashing, names, settings, &mut files)?;
    Ok(Some(messages_of(alloc, units, documents, names, &checked)?))
}
