//! What an editor shows of modules.

ghost use Rattle.std.specs.Prelude.{◌≡◌, ◌≤◌, ◌++◌, ◌∷◌, [], ℕ, List, IfOk, OnErr, OnOk, filter, find, map, not, option_map, string_bytes, vec_capacity, vec_len};
ghost use Rattle.std.specs.List.{list_any};
ghost use Rattle.std.specs.Str.{bytes_eq};
ghost use Rattle.editor_modules.specs.Inner.Withdrawn.{Withdraws, withdrawals_of};
ghost use Rattle.editor_modules.specs.Messages.{message_seen};
ghost use Rattle.editor_modules.specs.Shown.{is_told, listed_module, module_seen, shown_in, stale, uris_told, with_stale, with_told, without_module};

use crate::message::{ToldMessage, withdrawal};
use file_tree::path::join;
use std::alloc::{AllocError, Global};
use std::marker::Model;
use tf_facts::TextSet;
use tf_rules::Hashing;

/// The documents of a module for which an editor shows something.
#[derive(Drop)]
pub struct ModuleUris {
    /// Of the module.
    pub(crate) folder: Vec<u8>,
    pub(crate) uris: Vec<String>,
}

/// What an editor shows of modules: for each module that shows something, the documents that do.
#[derive(Drop)]
pub struct Shown {
    modules: Vec<ModuleUris>,
}

impl Model for Shown {
    ghost use Rattle.std.specs.Prelude.{List, map};
    ghost use Rattle.editor_modules.specs.Shown.{ShownModule, module_seen};

    ghost Value = { List ShownModule };

    ghost view = { λ s. map module_seen s.modules.items };
}

/// The documents about which these messages are.
fn uris_of(alloc: Global, hashing: Hashing, told: &[ToldMessage]) -> Result<TextSet, AllocError>
    ensures { IfOk result (λ uris. (uri : List ℕ)
        → list_any (bytes_eq uri) uris ≡ is_told (map message_seen told.now) uri) }
{
    let mut uris = TextSet::with_hashing(alloc, hashing);
    for message in told {
        uris.insert_copy(alloc, message.uri.as_str())?;
    }
    Ok(uris)
}

/// Adds the message that withdraws a document, unless it is one of these.
fn add_withdrawal(
    alloc: Global,
    told: &TextSet,
    uri: &str,
    all: &mut Vec<ToldMessage>,
) -> Result<(), AllocError>
    ensures { OnOk result (map message_seen all.new.items ≡ map message_seen all.old.items
        ++ withdrawals_of (filter (λ uri. not (list_any (bytes_eq uri) told.now)) (uri.now ∷ []))) }
{
    if told.contains(uri) {
        return Ok(());
    }
    let message = withdrawal(alloc, uri)?;
    match all.push(message) {
        Ok(()) => Ok(()),
        Err(_) => Err(AllocError),
    }
}

/// The messages that withdraw those of these documents about which none of the others is.
fn withdrawals(
    alloc: Global,
    hashing: Hashing,
    shown: &[String],
    told: &[ToldMessage],
) -> Result<Vec<ToldMessage>, AllocError>
    ensures { IfOk result (λ all. Withdraws
        (stale (map string_bytes shown.now) (map message_seen told.now)) all.items) }
{
    let told = uris_of(alloc, hashing, told)?;
    let mut all = Vec::new(alloc);
    for uri in shown {
        add_withdrawal(alloc, &told, uri.as_str(), &mut all)?;
    }
    Ok(all)
}

/// Adds the document of a message, if it tells something.
fn add_uri(alloc: Global, message: &ToldMessage, uris: &mut Vec<String>) -> Result<(), AllocError>
    ensures { OnOk result (map string_bytes uris.new.items
        ≡ map string_bytes uris.old.items ++ uris_told (message_seen message.now ∷ [])) }
{
    if !message.has_diagnostics {
        return Ok(());
    }
    let uri = String::from_str(alloc, message.uri.as_str())?;
    match uris.push(uri) {
        Ok(()) => Ok(()),
        Err(_) => Err(AllocError),
    }
}

/// The documents for which messages tell something.
fn uris_told(alloc: Global, told: &[ToldMessage]) -> Result<Vec<String>, AllocError>
    ensures { IfOk result (λ uris.
        map string_bytes uris.items ≡ uris_told (map message_seen told.now)) }
{
    let mut uris = Vec::new(alloc);
    for message in told {
        add_uri(alloc, message, &mut uris)?;
    }
    Ok(uris)
}

/// What is listed for the module of a folder.
fn module_of<'m>(modules: &'m [ModuleUris], folder: &[u8]) -> Option<&'m ModuleUris>
    ensures { option_map (λ m. m.now) result
        ≡ find (λ m. bytes_eq folder.now m.folder.items) modules.now }
{
    modules
        .iter()
        .find(|module| *folder == *module.folder.as_slice())
}

/// Drops what is listed for the module of a folder.
fn remove_module(modules: &mut Vec<ModuleUris>, folder: &[u8])
    ensures items { map module_seen modules.new.items
        ≡ without_module folder.now (map module_seen modules.old.items) }
    ensures len { vec_len modules.new ≤ vec_len modules.old }
    ensures capacity { vec_capacity modules.new ≡ vec_capacity modules.old }
{
    modules.retain(|module| *folder != *module.folder.as_slice());
}

impl Shown {
    /// Nothing.
    pub fn new(alloc: Global) -> Shown
        ensures { result ≡ [] }
    {
        Shown {
            modules: Vec::new(alloc),
        }
    }

    /// The documents of the module of a folder for which something is shown.
    pub fn uris(&self, folder: &[u8]) -> &[String]
        ensures { map string_bytes result.now ≡ shown_in folder.now self.now }
    {
        match module_of(self.modules.as_slice(), folder) {
            Some(module) => module.uris.as_slice(),
            None => &[],
        }
    }

    /// Forgets what is shown of the module of a folder.
    pub fn forget(&mut self, folder: &[u8])
        ensures { self.new ≡ without_module folder.now self.old }
    {
        remove_module(&mut self.modules, folder);
    }

    /// Lists what is shown of a module, in place of what was.
    fn set(&mut self, entry: ModuleUris) -> Result<(), AllocError>
        ensures ok { OnOk result (self.new ≡ without_module entry.folder.items self.old
            ++ listed_module entry.folder.items (map string_bytes entry.uris.items)) }
        ensures err { OnErr result (self.new ≡ self.old) }
    {
        // With room for it, nothing fails once the old list is gone.
        self.modules.reserve(1)?;
        remove_module(&mut self.modules, entry.folder.as_slice());
        if entry.uris.is_empty() {
            return Ok(());
        }
        match self.modules.push(entry) {
            Ok(()) => Ok(()),
            Err(_) => Err(AllocError),
        }
    }

    /// The messages that an editor is told when these are all about the module of a folder: before them those that
    /// withdraw the rest of what it shows of the module. From then on it shows what these tell. An error means that
    /// memory ran out: it is told nothing.
    pub fn tell(
        &mut self,
        alloc: Global,
        hashing: Hashing,
        folder: &[u8],
        mut told: Vec<ToldMessage>,
    ) -> Result<Vec<ToldMessage>, AllocError>
        ensures shown { OnOk result
            (self.new ≡ with_told folder.now (map message_seen told.items) self.old) }
        ensures unchanged { OnErr result (self.new ≡ self.old) }
        ensures told { IfOk result (λ all. map message_seen all.items
            ≡ with_stale folder.now self.old (map message_seen told.items)) }
    {
        let uris = uris_told(alloc, told.as_slice())?;
        let mut all = withdrawals(alloc, hashing, self.uris(folder), told.as_slice())?;
        let Ok(()) = all.append(&mut told) else {
            return Err(AllocError);
        };
        let folder = join(alloc, folder, b"")?;
        self.set(ModuleUris { folder, uris })?;
        Ok(all)
    }
}
