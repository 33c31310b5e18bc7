//! A tree in memory with calls that fail.

ghost use Rattle.std.specs.Prelude.{◌≡◌, Err, false, IfOk, None, OnErr, OnOk, Some, find, option_map};
ghost use Rattle.std.specs.Str.{bytes_eq};
ghost use Rattle.file_tree.specs.Files.{Tells, with_bytes};
ghost use Rattle.file_tree.specs.declared.fault.TreeFault.TheVariants.{Missing};
ghost use Rattle.tree_devices.specs.MemoryFiles.{files_in, kind_told, known_in, listing_told, real_in, text_in};

use crate::calls::{Calls, Failures, Step};
use crate::entry::{MemoryEntry, Stands};
use crate::known::Known;
use crate::memory_reader::MemoryReader;
use crate::stored::Stored;
use file_tree::fault::TreeFault;
use file_tree::kind::{Identity, Kind};
use file_tree::path::join;
use file_tree::tree::{Replaced, Tree, WritableTree, Writing};
use hcl_scan::ByteSource;
use std::alloc::{AllocError, Global};

/// Folders, files, links and pipes in memory. It tells what its names stand for and the names in its folders, the bytes
/// of its files, and where its links lead; a link to a link leads nowhere. The number of its entry identifies a file.
/// It doesn't take a name that isn't UTF-8, like the system's.
#[derive(Drop)]
pub struct MemoryTree<'a> {
    alloc: Global,
    /// The full path of the current folder, without a `/` at its end.
    current: &'a [u8],
    entries: &'a [MemoryEntry<'a>],
    known: Vec<Known>,
    files: Vec<Stored>,
    links: Vec<Stored>,
    calls: Calls,
}

/// The text stored under a name.
fn stored_as<'s>(stored: &'s [Stored], name: &[u8]) -> Option<&'s Stored>
    ensures { option_map (λ s. s.now) result
        ≡ find (λ s. bytes_eq name.now s.name.items) stored.now }
{
    stored.iter().find(|s| *name == *s.name.as_slice())
}

/// The known answers for a name.
fn known_as<'s>(known: &'s [Known], name: &[u8]) -> Option<&'s Known>
    ensures { option_map (λ k. k.now) result ≡ known_in known.now name.now }
{
    known.iter().find(|k| *name == *k.name.as_slice())
}

/// The text under a name.
fn text_in<'s>(stored: &'s [Stored], name: &[u8]) -> Option<&'s [u8]>
    ensures { option_map (λ text. text.now) result ≡ text_in stored.now name.now }
{
    match stored_as(stored, name) {
        Some(found) => Some(found.bytes.as_slice()),
        None => None,
    }
}

/// The name to which a name leads, links followed.
fn real_in<'s>(links: &'s [Stored], name: &'s [u8]) -> &'s [u8]
    ensures { result.now ≡ real_in links.now name.now }
{
    match text_in(links, name) {
        Some(to) => to,
        None => name,
    }
}

/// Stores a text before the present ones.
fn store(
    alloc: Global,
    stored: &mut Vec<Stored>,
    name: &[u8],
    bytes: &[u8],
) -> Result<(), AllocError> {
    let name = Vec::from_slice(alloc, name)?;
    let bytes = Vec::from_slice(alloc, bytes)?;
    match stored.insert(0, Stored { name, bytes }) {
        Ok(()) => Ok(()),
        Err(_) => Err(AllocError),
    }
}

/// A name as entries have it, if its full path isn't below the current folder.
fn tidy_name(name: &[u8]) -> &[u8] {
    let name = match name.strip_prefix(b"./".as_slice()) {
        Some(rest) => rest,
        None => name,
    };
    let name = match name.strip_suffix(b"/".as_slice()) {
        Some(rest) => rest,
        None => name,
    };
    if name == b".".as_slice() { b"" } else { name }
}

/// The part of a full path below this folder, if it is below.
fn name_below<'n>(current: &[u8], path: &'n [u8]) -> Option<&'n [u8]> {
    if path == current {
        return Some(b"");
    }
    path.strip_prefix(current)?.strip_prefix(b"/".as_slice())
}

/// A name as entries have it.
fn entry_name<'n>(current: &[u8], name: &'n [u8]) -> &'n [u8] {
    let name = tidy_name(name);
    if !name.starts_with(b"/") {
        return name;
    }
    name_below(current, name).unwrap_or(name)
}

/// The name that an entry has in a folder, if it is in it.
fn name_in<'n>(folder: &[u8], name: &'n [u8]) -> Option<&'n [u8]> {
    let rest = if folder.is_empty() {
        name
    } else {
        name.strip_prefix(folder)?.strip_prefix(b"/".as_slice())?
    };
    if rest.is_empty() || rest.contains(&b'/') {
        return None;
    }
    Some(rest)
}

impl<'a> MemoryTree<'a> {
    /// A tree with these entries, whose current folder is the top of all.
    pub fn new(
        alloc: Global,
        entries: &'a [MemoryEntry<'a>],
        failures: Failures,
    ) -> Result<MemoryTree<'a>, AllocError> {
        let mut tree = MemoryTree {
            alloc,
            current: b"",
            entries,
            known: Vec::new(alloc),
            files: Vec::new(alloc),
            links: Vec::new(alloc),
            calls: Calls::new(alloc, failures),
        };
        for entry in entries {
            tree.keep(entry.name, entry.stands)?;
        }
        for entry in entries {
            tree.learn(entry)?;
        }
        Ok(tree)
    }

    /// A tree with these entries, whose current folder has this full path, without a `/` at its end. An entry that
    /// isn't below it is named by its full path, and the others have that name too.
    pub fn new_in(
        alloc: Global,
        current: &'a [u8],
        entries: &'a [MemoryEntry<'a>],
        failures: Failures,
    ) -> Result<MemoryTree<'a>, AllocError> {
        let mut tree = MemoryTree::new(alloc, entries, failures)?;
        tree.current = current;
        for entry in entries {
            let name = tree.full_name(entry.name)?;
            tree.keep(name.as_slice(), entry.stands)?;
            tree.keep_answers(name.as_slice())?;
        }
        Ok(tree)
    }

    /// Stores the contents of an entry under a name.
    fn keep(&mut self, name: &[u8], stands: Stands<'_>) -> Result<(), AllocError> {
        match stands {
            Stands::File(bytes) | Stands::Busy(bytes) | Stands::Same(bytes, _) => {
                store(self.alloc, &mut self.files, name, bytes)
            }
            Stands::Link(to) => store(self.alloc, &mut self.links, name, to),
            Stands::Folder | Stands::Gone | Stands::Pipe => Ok(()),
        }
    }

    /// The full path of a name as entries have it.
    fn full_name(&self, name: &[u8]) -> Result<Vec<u8>, AllocError> {
        if name.starts_with(b"/") {
            return Vec::from_slice(self.alloc, name);
        }
        let mut path = join(self.alloc, self.current, b"/")?;
        path.extend_from_slice(name)?;
        Ok(path)
    }

    /// The full path of a folder, with a `/` at its end.
    fn full_path_of(&self, folder: &[u8]) -> Result<Vec<u8>, TreeFault> {
        if self.kind_of(folder) != Ok(Kind::Folder) {
            return Err(TreeFault::NoFullPath);
        }
        let name = match self.stands(folder) {
            Some(Stands::Link(to)) => to,
            _ => entry_name(self.current, folder),
        };
        let Ok(mut path) = self.full_name(name) else {
            return Err(TreeFault::OutOfMemory);
        };
        if !path.as_slice().ends_with(b"/") && path.push(b'/').is_err() {
            return Err(TreeFault::OutOfMemory);
        }
        Ok(path)
    }

    /// Keeps the answers for an entry: for its name, and for a folder also for the name with a slash.
    fn learn(&mut self, entry: &MemoryEntry<'_>) -> Result<(), AllocError> {
        self.keep_answers(entry.name)?;
        if entry.name.is_empty() {
            return self.keep_answers(b"./");
        }
        if entry.stands != Stands::Folder {
            return Ok(());
        }
        let folder = join(self.alloc, entry.name, b"/")?;
        self.keep_answers(folder.as_slice())
    }

    fn keep_answers(&mut self, name: &[u8]) -> Result<(), AllocError> {
        let Ok(entry) = self.entry_kind_of(name) else {
            return Ok(());
        };
        let kind = match self.kind_of(name) {
            Ok(kind) => Some(kind),
            Err(_) => None,
        };
        let listing = match self.names_in(name) {
            Ok(names) => Some(names),
            Err(TreeFault::OutOfMemory) => return Err(AllocError),
            Err(_) => None,
        };
        let name = Vec::from_slice(self.alloc, name)?;
        let known = Known {
            name,
            kind,
            entry,
            listing,
        };
        match self.known.push(known) {
            Ok(()) => Ok(()),
            Err(_) => Err(AllocError),
        }
    }

    /// What the tree tells of a name, with links followed.
    fn told_kind(&self, name: &[u8]) -> Result<Kind, TreeFault>
        ensures { IfOk result (Tells (kind_told (known_in self.now.known.items name.now))) }
    {
        match known_as(self.known.as_slice(), name) {
            Some(known) => match known.kind {
                Some(kind) => Ok(kind),
                None => Err(TreeFault::DeadLink),
            },
            None => self.kind_of(name),
        }
    }

    /// What the tree tells of a name, with links not followed.
    fn told_entry(&self, name: &[u8]) -> Result<Kind, TreeFault>
        ensures kind { IfOk result
            (Tells (option_map (λ k. k.entry) (known_in self.now.known.items name.now))) }
        ensures missing { result ≡ Err Missing
            → option_map (λ k. k.entry) (known_in self.now.known.items name.now) ≡ None }
    {
        match known_as(self.known.as_slice(), name) {
            Some(known) => Ok(known.entry),
            None => self.entry_kind_of(name),
        }
    }

    /// What the tree tells of the names in a folder.
    fn told_names(&self, folder: &[u8]) -> Result<Vec<u8>, TreeFault>
        ensures { IfOk result
            (λ names. Tells (listing_told (known_in self.now.known.items folder.now)) names.items) }
    {
        let Some(known) = known_as(self.known.as_slice(), folder) else {
            return self.names_in(folder);
        };
        let Some(listing) = &known.listing else {
            return Err(TreeFault::UnreadableFolder);
        };
        match Vec::from_slice(self.alloc, listing.as_slice()) {
            Ok(names) => Ok(names),
            Err(_) => Err(TreeFault::OutOfMemory),
        }
    }

    /// The calls so far.
    pub fn calls(&self) -> &Calls {
        &self.calls
    }

    /// The bytes of the file of this name.
    pub fn bytes_of(&self, name: &[u8]) -> Option<&[u8]> {
        text_in(self.files.as_slice(), name)
    }

    /// The bytes of the file to which a name leads.
    pub fn bytes_at(&self, name: &[u8]) -> Option<&[u8]>
        ensures { option_map (λ bytes. bytes.now) result
            ≡ text_in self.now.files.items (real_in self.now.links.items name.now) }
    {
        text_in(self.files.as_slice(), real_in(self.links.as_slice(), name))
    }

    fn stands(&self, name: &[u8]) -> Option<Stands<'a>> {
        let name = entry_name(self.current, name);
        for entry in self.entries {
            if entry.name == name {
                return Some(entry.stands);
            }
        }
        None
    }

    /// The identity of the file with this name: the number of entries before its own, or before that of its other name.
    fn identity_of(&self, name: &[u8]) -> Identity {
        let name = match self.stands(name) {
            Some(Stands::Same(_, other)) => other,
            _ => entry_name(self.current, name),
        };
        let inode = self
            .entries
            .iter()
            .take_while(|entry| entry.name != name)
            .count();
        Identity {
            device: 1,
            inode: inode as u64,
        }
    }

    /// The kind of a name, with links not followed, if it exists.
    fn kind_at(&self, name: &[u8]) -> Option<Kind> {
        match self.stands(name) {
            Some(stands) => Some(stands.kind(self.identity_of(name))),
            None => None,
        }
    }

    /// The kind of a name, with links not followed.
    fn entry_kind_of(&self, name: &[u8]) -> Result<Kind, TreeFault> {
        if std::str::from_utf8(name).is_err() {
            return Err(TreeFault::NotUtf8);
        }
        match self.kind_at(name) {
            Some(kind) => Ok(kind),
            None if name == b"-".as_slice() => Err(TreeFault::NoInput),
            None => Err(TreeFault::Missing),
        }
    }

    /// The kind of a name, with links followed.
    fn kind_of(&self, name: &[u8]) -> Result<Kind, TreeFault> {
        let Some(Stands::Link(to)) = self.stands(name) else {
            return self.entry_kind_of(name);
        };
        match self.kind_at(to) {
            Some(kind) if kind != Kind::Link => Ok(kind),
            _ => Err(TreeFault::DeadLink),
        }
    }

    fn names_in(&self, folder: &[u8]) -> Result<Vec<u8>, TreeFault> {
        match self.entry_kind_of(folder) {
            Ok(Kind::Folder) => {}
            Err(TreeFault::Missing) => return Err(TreeFault::Missing),
            _ => return Err(TreeFault::UnreadableFolder),
        }
        let folder = entry_name(self.current, folder);
        let mut names = Vec::new(self.alloc);
        for entry in self.entries {
            if let Some(name) = name_in(folder, entry.name) {
                if names.extend_from_slice(name).is_err() || names.push(0).is_err() {
                    return Err(TreeFault::OutOfMemory);
                }
            }
        }
        Ok(names)
    }

    /// Why a name can't be opened as a file, if it can't.
    fn open_fault(&self, name: &[u8]) -> Option<TreeFault> {
        if let Some(Stands::Gone) = self.stands(name) {
            return Some(TreeFault::Missing);
        }
        match self.kind_of(name) {
            Ok(Kind::File(_)) => None,
            Ok(_) => Some(TreeFault::NotAFile),
            Err(fault) => Some(fault),
        }
    }

    fn open(&self, name: &[u8], good_reads: Option<usize>) -> Result<MemoryReader, TreeFault>
        ensures fresh { IfOk result (λ r. ⟦<MemoryReader as ByteSource>⟧.failed r ≡ false) }
        ensures bytes { IfOk result (λ r. ⟦<MemoryReader as ByteSource>⟧.left r
            ≡ text_in self.now.files.items (real_in self.now.links.items name.now)) }
    {
        if let Some(fault) = self.open_fault(name) {
            return Err(fault);
        }
        let real = real_in(self.links.as_slice(), name);
        let Some(bytes) = text_in(self.files.as_slice(), real) else {
            return Err(TreeFault::Unreadable);
        };
        match Vec::from_slice(self.alloc, bytes) {
            Ok(bytes) => Ok(MemoryReader::new(bytes, good_reads)),
            Err(_) => Err(TreeFault::OutOfMemory),
        }
    }

    /// Whether the file to which a name leads still has these bytes.
    fn has_bytes(&self, name: &[u8], bytes: &[u8]) -> bool {
        if let Some(Stands::Busy(_)) = self.stands(name) {
            return false;
        }
        match text_in(self.files.as_slice(), real_in(self.links.as_slice(), name)) {
            Some(found) => found == bytes,
            None => false,
        }
    }

    /// Gives the file to which a name leads new bytes.
    fn set_bytes(&mut self, name: &[u8], new: &[u8]) -> Result<(), TreeFault>
        ensures known { self.new.known.items ≡ self.old.known.items }
        ensures links { self.new.links.items ≡ self.old.links.items }
        ensures ok { OnOk result (
            files_in self.old.known.items self.new.files.items self.old.links.items
            ≡ with_bytes (files_in self.old.known.items self.old.files.items self.old.links.items)
            (real_in self.old.links.items name.now) new.now) }
        ensures err { OnErr result (self.new.files.items ≡ self.old.files.items) }
    {
        let real = real_in(self.links.as_slice(), name);
        if text_in(self.files.as_slice(), real).is_none() {
            return Err(TreeFault::Missing);
        }
        let Ok(name) = Vec::from_slice(self.alloc, real) else {
            return Err(TreeFault::OutOfMemory);
        };
        let Ok(bytes) = Vec::from_slice(self.alloc, new) else {
            return Err(TreeFault::OutOfMemory);
        };
        match self.files.insert(0, Stored { name, bytes }) {
            Ok(()) => Ok(()),
            Err(_) => Err(TreeFault::OutOfMemory),
        }
    }
}

impl<'a> Tree for MemoryTree<'a> {
    type Reader = MemoryReader;

    ghost files = { λ s. files_in s.known.items s.files.items s.links.items };

    ghost faults = { λ s. None };

    ghost asked = { λ s. None };

    #[tactic(auto, using(file_tree::proofs::FileLemmas::silent_noted))]
    fn kind(&mut self, name: &[u8]) -> Result<Kind, TreeFault> {
        match self.calls.make(Step::Kind, name) {
            Ok(()) => self.told_kind(name),
            Err(fault) => Err(fault),
        }
    }

    #[tactic(auto, using(file_tree::proofs::FileLemmas::silent_noted))]
    fn entry_kind(&mut self, name: &[u8]) -> Result<Kind, TreeFault> {
        match self.calls.make(Step::EntryKind, name) {
            Ok(()) => self.told_entry(name),
            // A failed call doesn't say that a name doesn't exist.
            Err(TreeFault::Missing) => Err(TreeFault::Unreadable),
            Err(fault) => Err(fault),
        }
    }

    #[tactic(auto, using(file_tree::proofs::FileLemmas::silent_noted))]
    fn listing(&mut self, folder: &[u8]) -> Result<Vec<u8>, TreeFault> {
        match self.calls.make(Step::Listing, folder) {
            Ok(()) => self.told_names(folder),
            Err(fault) => Err(fault),
        }
    }

    #[tactic(auto, using(file_tree::proofs::FileLemmas::silent_noted))]
    fn full_path(&mut self, folder: &[u8]) -> Result<Vec<u8>, TreeFault> {
        match self.calls.make(Step::FullPath, folder) {
            Ok(()) => self.full_path_of(folder),
            Err(fault) => Err(fault),
        }
    }

    #[tactic(auto, using(file_tree::proofs::FileLemmas::silent_noted))]
    fn reader(&mut self, name: &[u8]) -> Result<MemoryReader, TreeFault> {
        match self.calls.make(Step::Opening, name) {
            Ok(()) => {
                let good_reads = self.calls.open(name);
                self.open(name, good_reads)
            }
            Err(fault) => Err(fault),
        }
    }

    #[tactic(auto, using(file_tree::proofs::FileLemmas::silent_noted))]
    fn give_back(&mut self, reader: MemoryReader) {
        if reader.has_failed() {
            self.calls.note_read();
        }
    }
}

impl<'a> WritableTree for MemoryTree<'a> {
    #[tactic(auto, using(file_tree::proofs::FileLemmas::silent_noted))]
    fn replace(
        &mut self,
        name: &[u8],
        old: &[u8],
        new: &[u8],
        writing: Writing,
    ) -> Result<Replaced, TreeFault> {
        let is_link = self.entry_kind_of(name) == Ok(Kind::Link);
        let is_same = self.has_bytes(name, old);
        let replaced = match self.calls.replace(name, is_link, is_same, writing) {
            Ok(replaced) => replaced,
            Err(fault) => return Err(fault),
        };
        match self.set_bytes(name, new) {
            Ok(()) => Ok(replaced),
            Err(fault) => Err(fault),
        }
    }
}
