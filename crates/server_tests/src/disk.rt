//! A disk of the tests.

ghost use Rattle.std.specs.Prelude.{◌≡◌, false, None};
ghost use Rattle.file_tree.specs.Files.{silent_files};

use file_tree::fault::TreeFault;
use file_tree::kind::{Identity, Kind};
use file_tree::tree::Tree;
use hcl_source::{ByteSource, Failed};
use open_files::Disk;
use std::alloc::{AllocError, Global};
use tf_rules::Hashing;
use tfls_command::host::Host;

/// The full path of a file, and its text.
pub type Entry = (&'static str, &'static str);

/// Files in memory. In each tree of them the call of this number fails, if there is one. It tells nothing, since it may
/// run out of memory at any call.
#[derive(Drop)]
pub struct FewFiles {
    alloc: Global,
    entries: &'static [Entry],
    failing: Option<usize>,
}

impl FewFiles {
    pub fn new(alloc: Global, entries: &'static [Entry], failing: Option<usize>) -> FewFiles {
        FewFiles {
            alloc,
            entries,
            failing,
        }
    }
}

impl Disk for FewFiles {
    type Tree = FewTree;

    ghost files = { λ d. silent_files };

    fn tree(&self) -> Result<FewTree, AllocError> {
        Ok(FewTree {
            alloc: self.alloc,
            entries: self.entries,
            failing: self.failing,
            calls: 0,
        })
    }
}

/// A machine with these files.
pub fn host_of(alloc: Global, entries: &'static [Entry], failing: Option<usize>) -> Host<FewFiles> {
    Host {
        disk: FewFiles::new(alloc, entries, failing),
        hashing: Hashing::with_shared_seed(),
    }
}

/// A tree of few files.
#[derive(Drop)]
pub struct FewTree {
    alloc: Global,
    entries: &'static [Entry],
    failing: Option<usize>,
    calls: usize,
}

/// The text of a file that is read.
#[derive(Drop)]
pub struct FewText {
    text: &'static str,
    taken: usize,
}

impl ByteSource for FewText {
    ghost left = { λ s. None };

    ghost failed = { λ s. false };

    fn read(&mut self, buffer: &mut [u8]) -> Result<usize, Failed> {
        let taken = self.taken.min(self.text.len());
        let (_, rest) = self.text.as_bytes().split_at(taken);
        let count = rest.len().min(buffer.len());
        buffer[..count].copy_from_slice(&rest[..count]);
        self.taken = taken + count;
        Ok(count)
    }

    fn has_failed(&self) -> bool {
        false
    }
}

/// The part of a path in a folder, if it is below it.
fn part_in<'p>(folder: &[u8], path: &'p str) -> Option<&'p [u8]> {
    let rest = path.as_bytes().strip_prefix(folder)?;
    if rest.is_empty() { None } else { Some(rest) }
}

/// The part of a path before its first slash.
fn first_part(path: &[u8]) -> &[u8] {
    match path.iter().position(|byte| *byte == b'/') {
        Some(at) => &path[..at],
        None => path,
    }
}

impl FewTree {
    /// Counts a call, which may fail.
    fn call(&mut self) -> Result<(), TreeFault> {
        let number = self.calls;
        self.calls = number.saturating_add(1);
        if self.failing == Some(number) {
            return Err(TreeFault::Unreadable);
        }
        Ok(())
    }

    fn text(&self, name: &[u8]) -> Option<&'static str> {
        for (path, text) in self.entries {
            if *path.as_bytes() == *name {
                return Some(*text);
            }
        }
        None
    }

    fn kind_of(&self, name: &[u8]) -> Result<Kind, TreeFault> {
        if self.text(name).is_some() {
            return Ok(Kind::File(Identity {
                device: 1,
                inode: name.len() as u64,
            }));
        }
        for (path, _) in self.entries {
            if part_in(name, *path).is_some() {
                return Ok(Kind::Folder);
            }
        }
        Err(TreeFault::Missing)
    }

    fn names(&self, folder: &[u8]) -> Result<Vec<u8>, AllocError> {
        let mut names = Vec::new(self.alloc);
        for (path, _) in self.entries {
            if let Some(part) = part_in(folder, *path) {
                names.extend_from_slice(first_part(part))?;
                names.extend_from_slice(b"\0")?;
            }
        }
        Ok(names)
    }
}

impl Tree for FewTree {
    type Reader = FewText;

    ghost files = { λ s. silent_files };

    ghost faults = { λ s. None };

    ghost asked = { λ s. None };

    #[tactic(auto, using(file_tree::proofs::FileLemmas::silent_noted))]
    fn kind(&mut self, name: &[u8]) -> Result<Kind, TreeFault> {
        if let Err(fault) = self.call() {
            return Err(fault);
        }
        self.kind_of(name)
    }

    #[tactic(auto, using(file_tree::proofs::FileLemmas::silent_noted))]
    fn entry_kind(&mut self, name: &[u8]) -> Result<Kind, TreeFault> {
        if let Err(fault) = self.call() {
            return Err(fault);
        }
        self.kind_of(name)
    }

    #[tactic(auto, using(file_tree::proofs::FileLemmas::silent_noted))]
    fn listing(&mut self, folder: &[u8]) -> Result<Vec<u8>, TreeFault> {
        if let Err(fault) = self.call() {
            return Err(fault);
        }
        match self.names(folder) {
            Ok(names) => Ok(names),
            Err(_) => Err(TreeFault::OutOfMemory),
        }
    }

    #[tactic(auto, using(file_tree::proofs::FileLemmas::silent_noted))]
    fn full_path(&mut self, folder: &[u8]) -> Result<Vec<u8>, TreeFault> {
        if let Err(fault) = self.call() {
            return Err(fault);
        }
        let Ok(mut path) = Vec::from_slice(self.alloc, folder) else {
            return Err(TreeFault::OutOfMemory);
        };
        if path.as_slice().ends_with(b"/") || path.push(b'/').is_ok() {
            return Ok(path);
        }
        Err(TreeFault::OutOfMemory)
    }

    #[tactic(auto, using(file_tree::proofs::FileLemmas::silent_noted))]
    fn reader(&mut self, name: &[u8]) -> Result<FewText, TreeFault> {
        if let Err(fault) = self.call() {
            return Err(fault);
        }
        match self.text(name) {
            Some(text) => Ok(FewText { text, taken: 0 }),
            None => Err(TreeFault::Missing),
        }
    }

    #[tactic(auto, using(file_tree::proofs::FileLemmas::silent_noted))]
    fn give_back(&mut self, reader: FewText) {
        let _ = &reader;
    }
}
