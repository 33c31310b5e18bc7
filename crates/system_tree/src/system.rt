//! The folders and files of the system.

ghost use Rattle.std.specs.Prelude.{◌≡◌, false, None, IfOk};
ghost use Rattle.std.specs.Io.{ReadsAtMost};
ghost use Rattle.file_tree.specs.Files.{silent_files};

use crate::folder::{Folder, identity_of};
use crate::link::{real_path, split_path};
use crate::new_file::{Origin, Texts, replace};
use crate::patient;
use crate::shared::SharedFiles;
use file_tree::fault::TreeFault;
use file_tree::kind::{Identity, Kind};
use file_tree::path::{join, tidy};
use file_tree::tree::{Replaced, Tree, WritableTree, Writing};
use hcl_source::{ByteSource, Failed};
use std::alloc::Global;
use std::fs::{File, Metadata};
use std::io;
use std::io::{ErrorKind, Read};
use std::os::unix::fs::MetadataExt;
use std::time::SystemTime;

/// How often a read is tried if signals interrupt it.
const TURNS: u32 = 1_000;

/// A file that was opened. It tells no bytes.
#[derive(Drop)]
pub struct FileReader {
    file: File,
    /// How many bytes it had when it was opened.
    length: u64,
    /// How many bytes were read.
    taken: u64,
    has_ended: bool,
    has_failed: bool,
}

impl FileReader {
    /// A reader from the start of a file that had this many bytes.
    fn new(file: File, length: u64) -> FileReader
        ensures { ⟦<FileReader as ByteSource>⟧.failed result ≡ false }
    {
        FileReader {
            file,
            length,
            taken: 0,
            has_ended: false,
            has_failed: false,
        }
    }

    /// Counts the bytes of a read. If they end with the file's last byte and left room, the read has met the end of the
    /// file, and no further read is needed.
    fn note_taken(&mut self, taken: usize, room: usize)
        ensures { self.new.has_failed ≡ self.old.has_failed }
    {
        self.taken = self.taken.saturating_add(taken as u64);
        self.has_ended = self.taken == self.length && taken < room;
    }
}

/// Reads from a file, again if a signal interrupts it.
fn read_some(file: &mut File, buffer: &mut [u8]) -> io::Result<usize>
    ensures { ReadsAtMost result buffer.new }
{
    for _ in 0..TURNS {
        match file.read(buffer) {
            Err(error) if error.kind() == ErrorKind::Interrupted => {}
            done => return done,
        }
    }
    Err(io::Error::from(ErrorKind::Interrupted))
}

impl ByteSource for FileReader {
    ghost left = { λ s. None };

    ghost failed = { λ s. s.has_failed };

    fn read(&mut self, buffer: &mut [u8]) -> Result<usize, Failed> {
        if self.has_ended {
            return Ok(0);
        }
        let room = buffer.len();
        match read_some(&mut self.file, buffer) {
            Ok(n) => {
                self.note_taken(n, room);
                Ok(n)
            }
            Err(_) => {
                self.has_failed = true;
                Err(Failed)
            }
        }
    }

    fn has_failed(&self) -> bool {
        self.has_failed
    }
}

/// The file that was opened last.
#[derive(Clone, Copy)]
struct OpenedFile {
    identity: Identity,
    is_linked: bool,
}

/// The system's tree, by std. It tells nothing.
#[derive(Drop)]
pub struct SystemTree {
    rt: HostRuntime,
    /// When the run began, if there is a clock.
    began: Option<SystemTime>,
    opened: Option<OpenedFile>,
    /// The folder of the file that was replaced last.
    held: Option<Folder>,
    /// The folders that the caller named by links to them, as a folder or as the folder of a file.
    linked: Vec<Identity>,
    shared: SharedFiles,
    /// Whether a folder was listed. The caller's names are looked at before that.
    is_walking: bool,
}

fn kind_in(metadata: &Metadata) -> Kind {
    if metadata.is_file() {
        return Kind::File(identity_of(metadata));
    }
    if metadata.is_dir() {
        return Kind::Folder;
    }
    if metadata.is_symlink() {
        return Kind::Link;
    }
    Kind::Other
}

/// Whether a file has several names.
fn is_shared(metadata: &Metadata) -> bool {
    metadata.is_file() && metadata.nlink() > 1
}

/// A name as a text, which the system's calls take.
fn text_of(name: &[u8]) -> Result<&str, TreeFault> {
    match std::str::from_utf8(name) {
        Ok(text) => Ok(text),
        Err(_) => Err(TreeFault::NotUtf8),
    }
}

/// A full path as that of a folder, with a `/` at its end.
fn folder_at(alloc: Global, path: &str) -> Result<Vec<u8>, TreeFault> {
    let end = if path.ends_with('/') { "" } else { "/" };
    match join(alloc, path.as_bytes(), end.as_bytes()) {
        Ok(folder) => Ok(folder),
        Err(_) => Err(TreeFault::OutOfMemory),
    }
}

/// The fault of a link that leads nowhere, or nowhere any more.
fn link_fault(kind: ErrorKind) -> TreeFault {
    match kind {
        ErrorKind::NotFound | ErrorKind::NotADirectory => TreeFault::DeadLink,
        ErrorKind::FilesystemLoop => TreeFault::EndlessLink,
        _ => TreeFault::Unreadable,
    }
}

/// The fault of a name, which may be a link's, that has no metadata.
fn entry_fault(name: &str, error: &io::Error) -> TreeFault {
    match error.kind() {
        ErrorKind::NotFound | ErrorKind::NotADirectory if name == "-" => TreeFault::NoInput,
        ErrorKind::NotFound | ErrorKind::NotADirectory => TreeFault::Missing,
        _ => TreeFault::Unreadable,
    }
}

impl SystemTree {
    pub fn new(rt: HostRuntime) -> SystemTree {
        let began = SystemTime::now(&rt).ok();
        let linked = Vec::new(rt.alloc());
        let shared = SharedFiles::new(rt.alloc());
        SystemTree {
            rt,
            began,
            opened: None,
            held: None,
            linked,
            shared,
            is_walking: false,
        }
    }

    /// The fault of a name whose target has no metadata.
    fn metadata_fault(&self, name: &str, error: &io::Error) -> TreeFault {
        match patient::symlink_metadata(&self.rt, name) {
            Ok(metadata) if metadata.is_symlink() => link_fault(error.kind()),
            Err(error) => entry_fault(name, &error),
            Ok(_) => entry_fault(name, error),
        }
    }

    fn metadata_of(&self, name: &str) -> Result<Metadata, TreeFault> {
        match patient::metadata(&self.rt, name) {
            Ok(metadata) => Ok(metadata),
            Err(error) => Err(self.metadata_fault(name, &error)),
        }
    }

    /// The kind of a path with this metadata, whose last part is no link.
    fn kind_at(&mut self, path: &str, metadata: &Metadata) -> Result<Kind, TreeFault> {
        if is_shared(metadata) {
            return Ok(Kind::File(self.shared.identity(&self.rt, path)?));
        }
        Ok(kind_in(metadata))
    }

    /// The kind of the file or folder that a name leads to. A link through names that aren't UTF-8 can't be followed
    /// here: it has an identity by its own place, which it shares with no other name.
    fn kind_of(&mut self, name: &str) -> Result<Kind, TreeFault> {
        let metadata = self.metadata_of(name)?;
        if !is_shared(&metadata) {
            return Ok(kind_in(&metadata));
        }
        match real_path(&self.rt, name) {
            Ok(path) => self.kind_at(path.as_str(), &metadata),
            Err(TreeFault::OutOfMemory) => Err(TreeFault::OutOfMemory),
            Err(_) => self.kind_at(name, &metadata),
        }
    }

    /// Records the folder of a path, if the last part of the path is a link.
    fn note_link(&mut self, path: &str) -> Result<(), TreeFault> {
        match patient::symlink_metadata(&self.rt, path) {
            Ok(metadata) if metadata.is_symlink() => {}
            Ok(_) => return Ok(()),
            Err(error) => return Err(entry_fault(path, &error)),
        }
        match patient::metadata(&self.rt, path) {
            Ok(metadata) => match self.linked.push(identity_of(&metadata)) {
                Ok(()) => Ok(()),
                Err(_) => Err(TreeFault::OutOfMemory),
            },
            Err(error) => Err(self.metadata_fault(path, &error)),
        }
    }

    /// Records the folder that a name from the caller stands for, or the folder of the file.
    fn note_given(&mut self, name: &[u8], kind: Kind) -> Result<(), TreeFault> {
        let Ok(path) = tidy(self.rt.alloc(), name) else {
            return Err(TreeFault::OutOfMemory);
        };
        let path = text_of(path.as_slice())?;
        let path = if kind == Kind::Folder {
            path
        } else {
            split_path(path).0
        };
        let bare = path.strip_suffix("/").unwrap_or(path);
        if bare.is_empty() {
            Ok(())
        } else {
            self.note_link(bare)
        }
    }

    fn given_kind_of(&mut self, name: &[u8]) -> Result<Kind, TreeFault> {
        let kind = self.kind_of(text_of(name)?)?;
        if !self.is_walking {
            self.note_given(name, kind)?;
        }
        Ok(kind)
    }

    fn entry_kind_of(&mut self, name: &[u8]) -> Result<Kind, TreeFault> {
        let name = text_of(name)?;
        match patient::symlink_metadata(&self.rt, name) {
            Ok(metadata) => self.kind_at(name, &metadata),
            Err(error) => Err(entry_fault(name, &error)),
        }
    }

    fn names_in(&mut self, folder: &[u8]) -> Result<Vec<u8>, TreeFault> {
        self.is_walking = true;
        let folder = text_of(folder)?;
        let mut dir = match patient::open_dir(&self.rt, folder) {
            Ok(dir) => dir,
            Err(error) if error.kind() == ErrorKind::NotFound => return Err(TreeFault::Missing),
            Err(_) => return Err(TreeFault::UnreadableFolder),
        };
        let mut names = Vec::new(self.rt.alloc());
        let mut buffer = [0; 16_384];
        for _ in 0..u64::MAX {
            match dir.read(&mut buffer) {
                Ok(0) => return Ok(names),
                Ok(n) => {
                    if names.extend_from_slice(&buffer[..n]).is_err() {
                        return Err(TreeFault::OutOfMemory);
                    }
                }
                Err(error) if error.kind() == ErrorKind::Interrupted => {}
                Err(_) => return Err(TreeFault::UnreadableFolder),
            }
        }
        Err(TreeFault::UnreadableFolder)
    }

    /// The full path of a folder. A path that isn't UTF-8 isn't known here.
    fn full_path_of(&self, folder: &[u8]) -> Result<Vec<u8>, TreeFault> {
        let path = match patient::canonicalize(&self.rt, text_of(folder)?) {
            Ok(path) => path,
            Err(error) if error.kind() == ErrorKind::OutOfMemory => {
                return Err(TreeFault::OutOfMemory);
            }
            Err(_) => return Err(TreeFault::NoFullPath),
        };
        match path.to_str() {
            Some(text) => folder_at(self.rt.alloc(), text),
            None => Err(TreeFault::NoFullPath),
        }
    }

    /// Whether a name is a link to a file, if it leads to one.
    fn is_linked_file(&self, name: &str) -> Result<bool, TreeFault> {
        let (kind, is_linked) = match patient::symlink_metadata(&self.rt, name) {
            Ok(metadata) if !metadata.is_symlink() => (kind_in(&metadata), false),
            Ok(_) => (kind_in(&self.metadata_of(name)?), true),
            Err(error) => return Err(entry_fault(name, &error)),
        };
        match kind {
            Kind::File(_) => Ok(is_linked),
            _ => Err(TreeFault::NotAFile),
        }
    }

    /// Opens a file. The kind of the name is checked first, so that the call doesn't wait for a pipe, and the kind of
    /// the opened file afterwards. If a pipe replaces the file in between, the call waits for it.
    fn open(&mut self, name: &[u8]) -> Result<FileReader, TreeFault>
        ensures { IfOk result (λ r. ⟦<FileReader as ByteSource>⟧.failed r ≡ false) }
    {
        let name = text_of(name)?;
        let is_linked = self.is_linked_file(name)?;
        match File::open(&self.rt, name) {
            Ok(file) => match patient::open_metadata(&file) {
                Ok(metadata) if metadata.is_file() => {
                    let identity = identity_of(&metadata);
                    self.opened = Some(OpenedFile {
                        identity,
                        is_linked,
                    });
                    Ok(FileReader::new(file, metadata.len()))
                }
                Ok(_) => Err(TreeFault::NotAFile),
                Err(_) => Err(TreeFault::Unreadable),
            },
            Err(error) if error.kind() == ErrorKind::NotFound => Err(TreeFault::Missing),
            Err(_) => Err(TreeFault::Unreadable),
        }
    }

    /// The path of the file that was opened last, by this name.
    fn opened_path(&self, name: &str, opened: OpenedFile) -> Result<String, TreeFault> {
        if opened.is_linked {
            return real_path(&self.rt, name);
        }
        match String::from_str(self.rt.alloc(), name) {
            Ok(path) => Ok(path),
            Err(_) => Err(TreeFault::OutOfMemory),
        }
    }

    /// Replaces the file of a path, which was opened last, in its folder, which stays open for the next file.
    fn replace_at(
        &mut self,
        path: &str,
        folder: Folder,
        opened: OpenedFile,
        texts: Texts<'_>,
        writing: Writing,
    ) -> Result<Replaced, TreeFault> {
        let origin = Origin {
            path,
            identity: opened.identity,
        };
        let done = replace(&self.rt, &folder, origin, texts, writing, self.began);
        self.held = Some(folder);
        done
    }

    /// Replaces the file that was opened last.
    fn replace_named(
        &mut self,
        name: &[u8],
        texts: Texts<'_>,
        writing: Writing,
    ) -> Result<Replaced, TreeFault> {
        let name = text_of(name)?;
        let Some(opened) = self.opened else {
            return Err(TreeFault::Changed);
        };
        let path = self.opened_path(name, opened)?;
        let path = path.as_str();
        let place = split_path(path).0;
        let Some(held) = self.held.take() else {
            let folder = Folder::open(&self.rt, place, self.linked.as_slice())?;
            return self.replace_at(path, folder, opened, texts, writing);
        };
        if !held.is_of(place) {
            let folder = Folder::open(&self.rt, place, self.linked.as_slice())?;
            return self.replace_at(path, folder, opened, texts, writing);
        }
        let before = held.identity();
        match self.replace_at(path, held, opened, texts, writing) {
            Err(TreeFault::Changed) => {
                // The path may lead to another folder by now.
                let folder = Folder::open(&self.rt, place, self.linked.as_slice())?;
                if folder.identity() == before {
                    return Err(TreeFault::Changed);
                }
                self.replace_at(path, folder, opened, texts, writing)
            }
            done => done,
        }
    }
}

impl Tree for SystemTree {
    type Reader = FileReader;

    ghost files = { λ s. silent_files };

    ghost faults = { λ s. None };

    ghost asked = { λ s. None };

    #[tactic(auto, using(file_tree::proofs::FileLemmas::silent_noted))]
    fn kind(&mut self, name: &[u8]) -> Result<Kind, TreeFault> {
        self.given_kind_of(name)
    }

    #[tactic(auto, using(file_tree::proofs::FileLemmas::silent_noted))]
    fn entry_kind(&mut self, name: &[u8]) -> Result<Kind, TreeFault> {
        self.entry_kind_of(name)
    }

    #[tactic(auto, using(file_tree::proofs::FileLemmas::silent_noted))]
    fn listing(&mut self, folder: &[u8]) -> Result<Vec<u8>, TreeFault> {
        self.names_in(folder)
    }

    #[tactic(auto, using(file_tree::proofs::FileLemmas::silent_noted))]
    fn full_path(&mut self, folder: &[u8]) -> Result<Vec<u8>, TreeFault> {
        self.full_path_of(folder)
    }

    #[tactic(auto, using(file_tree::proofs::FileLemmas::silent_noted))]
    fn reader(&mut self, name: &[u8]) -> Result<FileReader, TreeFault> {
        self.open(name)
    }

    #[tactic(auto, using(file_tree::proofs::FileLemmas::silent_noted))]
    fn give_back(&mut self, reader: FileReader) {
        let _ = &reader;
    }
}

impl WritableTree for SystemTree {
    #[tactic(auto, using(file_tree::proofs::FileLemmas::silent_noted, file_tree::proofs::FileLemmas::silent_replace))]
    fn replace(
        &mut self,
        name: &[u8],
        old: &[u8],
        new: &[u8],
        writing: Writing,
    ) -> Result<Replaced, TreeFault> {
        self.replace_named(name, Texts { old, new }, writing)
    }
}
