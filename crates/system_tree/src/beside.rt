//! The new file beside the old one, until it replaces the old one.
//!
//! A run locks the file that it makes at once, and holds the lock until the file is renamed or removed. A file that an
//! earlier run left is removed only by a run that has its lock, and only while its name still leads to it. So no other
//! run touches the name of a locked file. A file may be taken for a leftover before its own run has locked it; that run
//! then gives the file up: it doesn't get the lock, or finds, before the rename, that the name leads to another file or
//! to none.

use crate::folder::{Folder, identity_of};
use crate::patient;
use file_tree::fault::TreeFault;
use file_tree::kind::Identity;
use std::fs::{File, Metadata, OpenOptions, TryLockError};
use std::io;
use std::io::ErrorKind;
use std::os::unix::fs::{MetadataExt, OpenOptionsExt};
use std::time::SystemTime;

/// How many names are tried for the new file.
const TRIES: u32 = 1_000;

/// A new file beside the old one.
#[derive(Drop)]
pub struct Beside {
    path: String,
    file: File,
    /// The metadata that the file had when it was made.
    metadata: Metadata,
}

/// Whether the metadata that was found is that of the file with this identity.
fn is_of(found: io::Result<Metadata>, identity: Identity) -> bool {
    match found {
        Ok(metadata) => identity_of(&metadata) == identity,
        Err(_) => false,
    }
}

impl Beside {
    pub fn file(&self) -> &File {
        &self.file
    }

    pub fn metadata(&self) -> &Metadata {
        &self.metadata
    }

    /// Whether the file's name still leads to it.
    pub fn is_there(&self, rt: &HostRuntime) -> bool {
        let found = patient::symlink_metadata(rt, self.path.as_str());
        is_of(found, identity_of(&self.metadata))
    }

    /// Renames the file over another.
    pub fn put_over(&self, rt: &HostRuntime, path: &str) -> bool {
        patient::rename(rt, self.path.as_str(), path).is_ok()
    }

    /// Removes the file, unless its name is known to lead to another file by now, or to none.
    pub fn remove(&self, rt: &HostRuntime) {
        let is_gone = match patient::symlink_metadata(rt, self.path.as_str()) {
            Ok(found) => identity_of(&found) != identity_of(&self.metadata),
            Err(error) => error.kind() == ErrorKind::NotFound,
        };
        if !is_gone {
            let _ = patient::remove_file(rt, self.path.as_str());
        }
    }
}

/// The path of a file beside the old one.
fn path_beside(rt: &HostRuntime, folder: &Folder, number: u32) -> Result<String, TreeFault> {
    let front = folder.front();
    match format!(in rt.alloc(); "{front}.tffmt.{number}") {
        Ok(path) => Ok(path),
        Err(_) => Err(TreeFault::OutOfMemory),
    }
}

/// Makes a file of this path, which nobody but its owner can read, and locks it if the file system has locks. Returns
/// none if another file has the path, or another run takes this file for a leftover.
fn make_at(rt: &HostRuntime, path: String) -> Result<Option<Beside>, TreeFault> {
    let opened = OpenOptions::new()
        .write(true)
        .create_new(true)
        .mode(0o600)
        .open(rt, path.as_str());
    let file = match opened {
        Ok(file) => file,
        Err(error) if error.kind() == ErrorKind::AlreadyExists => return Ok(None),
        Err(_) => return Err(TreeFault::NoneBeside),
    };
    if let Err(TryLockError::WouldBlock) = file.try_lock() {
        return Ok(None);
    }
    match patient::open_metadata(&file) {
        Ok(metadata) => Ok(Some(Beside {
            path,
            file,
            metadata,
        })),
        Err(_) => {
            let _ = patient::remove_file(rt, path.as_str());
            Err(TreeFault::NotWritten)
        }
    }
}

/// Makes a file beside the old one under the first free name. Returns none if no name is free.
fn make_new(rt: &HostRuntime, folder: &Folder) -> Result<Option<Beside>, TreeFault> {
    for number in 0..TRIES {
        let path = path_beside(rt, folder, number)?;
        if let Some(beside) = make_at(rt, path)? {
            return Ok(Some(beside));
        }
    }
    Ok(None)
}

/// Whether a file is the caller's and older than this run.
fn is_older(metadata: &Metadata, caller: u32, began: SystemTime) -> bool {
    match metadata.modified() {
        Ok(changed) => metadata.is_file() && metadata.uid() == caller && changed < began,
        Err(_) => false,
    }
}

/// Removes a file that a run of the caller left when it was cut off before this run began. Returns whether it did.
fn remove_left(rt: &HostRuntime, path: &str, caller: u32, began: SystemTime) -> bool {
    let identity = match patient::symlink_metadata(rt, path) {
        Ok(metadata) if is_older(&metadata, caller, began) => identity_of(&metadata),
        _ => return false,
    };
    // If a pipe has replaced the file, opening for both reading and writing doesn't wait for it.
    let Ok(file) = OpenOptions::new().read(true).write(true).open(rt, path) else {
        return false;
    };
    file.try_lock().is_ok()
        && is_of(patient::open_metadata(&file), identity)
        && is_of(patient::symlink_metadata(rt, path), identity)
        && patient::remove_file(rt, path).is_ok()
}

/// The user of this process, if there is a `/proc`.
fn caller(rt: &HostRuntime) -> Option<u32> {
    match patient::metadata(rt, "/proc/self") {
        Ok(metadata) => Some(metadata.uid()),
        Err(_) => None,
    }
}

/// Makes a file beside the old one, in place of the first one that a run left.
fn make_over(
    rt: &HostRuntime,
    folder: &Folder,
    began: Option<SystemTime>,
) -> Result<Option<Beside>, TreeFault> {
    let (Some(began), Some(caller)) = (began, caller(rt)) else {
        return Ok(None);
    };
    for number in 0..TRIES {
        let path = path_beside(rt, folder, number)?;
        if remove_left(rt, path.as_str(), caller, began)
            && let Some(beside) = make_at(rt, path)?
        {
            return Ok(Some(beside));
        }
    }
    Ok(None)
}

/// Makes a file beside the old one. The run began at `began`.
pub fn make(
    rt: &HostRuntime,
    folder: &Folder,
    began: Option<SystemTime>,
) -> Result<Beside, TreeFault> {
    if let Some(beside) = make_new(rt, folder)? {
        return Ok(beside);
    }
    match make_over(rt, folder, began)? {
        Some(beside) => Ok(beside),
        None => Err(TreeFault::NoneBeside),
    }
}
