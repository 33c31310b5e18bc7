//! A folder that is held open, so that a file in it is opened, made, compared and renamed there, wherever the folder's
//! path leads by then.

use crate::patient;
use file_tree::fault::TreeFault;
use file_tree::kind::Identity;
use std::fs::{File, Metadata};
use std::io::ErrorKind;
use std::os::fd::AsRawFd;
use std::os::unix::fs::MetadataExt;

/// The identity of the file or the folder with this metadata.
pub fn identity_of(metadata: &Metadata) -> Identity {
    Identity {
        device: metadata.dev(),
        inode: metadata.ino(),
    }
}

/// A folder, and the front that precedes the names of its files.
#[derive(Drop)]
pub struct Folder {
    /// The folder's own path: empty for the current folder, otherwise with a `/` at its end.
    path: String,
    /// None if the folder can't be read.
    handle: Option<File>,
    metadata: Metadata,
    /// `/proc/PID/fd/N/`: a name after it is looked up in the handle. Without a handle or `/proc`, the folder's path.
    front: String,
    is_held: bool,
}

/// The path of a folder without the `/` at its end, so that a link isn't followed.
fn without_slash(path: &str) -> &str {
    if path.is_empty() {
        return ".";
    }
    match path.strip_suffix("/") {
        Some("") | None => path,
        Some(rest) => rest,
    }
}

/// The path of a folder with the `/` at its end, so that no pipe is opened in its place.
fn with_slash(path: &str) -> &str {
    if path.is_empty() { "./" } else { path }
}

/// The metadata that a path has by now, if it leads to a folder. Its last part may be a link only if the caller named
/// the folder by that link.
fn found_at(rt: &HostRuntime, path: &str, linked: &[Identity]) -> Result<Metadata, TreeFault> {
    let Ok(metadata) = patient::symlink_metadata(rt, without_slash(path)) else {
        return Err(TreeFault::Changed);
    };
    if !metadata.is_symlink() {
        return Ok(metadata);
    }
    let Ok(metadata) = patient::metadata(rt, with_slash(path)) else {
        return Err(TreeFault::Changed);
    };
    if linked.contains(&identity_of(&metadata)) {
        Ok(metadata)
    } else {
        Err(TreeFault::Changed)
    }
}

/// The front for names that are looked up in a handle. With the number of the process the system finds it quicker than
/// with `self`.
fn front_of(rt: &HostRuntime, handle: &File) -> Result<String, TreeFault> {
    let number = handle.as_raw_fd();
    let front = match patient::read_link(rt, "/proc/self") {
        Ok(own) => {
            let own = own.to_string_lossy();
            format!(in rt.alloc(); "/proc/{own}/fd/{number}/")
        }
        Err(error) if error.kind() == ErrorKind::OutOfMemory => return Err(TreeFault::OutOfMemory),
        Err(_) => format!(in rt.alloc(); "/proc/self/fd/{number}/"),
    };
    match front {
        Ok(front) => Ok(front),
        Err(_) => Err(TreeFault::OutOfMemory),
    }
}

impl Folder {
    /// A folder whose files are named by its path.
    fn by_path(
        rt: &HostRuntime,
        path: &str,
        handle: Option<File>,
        metadata: Metadata,
    ) -> Result<Folder, TreeFault> {
        let Ok(own) = String::from_str(rt.alloc(), path) else {
            return Err(TreeFault::OutOfMemory);
        };
        let Ok(front) = String::from_str(rt.alloc(), path) else {
            return Err(TreeFault::OutOfMemory);
        };
        Ok(Folder {
            path: own,
            handle,
            metadata,
            front,
            is_held: false,
        })
    }

    /// A folder whose files are named by its handle, if `/proc` has it.
    fn by_handle(
        rt: &HostRuntime,
        path: &str,
        handle: File,
        metadata: Metadata,
    ) -> Result<Folder, TreeFault> {
        let front = front_of(rt, &handle)?;
        match patient::metadata(rt, front.as_str()) {
            Ok(there) if identity_of(&there) == identity_of(&metadata) => {}
            _ => return Folder::by_path(rt, path, Some(handle), metadata),
        }
        let Ok(own) = String::from_str(rt.alloc(), path) else {
            return Err(TreeFault::OutOfMemory);
        };
        Ok(Folder {
            path: own,
            handle: Some(handle),
            metadata,
            front,
            is_held: true,
        })
    }

    /// Opens a folder, which must be the one to which its path leads.
    pub fn open(rt: &HostRuntime, path: &str, linked: &[Identity]) -> Result<Folder, TreeFault> {
        let metadata = found_at(rt, path, linked)?;
        match File::open(rt, with_slash(path)) {
            Ok(handle) => match patient::open_metadata(&handle) {
                Ok(held) if identity_of(&held) == identity_of(&metadata) => {
                    Folder::by_handle(rt, path, handle, metadata)
                }
                _ => Err(TreeFault::Changed),
            },
            Err(error) if error.kind() == ErrorKind::PermissionDenied => {
                Folder::by_path(rt, path, None, metadata)
            }
            Err(_) => Err(TreeFault::NotWritable),
        }
    }

    /// The identity of the folder.
    pub fn identity(&self) -> Identity {
        identity_of(&self.metadata)
    }

    /// Whether this path led to the folder when it was opened.
    pub fn is_of(&self, path: &str) -> bool {
        self.path.as_str() == path
    }

    /// The front that precedes the name of a file in the folder.
    pub fn front(&self) -> &str {
        self.front.as_str()
    }

    /// Whether nobody but the caller and root can put another file into the folder.
    fn is_own(&self, caller: u32) -> bool {
        let owner = self.metadata.uid();
        (owner == caller || owner == 0) && self.metadata.mode() & 0o022 == 0
    }

    /// Whether a file of this owner can be replaced here. If the folder isn't held, another user may lead the steps
    /// into different folders by exchanging a folder above, so only the caller is given a file.
    pub fn is_safe(&self, caller: u32, owner: u32) -> bool {
        self.is_held || (owner == caller && self.is_own(caller))
    }

    /// Syncs the names in the folder to the disk, and returns whether that succeeded.
    pub fn sync(&self) -> bool {
        match &self.handle {
            Some(handle) => handle.sync_all().is_ok(),
            None => false,
        }
    }
}
