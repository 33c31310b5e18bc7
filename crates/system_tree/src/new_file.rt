//! A file that is replaced by a new one, by a rename.

use crate::beside::{Beside, make};
use crate::folder::{Folder, identity_of};
use crate::in_place::{has_bytes, has_rest, write_over};
use crate::link::split_path;
use crate::patient;
use file_tree::fault::TreeFault;
use file_tree::kind::Identity;
use file_tree::mode::new_mode;
use file_tree::tree::{Replaced, Writing};
use std::fs::{File, Metadata, OpenOptions, Permissions};
use std::io::Write;
use std::os::unix::fs::{MetadataExt, PermissionsExt};
use std::time::SystemTime;

/// The bytes that a file must still have, and its new bytes.
#[derive(Clone, Copy)]
pub struct Texts<'a> {
    pub old: &'a [u8],
    pub new: &'a [u8],
}

/// A file that was read: its path, and its identity.
#[derive(Clone, Copy)]
pub struct Origin<'a> {
    pub path: &'a str,
    pub identity: Identity,
}

/// A file that is to be replaced.
#[derive(Drop)]
pub struct Old<'a> {
    /// The path, which begins with the front of its folder.
    pub path: &'a str,
    pub bytes: &'a [u8],
    pub metadata: Metadata,
}

/// The bytes that a new file gets, and whether it is on the disk before the next one is looked at.
#[derive(Clone, Copy)]
struct Contents<'a> {
    bytes: &'a [u8],
    sync: bool,
}

/// The rights that a new file has from the old one.
#[derive(Clone, Copy)]
struct Kept {
    owner: bool,
    group: bool,
}

/// Gives a new file the owner and the group of the old one, or the group alone if only that is allowed.
fn give_owner(beside: &Beside, old: &Metadata) -> Kept {
    let own = beside.metadata();
    let uid = old.uid();
    let gid = old.gid();
    let is_kept = own.uid() == uid && own.gid() == gid;
    if is_kept || patient::give(beside.file(), Some(uid), gid).is_ok() {
        return Kept {
            owner: true,
            group: true,
        };
    }
    Kept {
        owner: own.uid() == uid,
        group: own.gid() == gid || patient::give(beside.file(), None, gid).is_ok(),
    }
}

/// Gives a new file its bytes, and the owner and the mode of the old one. If the owner can't be given, the new file
/// belongs to the caller, and runs with nobody else's rights. Root may give a file any owner: if that fails, as beyond
/// a quota, the file isn't replaced. Returns whether the group was kept.
fn fill(
    beside: &Beside,
    folder: &Folder,
    old: &Old<'_>,
    new: Contents<'_>,
) -> Result<bool, TreeFault> {
    if !folder.is_safe(beside.metadata().uid(), old.metadata.uid()) {
        return Err(TreeFault::NoneBeside);
    }
    let made = beside.file();
    let mut to = made;
    if to.write_all(new.bytes).is_err() {
        return Err(TreeFault::NotWritten);
    }
    let old_mode = old.metadata.permissions().mode() & 0o7777;
    let kept = give_owner(beside, &old.metadata);
    if !kept.owner && beside.metadata().uid() == 0 {
        return Err(TreeFault::OwnerNotKept);
    }
    let mode = new_mode(old_mode, kept.owner, kept.group);
    if made.set_permissions(Permissions::from_mode(mode)).is_err() {
        return Err(TreeFault::NotWritten);
    }
    if new.sync && made.sync_all().is_err() {
        return Err(TreeFault::NotWritten);
    }
    Ok(kept.group)
}

/// Whether a file is unchanged between two readings of its metadata, as far as its times show.
fn is_same(one: &Metadata, other: &Metadata) -> bool {
    identity_of(one) == identity_of(other)
        && one.len() == other.len()
        && one.mtime() == other.mtime()
        && one.mtime_nsec() == other.mtime_nsec()
        && one.ctime() == other.ctime()
        && one.ctime_nsec() == other.ctime_nsec()
}

/// Whether the old file's name in the folder still leads to the file as it was opened.
fn is_there(rt: &HostRuntime, old: &Old<'_>) -> bool {
    match patient::symlink_metadata(rt, old.path) {
        Ok(now) => is_same(&now, &old.metadata),
        Err(_) => false,
    }
}

/// Fills a new file and renames it over the old one, if that is unchanged. The old name is checked last: changes that
/// another program saves after that are lost.
fn put_in_place(
    rt: &HostRuntime,
    beside: &Beside,
    folder: &Folder,
    file: &mut File,
    old: &Old<'_>,
    new: Contents<'_>,
) -> Result<Replaced, TreeFault> {
    let has_group = fill(beside, folder, old, new)?;
    if !has_bytes(file, old.bytes, old.metadata.len()) {
        return Err(TreeFault::Changed);
    }
    if !beside.is_there(rt) {
        return Err(TreeFault::NotWritten);
    }
    if !is_there(rt, old) {
        return Err(TreeFault::Changed);
    }
    if !beside.put_over(rt, old.path) {
        return Err(TreeFault::NotReplaced);
    }
    Ok(if has_group {
        Replaced::Kept
    } else {
        Replaced::Narrowed
    })
}

/// Makes a file beside the old one, and replaces the old one by it. If this fails, the new file is removed.
fn replace_by_new(
    rt: &HostRuntime,
    folder: &Folder,
    file: &mut File,
    old: &Old<'_>,
    new: Contents<'_>,
    began: Option<SystemTime>,
) -> Result<Replaced, TreeFault> {
    let beside = make(rt, folder, began)?;
    match put_in_place(rt, &beside, folder, file, old, new) {
        Ok(_) if new.sync && !folder.sync() => Err(TreeFault::NotSynced),
        Ok(replaced) => Ok(replaced),
        Err(fault) => {
            beside.remove(rt);
            Err(fault)
        }
    }
}

/// Opens the file that was read, by its path. If a pipe has replaced it, opening for both reading and writing doesn't
/// wait for it.
fn open_old(rt: &HostRuntime, origin: Origin<'_>) -> Result<(File, Metadata), TreeFault> {
    let Ok(file) = OpenOptions::new()
        .read(true)
        .write(true)
        .open(rt, origin.path)
    else {
        return Err(TreeFault::NotWritable);
    };
    match patient::open_metadata(&file) {
        Ok(metadata) if identity_of(&metadata) == origin.identity => Ok((file, metadata)),
        Ok(_) => Err(TreeFault::Changed),
        Err(_) => Err(TreeFault::Unreadable),
    }
}

/// Replaces a file in its folder, if it is the one that was read and still has its old bytes. The run began at `began`.
/// Whether the folder has the file is checked before anything is made there: so the owner of the old file is given the
/// new one only if he already has a file with the same bytes.
pub fn replace(
    rt: &HostRuntime,
    folder: &Folder,
    origin: Origin<'_>,
    texts: Texts<'_>,
    writing: Writing,
    began: Option<SystemTime>,
) -> Result<Replaced, TreeFault> {
    let front = folder.front();
    let name = split_path(origin.path).1;
    let Ok(path) = format!(in rt.alloc(); "{front}{name}") else {
        return Err(TreeFault::OutOfMemory);
    };
    let (mut file, metadata) = open_old(rt, origin)?;
    let old = Old {
        path: path.as_str(),
        bytes: texts.old,
        metadata,
    };
    if !has_rest(&mut file, old.bytes, old.metadata.len()) || !is_there(rt, &old) {
        return Err(TreeFault::Changed);
    }
    let new = Contents {
        bytes: texts.new,
        sync: writing.sync,
    };
    match replace_by_new(rt, folder, &mut file, &old, new, began) {
        Err(TreeFault::NoneBeside | TreeFault::OwnerNotKept | TreeFault::NotReplaced)
            if writing.in_place => {
            if !has_bytes(&mut file, old.bytes, old.metadata.len()) || !is_there(rt, &old) {
                return Err(TreeFault::Changed);
            }
            write_over(&mut file, texts.old, texts.new, writing.sync)?;
            Ok(Replaced::Kept)
        }
        done => done,
    }
}
