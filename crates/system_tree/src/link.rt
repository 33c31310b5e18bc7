//! The files that links lead to, by paths relative to the link: the path of the current folder isn't needed, which may
//! have bytes that aren't UTF-8.

use crate::patient;
use file_tree::fault::TreeFault;
use std::io::ErrorKind;

/// The most links that are followed, as many as the system follows.
const LINKS: u32 = 40;

/// The folder of a path, with the `/` at its end, and the name in it.
pub fn split_path(path: &str) -> (&str, &str) {
    match path.rsplit_once('/') {
        Some((folder, name)) => (&path[..folder.len() + 1], name),
        None => ("", path),
    }
}

/// A path to the target of a link.
fn target(rt: &HostRuntime, link: &str) -> Result<String, TreeFault> {
    let target = match patient::read_link(rt, link) {
        Ok(target) => target,
        Err(error) if error.kind() == ErrorKind::InvalidFilename => {
            return Err(TreeFault::LinkNotUtf8);
        }
        Err(_) => return Err(TreeFault::EndlessLink),
    };
    let Some(target) = target.to_str() else {
        return Err(TreeFault::LinkNotUtf8);
    };
    let (folder, _) = split_path(link);
    let folder = if target.starts_with('/') { "" } else { folder };
    match format!(in rt.alloc(); "{folder}{target}") {
        Ok(path) => Ok(path),
        Err(_) => Err(TreeFault::OutOfMemory),
    }
}

/// A path to the file or folder that a path leads to; its last part is no link.
pub fn follow_links(rt: &HostRuntime, path: &str) -> Result<String, TreeFault> {
    let Ok(mut path) = String::from_str(rt.alloc(), path) else {
        return Err(TreeFault::OutOfMemory);
    };
    for _ in 0..LINKS {
        match patient::symlink_metadata(rt, path.as_str()) {
            Ok(metadata) if metadata.is_symlink() => path = target(rt, path.as_str())?,
            Ok(_) => return Ok(path),
            Err(_) => return Err(TreeFault::Unreadable),
        }
    }
    Err(TreeFault::EndlessLink)
}

/// The path of the file that a linked path leads to, in a folder whose last part is no link.
fn in_folder(rt: &HostRuntime, path: &str) -> Result<String, TreeFault> {
    let (folder, name) = split_path(path);
    match folder.strip_suffix("/") {
        None | Some("") => match String::from_str(rt.alloc(), path) {
            Ok(path) => Ok(path),
            Err(_) => Err(TreeFault::OutOfMemory),
        },
        Some(bare) => {
            let folder = follow_links(rt, bare)?;
            match format!(in rt.alloc(); "{folder}/{name}") {
                Ok(path) => Ok(path),
                Err(_) => Err(TreeFault::OutOfMemory),
            }
        }
    }
}

/// A path of the file that a name leads to, whose last part is no link: the name itself if it is none.
pub fn real_path(rt: &HostRuntime, name: &str) -> Result<String, TreeFault> {
    let path = follow_links(rt, name)?;
    if path.as_str() == name {
        return Ok(path);
    }
    in_folder(rt, path.as_str())
}
