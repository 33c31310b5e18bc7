//! Files with several names, from hard links. The names part when a new file replaces one of them, so each name has an
//! identity of its own, by its place; a link to such a file has the identity of the name to which it leads.

use crate::folder::identity_of;
use crate::link::split_path;
use crate::patient;
use file_tree::fault::TreeFault;
use file_tree::kind::Identity;
use std::alloc::Global;
use std::collections::BTreeMap;

/// The device in the identities of these names; no file is on it.
const DEVICE: u64 = u64::MAX;

/// The place of a name: its folder, and the name there.
#[derive(PartialEq, Eq, PartialOrd, Ord, Drop)]
struct Place {
    folder: Identity,
    name: String,
}

/// The places of the names of such files so far, each with a number of its own.
#[derive(Drop)]
pub struct SharedFiles {
    numbers: BTreeMap<Place, u64>,
}

/// The place of a path whose last part is no link.
fn place_of(rt: &HostRuntime, path: &str) -> Result<Place, TreeFault> {
    let (folder, name) = split_path(path);
    let folder = if folder.is_empty() { "./" } else { folder };
    let Ok(metadata) = patient::metadata(rt, folder) else {
        return Err(TreeFault::Unreadable);
    };
    match String::from_str(rt.alloc(), name) {
        Ok(name) => Ok(Place {
            folder: identity_of(&metadata),
            name,
        }),
        Err(_) => Err(TreeFault::OutOfMemory),
    }
}

impl SharedFiles {
    pub fn new(alloc: Global) -> SharedFiles {
        SharedFiles {
            numbers: BTreeMap::new(alloc),
        }
    }

    /// Gives the name at this place the next number.
    fn add(&mut self, place: Place) -> Result<u64, TreeFault> {
        let number = self.numbers.len() as u64;
        match self.numbers.insert(place, number) {
            Ok(_) => Ok(number),
            Err(_) => Err(TreeFault::OutOfMemory),
        }
    }

    /// The identity of the name at a path, whose last part is no link.
    pub fn identity(&mut self, rt: &HostRuntime, path: &str) -> Result<Identity, TreeFault> {
        let place = place_of(rt, path)?;
        let inode = match self.numbers.get(&place) {
            Some(number) => *number,
            None => self.add(place)?,
        };
        Ok(Identity {
            device: DEVICE,
            inode,
        })
    }
}
