//! The entries of a tree in memory.

use file_tree::kind::{Identity, Kind};

/// The entry under a name.
#[derive(Clone, Copy, PartialEq, Eq)]
pub enum Stands<'a> {
    Folder,
    /// A file of these bytes.
    File(&'a [u8]),
    /// A file of these bytes, which another program changes after it was read.
    Busy(&'a [u8]),
    /// A file of these bytes, which has this other name too. If one of the two is replaced, the other keeps its bytes.
    Same(&'a [u8], &'a [u8]),
    /// A file that is gone before it is opened.
    Gone,
    /// A link to this name.
    Link(&'a [u8]),
    Pipe,
}

impl<'a> Stands<'a> {
    /// Its kind, with links not followed, if its file is this one.
    pub fn kind(self, identity: Identity) -> Kind {
        match self {
            Stands::Folder => Kind::Folder,
            Stands::File(_) | Stands::Busy(_) | Stands::Same(_, _) | Stands::Gone => {
                Kind::File(identity)
            }
            Stands::Link(_) => Kind::Link,
            Stands::Pipe => Kind::Other,
        }
    }
}

/// A name with its entry. A folder has no slash at its end, and the current one no name.
#[derive(Clone, Copy)]
pub struct MemoryEntry<'a> {
    pub name: &'a [u8],
    pub stands: Stands<'a>,
}
