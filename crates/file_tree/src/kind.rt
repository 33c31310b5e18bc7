//! What a name stands for.

ghost use Rattle.std.specs.Prelude.{◌≡◌};
ghost use Rattle.file_tree.specs.Files.{is_link};

/// The identity of a file; for a file with several names, the identity of this name.
#[derive(Clone, Copy, Debug, PartialEq, Eq, PartialOrd, Ord)]
pub struct Identity {
    pub device: u64,
    pub inode: u64,
}

/// What a name stands for.
#[derive(Clone, Copy, Debug, PartialEq, Eq)]
pub enum Kind {
    File(Identity),
    Folder,
    Link,
    /// A pipe, a socket or a device.
    Other,
}

impl Kind {
    pub fn is_link(self) -> bool
        ensures { result ≡ is_link self }
    {
        matches!(self, Kind::Link)
    }
}
