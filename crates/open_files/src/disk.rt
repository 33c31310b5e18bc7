//! The device on which the files are that aren't open.

ghost use Rattle.std.specs.Prelude.{◌≡◌, IfOk};
ghost use Rattle.file_tree.specs.Files.{Files};

use file_tree::tree::Tree;
use std::alloc::AllocError;

/// A device from which trees are made when its files are to be looked at.
pub trait Disk {
    type Tree: Tree + Drop;

    /// What it tells of its folders and files.
    ghost files: { Self → Files };

    /// A tree of its files. An error means that memory ran out.
    fn tree(&self) -> Result<Self::Tree, AllocError>
        ensures { IfOk result (λ tree. Self.Tree.files tree ≡ files self.now) };
}
