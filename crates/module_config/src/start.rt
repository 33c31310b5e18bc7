//! Where a run begins.

ghost use Rattle.std.specs.Prelude.{◌≡◌};
ghost use Rattle.file_tree.specs.Unchanged.{Unchanged};
ghost use Rattle.module_config.specs.Governors.{IsStart, shown_from};

use file_tree::fault::TreeFault;
use file_tree::tree::Tree;

/// The current folder, as far as it has to be known.
#[derive(Drop)]
pub enum Start {
    /// No `.tfrules` is searched for.
    Unneeded,
    /// Its full path isn't known, for this reason.
    Unknown(TreeFault),
    /// Its full path, with a `/` at its end.
    At(Vec<u8>),
}

impl Start {
    /// Where a run begins, if that has to be known.
    pub(crate) fn find<T: Tree>(is_needed: bool, tree: &mut T) -> Start
        ensures unchanged { Unchanged T.Tree tree.old tree.new }
        ensures is { IsStart (T.files tree.old) is_needed (T.faults tree.old) (T.faults tree.new)
            result }
    {
        if !is_needed {
            return Start::Unneeded;
        }
        match tree.full_path(b"./") {
            Ok(path) => Start::At(path),
            Err(fault) => Start::Unknown(fault),
        }
    }

    /// A full path as it is shown: from the current folder, if it is below it.
    pub(crate) fn display_path<'n>(&self, path: &'n [u8]) -> &'n [u8]
        ensures { result.now ≡ shown_from self.now path.entry.now }
    {
        let Start::At(current) = self else {
            return path;
        };
        if !path.starts_with(current.as_slice()) {
            return path;
        }
        &path[current.len()..]
    }
}
