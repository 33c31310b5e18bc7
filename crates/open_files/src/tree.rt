//! A tree with the texts of open documents over its files.

ghost use Rattle.std.specs.Prelude.{◌≡◌, None};
ghost use Rattle.open_files.specs.OpenTexts.{with_open};

use crate::documents::Documents;
use crate::reader::OpenReader;
use file_tree::fault::TreeFault;
use file_tree::kind::{Identity, Kind};
use file_tree::tree::Tree;
use hcl_source::FromRead;
use std::alloc::Global;
use std::io::Cursor;

/// The identity of each open document.
const OPEN_IDENTITY: Identity = Identity {
    device: 0,
    inode: 0,
};

/// A tree with the texts of open documents over its files. Nothing can be written to it, and it doesn't tell the faults
/// of its calls.
#[derive(Drop)]
pub struct OpenFiles<'t, T: Drop> {
    alloc: Global,
    documents: &'t Documents,
    tree: T,
}

impl<'t, T: Drop> OpenFiles<'t, T> {
    /// The files of a tree, and these documents over them.
    pub fn new(alloc: Global, documents: &'t Documents, tree: T) -> OpenFiles<'t, T>
        ensures documents { result.documents.now ≡ documents.now }
        ensures tree { result.tree ≡ tree }
    {
        OpenFiles {
            alloc,
            documents,
            tree,
        }
    }
}

impl<'t, T: Tree + Drop> Tree for OpenFiles<'t, T> {
    type Reader = OpenReader<FromRead<Cursor<Vec<u8>>>, T::Reader>;

    ghost files = { λ s. with_open s.documents.now (T.files s.tree) };

    ghost faults = { λ s. None };

    ghost asked = { λ s. T.asked s.tree };

    #[tactic(auto, using(file_tree::proofs::FileLemmas::silent_noted))]
    fn kind(&mut self, name: &[u8]) -> Result<Kind, TreeFault> {
        if self.documents.text_at(name).is_some() {
            return Ok(Kind::File(OPEN_IDENTITY));
        }
        self.tree.kind(name)
    }

    #[tactic(auto, using(file_tree::proofs::FileLemmas::silent_noted))]
    fn entry_kind(&mut self, name: &[u8]) -> Result<Kind, TreeFault> {
        if self.documents.text_at(name).is_some() {
            return Ok(Kind::File(OPEN_IDENTITY));
        }
        self.tree.entry_kind(name)
    }

    #[tactic(auto, using(file_tree::proofs::FileLemmas::silent_noted))]
    fn listing(&mut self, folder: &[u8]) -> Result<Vec<u8>, TreeFault> {
        let mut names = match self.tree.listing(folder) {
            Ok(names) => names,
            Err(fault) => return Err(fault),
        };
        match self.documents.add_names(&mut names, folder) {
            Ok(()) => Ok(names),
            Err(_) => Err(TreeFault::OutOfMemory),
        }
    }

    #[tactic(auto, using(file_tree::proofs::FileLemmas::silent_noted))]
    fn full_path(&mut self, folder: &[u8]) -> Result<Vec<u8>, TreeFault> {
        self.tree.full_path(folder)
    }

    #[tactic(auto, using(file_tree::proofs::FileLemmas::silent_noted))]
    fn reader(
        &mut self,
        name: &[u8],
    ) -> Result<OpenReader<FromRead<Cursor<Vec<u8>>>, T::Reader>, TreeFault> {
        if let Some(text) = self.documents.text_at(name) {
            return match Vec::from_slice(self.alloc, text.as_bytes()) {
                Ok(bytes) => Ok(OpenReader::Text(FromRead::new(Cursor::new(bytes)))),
                Err(_) => Err(TreeFault::OutOfMemory),
            };
        }
        match self.tree.reader(name) {
            Ok(reader) => Ok(OpenReader::File(reader)),
            Err(fault) => Err(fault),
        }
    }

    #[tactic(auto, using(file_tree::proofs::FileLemmas::silent_noted))]
    fn give_back(&mut self, reader: OpenReader<FromRead<Cursor<Vec<u8>>>, T::Reader>) {
        if let OpenReader::File(reader) = reader {
            self.tree.give_back(reader);
        }
    }
}
