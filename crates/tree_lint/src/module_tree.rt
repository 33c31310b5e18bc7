//! The files of a tree, as files of modules.

ghost use Rattle.std.specs.Prelude.{◌≡◌, IfOk, false, is_err, not, true};
ghost use Rattle.file_tree.specs.Files.{fault_of, fault_of_reader, with_fault};
ghost use Rattle.file_tree.specs.Unchanged.{Unchanged};
ghost use Rattle.tree_lint.specs.Readers.{Leaves, has_reader_out};
ghost use Rattle.module_find.specs.Modules.{bytes_of_name};
ghost use Rattle.tree_lint.specs.Inner.Gathering.{ReadsFile, StopsLoad};

use crate::stop::Stop;
use file_tree::fault::TreeFault;
use file_tree::tree::Tree;
use hcl_scan::{ByteSource, LoadError, Source};
use std::alloc::Global;
use tfrules_command::Hashing;

/// A tree whose files are read one at a time, one module after another.
#[derive(Drop)]
pub struct ModuleTree<T: Drop> {
    pub tree: T,
    hashing: Hashing,
    is_out: bool,
}

/// A loaded text, or why it can't be kept.
fn stop_of(alloc: Global, loaded: Result<Source, LoadError>) -> Result<Source, Stop>
    ensures { StopsLoad loaded result }
{
    match loaded {
        Ok(source) => Ok(source),
        Err(LoadError::Fault(fault)) => Err(Stop::Refused(fault, Vec::new(alloc))),
        Err(LoadError::ReadFailed) => Err(Stop::Failed(TreeFault::ReadFailed)),
        Err(LoadError::OutOfMemory) => Err(Stop::Failed(TreeFault::OutOfMemory)),
    }
}

impl<T: Tree + Drop> ModuleTree<T> {
    /// The files of a tree, with no file open. The names in them are hashed as `hashing` says.
    pub fn new(tree: T, hashing: Hashing) -> ModuleTree<T>
        ensures tree { result.tree ≡ tree }
        ensures hashing { result.hashing ≡ hashing }
        ensures back { has_reader_out result ≡ false }
    {
        ModuleTree {
            tree,
            hashing,
            is_out: false,
        }
    }

    /// How names in the files are hashed.
    pub(crate) fn hashing(&self) -> Hashing
        ensures { result ≡ self.now.hashing }
    {
        self.hashing
    }

    /// Opens a file.
    fn open(&mut self, name: &str) -> Result<T::Reader, TreeFault>
        requires back { has_reader_out self.old ≡ false }
        ensures fresh { IfOk result (λ r. T.Reader.failed r ≡ false) }
        ensures bytes { IfOk result
            (λ r. T.Reader.left r ≡ bytes_of_name (T.files self.old.tree) name.now) }
        ensures unchanged { Unchanged T.Tree self.old.tree self.new.tree }
        ensures faults { T.faults self.new.tree
            ≡ with_fault (T.faults self.old.tree) (fault_of result) }
        ensures out { has_reader_out self.new ≡ not (is_err result) }
    {
        let opened = self.tree.reader(name.as_bytes());
        self.is_out = opened.is_ok();
        opened
    }

    /// Closes the file that is open.
    fn close(&mut self, reader: T::Reader)
        requires out { has_reader_out self.old ≡ true }
        ensures unchanged { Unchanged T.Tree self.old.tree self.new.tree }
        ensures faults { T.faults self.new.tree
            ≡ with_fault (T.faults self.old.tree) (fault_of_reader (T.Reader.failed reader)) }
        ensures back { has_reader_out self.new ≡ false }
    {
        self.is_out = false;
        self.tree.give_back(reader);
    }

    /// Reads a file.
    pub(crate) fn read(&mut self, alloc: Global, name: &str) -> Result<Source, Stop>
        requires back { has_reader_out self.old ≡ false }
        ensures reads { ReadsFile (bytes_of_name (T.files self.old.tree) name.now)
            (T.faults self.old.tree) (T.faults self.new.tree) result }
        ensures leaves { Leaves T.Tree self.old self.new }
    {
        let mut reader = match self.open(name) {
            Ok(reader) => reader,
            Err(fault) => return Err(Stop::Failed(fault)),
        };
        let loaded = Source::read_from(alloc, &mut reader);
        self.close(reader);
        stop_of(alloc, loaded)
    }
}
