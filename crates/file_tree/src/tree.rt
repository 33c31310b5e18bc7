//! The device on which files are found, read and replaced.

ghost use Rattle.std.specs.Prelude.{◌≡◌, Err, None, false, OnOk, OnErr, IfOk};
ghost use Rattle.file_tree.specs.Asked.{Asked, with_asked};
ghost use Rattle.file_tree.specs.Files.{Faults, Files, fault_of, fault_of_reader, with_fault, with_bytes};
ghost use Rattle.file_tree.specs.declared.fault.TreeFault.TheVariants.{Missing};
ghost use Rattle.hcl_source.specs.Devices.{Tells};

use crate::fault::TreeFault;
use crate::kind::Kind;
use hcl_source::ByteSource;

/// How files are replaced.
#[derive(Clone, Copy)]
pub struct Writing {
    /// A file is overwritten if no new one can be made beside it, and may end half written.
    pub in_place: bool,
    /// Each new file and its folder are on the disk before the next one is looked at.
    pub sync: bool,
}

/// The effect of a replacement on the rights to the file.
#[derive(Clone, Copy)]
pub enum Replaced {
    /// Everybody has the rights that he had.
    Kept,
    /// Its group couldn't be kept, so its group and all others now have the rights that both had.
    Narrowed,
}

/// Folders and files by their names, which are bytes: the calls that read them.
pub trait Tree {
    type Reader: ByteSource + Drop;

    /// What the device tells of its folders and files.
    ghost files: { Self → Files };

    /// The faults of its calls so far, if the device tells them.
    ghost faults: { Self → Faults };

    /// The replacements that its calls were asked for so far, with their answers, if the device tells them.
    ghost asked: { Self → Asked };

    /// What a name stands for, links followed.
    fn kind(&mut self, name: &[u8]) -> Result<Kind, TreeFault>
        ensures kind { IfOk result (Tells ((files self.old).kind name.now)) }
        ensures files { files self.new ≡ files self.old }
        ensures faults { faults self.new ≡ with_fault (faults self.old) (fault_of result) }
        ensures asked { asked self.new ≡ asked self.old };

    /// What a name stands for, a link being a kind of its own.
    fn entry_kind(&mut self, name: &[u8]) -> Result<Kind, TreeFault>
        ensures kind { IfOk result (Tells ((files self.old).entry name.now)) }
        // It says that a name doesn't exist only if the device doesn't tell that it does.
        ensures missing { result ≡ Err Missing → (files self.old).entry name.now ≡ None }
        ensures files { files self.new ≡ files self.old }
        ensures faults { faults self.new ≡ with_fault (faults self.old) (fault_of result) }
        ensures asked { asked self.new ≡ asked self.old };

    /// The names in a folder, in any order, each ended by NUL.
    fn listing(&mut self, folder: &[u8]) -> Result<Vec<u8>, TreeFault>
        ensures names { IfOk result
            (λ names. Tells ((files self.old).listing folder.now) names.items) }
        ensures files { files self.new ≡ files self.old }
        ensures faults { faults self.new ≡ with_fault (faults self.old) (fault_of result) }
        ensures asked { asked self.new ≡ asked self.old };

    /// The full path of a folder, links followed, with a `/` at its end.
    fn full_path(&mut self, folder: &[u8]) -> Result<Vec<u8>, TreeFault>
        ensures path { IfOk result
            (λ path. Tells ((files self.old).path folder.now) path.items) }
        ensures files { files self.new ≡ files self.old }
        ensures faults { faults self.new ≡ with_fault (faults self.old) (fault_of result) }
        ensures asked { asked self.new ≡ asked self.old };

    /// A reader of the file of this name, from its start.
    fn reader(&mut self, name: &[u8]) -> Result<Self::Reader, TreeFault>
        ensures fresh { IfOk result (λ r. Self.Reader.failed r ≡ false) }
        ensures bytes { IfOk result
            (λ r. Self.Reader.left r ≡ (files self.old).told ((files self.old).real name.now)) }
        ensures files { files self.new ≡ files self.old }
        ensures faults { faults self.new ≡ with_fault (faults self.old) (fault_of result) }
        ensures asked { asked self.new ≡ asked self.old };

    /// Takes a reader back after its last read. If the reader failed, this call has its fault.
    fn give_back(&mut self, reader: Self::Reader)
        ensures files { files self.new ≡ files self.old }
        ensures faults { faults self.new ≡ with_fault (faults self.old)
            (fault_of_reader (Self.Reader.failed reader)) }
        ensures asked { asked self.new ≡ asked self.old };
}

/// Folders and files that can be changed.
pub trait WritableTree: Tree {
    /// Replaces the old bytes by new ones, all or none: if that fails, or the file has other bytes by now, it stays as
    /// it is.
    fn replace(
        &mut self,
        name: &[u8],
        old: &[u8],
        new: &[u8],
        writing: Writing,
    ) -> Result<Replaced, TreeFault>
        // The old bytes are those of the file, if the device tells them.
        requires old { Tells ((Self.files self.old).told ((Self.files self.old).real name.now))
            old.now }
        ensures ok { OnOk result (Self.files self.new ≡ with_bytes (Self.files self.old)
            ((Self.files self.old).real name.now) new.now) }
        ensures err { OnErr result (Self.files self.new ≡ Self.files self.old) }
        ensures faults { Self.faults self.new
            ≡ with_fault (Self.faults self.old) (fault_of result) }
        ensures asked { Self.asked self.new ≡ with_asked (Self.asked self.old)
            (record {
              name = name.now;
              old = old.now;
              new = new.now;
              writing = writing;
              answer = result;
            }) };
}
