//! Why a call on a file or a folder failed.

ghost use Rattle.std.specs.Prelude.{◌≡◌};
ghost use Rattle.file_tree.specs.FaultTexts.{tree_fault_text};

/// Why a call on a file or a folder failed.
#[derive(Clone, Copy, Debug, PartialEq, Eq, PartialOrd, Ord)]
pub enum TreeFault {
    /// The name isn't UTF-8, so the device can't take it.
    NotUtf8,
    /// It was named, and its name isn't that of a file that is taken.
    OtherKind,
    Missing,
    /// `-` names no file: it isn't standard input.
    NoInput,
    DeadLink,
    NotAFile,
    Unreadable,
    UnreadableFolder,
    /// A link leads to links without end.
    EndlessLink,
    /// A link leads to a name that isn't UTF-8.
    LinkNotUtf8,
    /// The full path of a folder can't be found.
    NoFullPath,
    NotWritable,
    /// No file can be made beside it.
    NoneBeside,
    /// A new file can't be given its owner.
    OwnerNotKept,
    NotWritten,
    /// Another program changed the file after it was read.
    Changed,
    NotReplaced,
    /// It was to be written in place, and has a part of the new bytes.
    WrittenInPart,
    /// It has its new bytes, which a power cut may still take.
    NotSynced,
    ReadFailed,
    OutOfMemory,
}

impl TreeFault {
    /// Its message, after the name and a colon.
    pub fn text(self) -> &'static str
        ensures { result.now ≡ tree_fault_text self }
    {
        match self {
            TreeFault::NotUtf8 => "the name isn't UTF-8",
            TreeFault::OtherKind => "not named as a Terraform file; --any-name formats it",
            TreeFault::Missing => "no such file or folder",
            TreeFault::NoInput =>
                "no such file or folder; tffmt reads standard input, and tffmt-all formats files",
            TreeFault::DeadLink => "the link leads nowhere",
            TreeFault::NotAFile => "not a file",
            TreeFault::Unreadable => "cannot be read",
            TreeFault::UnreadableFolder => "the folder cannot be read",
            TreeFault::EndlessLink => "the link cannot be followed",
            TreeFault::LinkNotUtf8 => "the link leads to a name that isn't UTF-8",
            TreeFault::NoFullPath => "its full path isn't known",
            TreeFault::NotWritable => "cannot be written",
            TreeFault::NoneBeside => "no file can be made beside it",
            TreeFault::OwnerNotKept => "its owner cannot be kept; left as it is",
            TreeFault::NotWritten => "could not be written; left as it is",
            TreeFault::Changed => "changed while it was read; left as it is",
            TreeFault::NotReplaced => "cannot be replaced",
            TreeFault::WrittenInPart => "could not be written whole",
            TreeFault::NotSynced => "written, but may not be on the disk",
            TreeFault::ReadFailed => "read failed",
            TreeFault::OutOfMemory => "out of memory",
        }
    }
}
