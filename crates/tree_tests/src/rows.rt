//! Trees, words and outcomes, worked out by hand.

use crate::compared::Words;
use crate::expected::{Lines, Said};
use file_tree::fault::TreeFault;
use tree_devices::entry::{MemoryEntry, Stands};

/// The output of a run that looks at no file, on both streams, and its status.
pub type Text = (&'static str, &'static str, u8);

/// A run, and its expected output if nothing fails.
#[derive(Clone, Copy)]
pub struct Row {
    pub words: Words,
    pub input: &'static [u8],
    pub entries: &'static [MemoryEntry<'static>],
    /// No file can be made beside another.
    pub making: bool,
    /// Files are overwritten if none can replace them.
    pub in_place: bool,
    /// The output if it looks at no file.
    pub text: Option<Text>,
    /// The outcome for each name.
    pub lines: Lines,
}

/// Four files that are taken; one is formatted and one is reached by a link.
pub const SMALL: &[MemoryEntry<'static>] = &[
    MemoryEntry {
        name: b"",
        stands: Stands::Folder,
    },
    MemoryEntry {
        name: b"link.tf",
        stands: Stands::Link(b"in/c"),
    },
    MemoryEntry {
        name: b"b.tf",
        stands: Stands::File(b"b=1\n"),
    },
    MemoryEntry {
        name: b"notes.txt",
        stands: Stands::File(b"n=1\n"),
    },
    MemoryEntry {
        name: b".hidden",
        stands: Stands::Folder,
    },
    MemoryEntry {
        name: b"in",
        stands: Stands::Folder,
    },
    MemoryEntry {
        name: b"in/deep",
        stands: Stands::Folder,
    },
    MemoryEntry {
        name: b"in/deep/d.tfvars",
        stands: Stands::File(b"d=1\n"),
    },
    MemoryEntry {
        name: b"in/c",
        stands: Stands::File(b"c=1\n"),
    },
    MemoryEntry {
        name: b"a.tf",
        stands: Stands::File(b"a = 1\n"),
    },
    MemoryEntry {
        name: b"pipe.tf",
        stands: Stands::Pipe,
    },
];

const WRITTEN: Lines = &[
    (b"a.tf", Said::Formatted),
    (b"b.tf", Said::Written(b"b.tf", b"b = 1\n")),
    (
        b"in/deep/d.tfvars",
        Said::Written(b"in/deep/d.tfvars", b"d = 1\n"),
    ),
    (b"link.tf", Said::Written(b"in/c", b"c = 1\n")),
];

const NAMED: Lines = &[
    (b"b.tf", Said::Written(b"b.tf", b"b = 1\n")),
    (
        b"in/deep/d.tfvars",
        Said::Written(b"in/deep/d.tfvars", b"d = 1\n"),
    ),
];

const CHECKED: Lines = &[
    (b"a.tf", Said::Formatted),
    (b"b.tf", Said::NotFormatted),
    (b"in/deep/d.tfvars", Said::NotFormatted),
    (b"link.tf", Said::NotFormatted),
];

const LISTED: Lines = &[
    (b"a.tf", Said::Formatted),
    (b"in/deep/d.tfvars", Said::Listed),
];

const SHOWN: Lines = &[
    (b"a.tf", Said::Formatted),
    (
        b"b.tf",
        Said::Shown(b"--- old/b.tf\n+++ new/b.tf\n@@ -1 +1 @@\n-b=1\n+b = 1\n"),
    ),
];

/// Files of every kind.
const MIXED: &[MemoryEntry<'static>] = &[
    MemoryEntry {
        name: b"",
        stands: Stands::Folder,
    },
    MemoryEntry {
        name: b"gone.tf",
        stands: Stands::Gone,
    },
    MemoryEntry {
        name: b"dead.tf",
        stands: Stands::Link(b"nowhere"),
    },
    MemoryEntry {
        name: b"busy.tf",
        stands: Stands::Busy(b"b=1\n"),
    },
    MemoryEntry {
        name: b"bad.tf",
        stands: Stands::File(b"a=\n"),
    },
    MemoryEntry {
        name: b"in",
        stands: Stands::Folder,
    },
    MemoryEntry {
        name: b"in/\xff.tf",
        stands: Stands::File(b"x=1\n"),
    },
    MemoryEntry {
        name: b"in/good.tf",
        stands: Stands::File(b"g=1\n"),
    },
    MemoryEntry {
        name: b"linked",
        stands: Stands::Link(b"in"),
    },
];

const OF_MIXED: Lines = &[
    (b"bad.tf", Said::Refused("1", "3", "unexpected token")),
    (b"busy.tf", Said::Failed(TreeFault::Changed)),
    (b"dead.tf", Said::Failed(TreeFault::DeadLink)),
    (b"gone.tf", Said::Failed(TreeFault::Missing)),
    (b"in/good.tf", Said::Written(b"in/good.tf", b"g = 1\n")),
    (b"in/\xff.tf", Said::Failed(TreeFault::NotUtf8)),
];

/// The message for a line that isn't this program's.
pub const USAGE: &str = "\
usage: tffmt-all [--check | --diff | --list] [--in-place] [--sync] [--quiet]
                 [--shard K/N] [--exclude PATH]... [--any-name] [--null] [--]
                 [FILE|FOLDER]...
";

/// The message for such a line with `--bogus`.
const BOGUS: &str = "\
tffmt-all: error: unknown option --bogus
usage: tffmt-all [--check | --diff | --list] [--in-place] [--sync] [--quiet]
                 [--shard K/N] [--exclude PATH]... [--any-name] [--null] [--]
                 [FILE|FOLDER]...
";

/// Files get their format.
pub static WRITES: Row = Row {
    words: &["tffmt-all"],
    input: b"",
    entries: SMALL,
    making: false,
    in_place: false,
    text: None,
    lines: WRITTEN,
};

/// Each new file is flushed to the disk.
pub static SYNCS: Row = Row {
    words: &["tffmt-all", "--sync", "."],
    input: b"",
    entries: SMALL,
    making: false,
    in_place: false,
    text: None,
    lines: WRITTEN,
};

/// A file is overwritten if no other can replace it.
pub static WRITES_IN_PLACE: Row = Row {
    words: &["tffmt-all", "--in-place"],
    input: b"",
    entries: SMALL,
    making: false,
    in_place: true,
    text: None,
    lines: WRITTEN,
};

/// Every file is overwritten, since none can be made beside another.
pub static ONLY_IN_PLACE: Row = Row {
    words: &["tffmt-all", "--in-place"],
    input: b"",
    entries: SMALL,
    making: true,
    in_place: true,
    text: None,
    lines: WRITTEN,
};

/// The names come from standard input.
pub static NAMES_GIVEN: Row = Row {
    words: &["tffmt-all", "-0"],
    input: b"in\0b.tf\0",
    entries: SMALL,
    making: false,
    in_place: false,
    text: None,
    lines: NAMED,
};

/// Files of every kind get their format, or are reported with their fault.
pub static OF_EACH_KIND: Row = Row {
    words: &["tffmt-all"],
    input: b"",
    entries: MIXED,
    making: false,
    in_place: false,
    text: None,
    lines: OF_MIXED,
};

/// Nothing is changed; files that aren't formatted are reported.
pub static CHECKS: Row = Row {
    words: &["tffmt-all", "--check", "."],
    input: b"",
    entries: SMALL,
    making: false,
    in_place: false,
    text: None,
    lines: CHECKED,
};

/// Nothing is changed; files that aren't formatted are listed.
pub static LISTS: Row = Row {
    words: &["tffmt-all", "--list", "in/", "a.tf"],
    input: b"",
    entries: SMALL,
    making: false,
    in_place: false,
    text: None,
    lines: LISTED,
};

/// Nothing is changed; files that aren't formatted are shown with the lines that differ.
pub static SHOWS: Row = Row {
    words: &["tffmt-all", "--diff", "a.tf", "b.tf"],
    input: b"",
    entries: SMALL,
    making: false,
    in_place: false,
    text: None,
    lines: SHOWN,
};

/// No file is looked at: it prints its version.
pub static VERSION: Row = Row {
    words: &["tffmt-all", "--version"],
    input: b"",
    entries: SMALL,
    making: false,
    in_place: false,
    text: Some(("tffmt-all 0.3.0\n", "", 0)),
    lines: &[],
};

/// No file is looked at: the line isn't this program's.
pub static BAD_WORD: Row = Row {
    words: &["tffmt-all", "--bogus"],
    input: b"",
    entries: SMALL,
    making: false,
    in_place: false,
    text: Some(("", BOGUS, 2)),
    lines: &[],
};
