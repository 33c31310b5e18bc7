//! Trees of small files, whose texts are made when they are opened.

ghost use Rattle.std.specs.Prelude.{◌≡◌, false, None};
ghost use Rattle.file_tree.specs.Files.{silent_files};

use crate::digest::{Digest, DigestSink};
use crate::fragments::{DECLARED, MESSY, TIDY};
use crate::made_text::MadeText;
use crate::texts::{Maker, Shape};
use command_line::Streams;
use file_tree::fault::TreeFault;
use file_tree::kind::{Identity, Kind};
use file_tree::path::join;
use file_tree::tree::{Replaced, Tree, WritableTree, Writing};
use std::alloc::{AllocError, Global};
use tfrules_command::Hashing;
use tree_format::outcome::Outcome;
use tree_format::progress::Progress;
use tree_lint::module_tree::ModuleTree;
use tree_lint::written::Terminals;

/// No output is read on a terminal.
const PIPES: Terminals = Terminals {
    out: false,
    err: false,
};

/// The files of a folder.
static NAMES: &[&str] = &[
    "main.tf",
    "variables.tf",
    "outputs.tf",
    "versions.tf",
    "network.tf",
    "iam.tf",
    "locals.tf",
    "data.tf",
];

/// The shapes of the files in a tree.
#[derive(Drop)]
struct Shapes {
    tidy: Shape,
    messy: Shape,
    declared: Shape,
}

/// A tree of folders `m0`, `m1` and so on, each with files. It tells nothing, and writes to it go into a digest.
#[derive(Drop)]
pub struct MadeTree {
    alloc: Global,
    shapes: Shapes,
    folders: usize,
    seed: u64,
    /// One file in this many isn't in the style.
    messy_in: usize,
    /// One file in this many has something to report.
    declared_in: usize,
    /// The digest of the writes.
    written: Digest,
}

/// The number that a path names, or none.
fn number_in(path: &[u8]) -> Option<u64> {
    let mut number: u64 = 0;
    let mut is_found = false;
    for byte in path {
        if byte.is_ascii_digit() {
            number = number.wrapping_mul(10).wrapping_add((*byte - b'0') as u64);
            is_found = true;
        } else if is_found {
            return Some(number);
        }
    }
    if is_found { Some(number) } else { None }
}

/// The number of a name among the files of a folder.
fn place_of(path: &[u8]) -> Option<usize> {
    NAMES
        .iter()
        .position(|name| path.ends_with(name.as_bytes()))
}

impl MadeTree {
    /// A tree by its seed.
    pub fn new(
        alloc: Global,
        folders: usize,
        seed: u64,
        messy_in: usize,
        declared_in: usize,
    ) -> Result<MadeTree, AllocError> {
        let shapes = Shapes {
            tidy: Shape::new(alloc, TIDY)?,
            messy: Shape::new(alloc, MESSY)?,
            declared: Shape::new(alloc, DECLARED)?,
        };
        Ok(MadeTree {
            alloc,
            shapes,
            folders,
            seed,
            messy_in,
            declared_in,
            written: Digest::new(),
        })
    }

    /// The generator for the texts of a folder or of a file in it.
    fn maker(&self, folder: u64, place: usize) -> Maker {
        let number = folder.wrapping_mul(16).wrapping_add(place as u64);
        Maker::new(self.seed.wrapping_mul(0x1_0000_0001).wrapping_add(number))
    }

    /// Appends the names of the files in a folder, three of them or more.
    fn add_files(&self, folder: u64, names: &mut Vec<u8>) -> Result<(), AllocError> {
        let count = 3 + self.maker(folder, 15).below(6);
        for name in NAMES.iter().take(count) {
            names.extend_from_slice(name.as_bytes())?;
            names.push(0)?;
        }
        Ok(())
    }

    fn add_folders(&self, names: &mut Vec<u8>) -> Result<(), AllocError> {
        for number in 0..self.folders {
            let name = format!(in self.alloc; "m{number}")?;
            names.extend_from_slice(name.as_bytes())?;
            names.push(0)?;
        }
        Ok(())
    }

    fn names(&self, folder: &[u8]) -> Result<Vec<u8>, AllocError> {
        let mut names = Vec::new(self.alloc);
        match number_in(folder) {
            Some(number) => self.add_files(number, &mut names)?,
            None => self.add_folders(&mut names)?,
        }
        Ok(names)
    }

    fn text(&self, folder: u64, place: usize) -> Result<Vec<u8>, AllocError> {
        let mut maker = self.maker(folder, place);
        let size = if place == 0 {
            1_000 + maker.below(7_000)
        } else {
            200 + maker.below(2_500)
        };
        let is_messy = maker.below(self.messy_in) == 1;
        let is_declared = maker.below(self.declared_in) == 1;
        let shape = if is_messy {
            &self.shapes.messy
        } else if is_declared {
            &self.shapes.declared
        } else {
            &self.shapes.tidy
        };
        maker.text(self.alloc, shape, size)
    }

    /// Adds the written bytes to the digest.
    fn note(&mut self, name: &[u8], new: &[u8]) -> Result<Replaced, TreeFault> {
        self.written.add(name);
        self.written.add(new);
        Ok(Replaced::Kept)
    }

    fn kind_of(&self, name: &[u8]) -> Kind {
        match (number_in(name), place_of(name)) {
            (Some(folder), Some(place)) => Kind::File(Identity {
                device: 1,
                inode: folder.wrapping_mul(16).wrapping_add(place as u64),
            }),
            _ => Kind::Folder,
        }
    }
}

impl Tree for MadeTree {
    type Reader = MadeText;

    ghost files = { λ s. silent_files };

    ghost faults = { λ s. None };

    ghost asked = { λ s. None };

    #[tactic(auto, using(file_tree::proofs::FileLemmas::silent_noted))]
    fn kind(&mut self, name: &[u8]) -> Result<Kind, TreeFault> {
        Ok(self.kind_of(name))
    }

    #[tactic(auto, using(file_tree::proofs::FileLemmas::silent_noted))]
    fn entry_kind(&mut self, name: &[u8]) -> Result<Kind, TreeFault> {
        if name.ends_with(b"/.git") || name.ends_with(b"/.tfrules") {
            return Err(TreeFault::Missing);
        }
        Ok(self.kind_of(name))
    }

    #[tactic(auto, using(file_tree::proofs::FileLemmas::silent_noted))]
    fn listing(&mut self, folder: &[u8]) -> Result<Vec<u8>, TreeFault> {
        match self.names(folder) {
            Ok(names) => Ok(names),
            Err(_) => Err(TreeFault::OutOfMemory),
        }
    }

    #[tactic(auto, using(file_tree::proofs::FileLemmas::silent_noted))]
    fn full_path(&mut self, folder: &[u8]) -> Result<Vec<u8>, TreeFault> {
        match join(self.alloc, b"/made/", folder) {
            Ok(path) => Ok(path),
            Err(_) => Err(TreeFault::OutOfMemory),
        }
    }

    #[tactic(auto, using(file_tree::proofs::FileLemmas::silent_noted))]
    fn reader(&mut self, name: &[u8]) -> Result<MadeText, TreeFault> {
        let (Some(folder), Some(place)) = (number_in(name), place_of(name)) else {
            return Err(TreeFault::Missing);
        };
        match self.text(folder, place) {
            Ok(text) => Ok(MadeText::new(text)),
            Err(_) => Err(TreeFault::OutOfMemory),
        }
    }

    #[tactic(auto, using(file_tree::proofs::FileLemmas::silent_noted))]
    fn give_back(&mut self, reader: MadeText) {
        let _ = &reader;
    }
}

impl WritableTree for MadeTree {
    #[tactic(auto, using(file_tree::proofs::FileLemmas::silent_noted, file_tree::proofs::FileLemmas::silent_replace))]
    fn replace(
        &mut self,
        name: &[u8],
        _old: &[u8],
        new: &[u8],
        _writing: Writing,
    ) -> Result<Replaced, TreeFault> {
        self.note(name, new)
    }
}

/// An observer that does nothing.
#[derive(Drop)]
struct Nobody;

impl Progress for Nobody {
    ghost shows = { λ _. false };

    fn shows_lines(&self) -> bool {
        false
    }

    fn after_look(&mut self, _outcome: &Outcome) {}

    fn after_report(&mut self) {}

    fn end(&mut self) {}
}

/// Runs the formatter of trees with these words.
fn format(alloc: Global, words: &[&[u8]], mut tree: MadeTree, digest: &mut Digest) {
    let mut input = MadeText::new(Vec::new(alloc));
    let mut streams = Streams {
        out: DigestSink::new(*digest),
        err: DigestSink::new(Digest::new()),
    };
    let mut nobody = Nobody;
    let status = tree_command::run::program(
        alloc,
        words,
        &mut tree,
        &mut nobody,
        &mut input,
        &mut streams,
    );
    *digest = streams.out.digest();
    digest.add_status(status);
    digest.add_words(streams.err.digest());
    digest.add_words(tree.written);
}

/// Checks trees in which nearly all files are in the style, and writes the others, to a digest.
pub fn format_trees(
    alloc: Global,
    turns: u64,
    seed: u64,
    digest: &mut Digest,
) -> Result<(), AllocError> {
    for turn in 0..turns {
        let seed = seed.wrapping_add(turn << 33);
        let checked = MadeTree::new(alloc, 600, seed, 40, 12)?;
        format(alloc, &[b"tffmt-all", b"--check", b"."], checked, digest);
        let written = MadeTree::new(alloc, 400, seed ^ (1 << 32), 20, 12)?;
        format(alloc, &[b"tffmt-all", b"."], written, digest);
    }
    Ok(())
}

/// Lints the modules of trees.
pub fn lint_trees(
    alloc: Global,
    hashing: Hashing,
    turns: u64,
    seed: u64,
    digest: &mut Digest,
) -> Result<(), AllocError> {
    for turn in 0..turns {
        let tree = MadeTree::new(alloc, 800, seed.wrapping_add(turn << 33), 10, 5)?;
        let mut files = ModuleTree::new(tree, hashing);
        let mut input = MadeText::new(Vec::new(alloc));
        let mut streams = Streams {
            out: DigestSink::new(*digest),
            err: DigestSink::new(Digest::new()),
        };
        let status = lint_command::run::program(
            alloc,
            &[b"tfrules-all", b"--rules", b"all", b"."],
            PIPES,
            &mut files,
            &mut input,
            &mut streams,
        );
        *digest = streams.out.digest();
        digest.add_status(status);
        digest.add_words(streams.err.digest());
    }
    Ok(())
}
