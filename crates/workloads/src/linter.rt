//! Large modules that are linted, in turn.

ghost use Rattle.std.specs.Prelude.{◌≡◌, ◌||◌, false, None};

use crate::digest::{Digest, DigestSink};
use crate::fragments::{DECLARED, TIDY};
use crate::made_text::MadeText;
use crate::texts::{Maker, Shape};
use hcl_scan::ByteSource;
use std::alloc::{AllocError, Global};
use tfrules_command::Hashing;
use tfrules_command::module_files::{ModuleFiles, OpenFault};
use tfrules_command::run::program;

/// Files whose texts are made when they are opened, in the order of opening.
#[derive(Drop)]
struct MadeFiles<'a> {
    alloc: Global,
    hashing: Hashing,
    shape: &'a Shape,
    size: usize,
    maker: Maker,
    has_unopened: bool,
    has_unread: bool,
    is_out: bool,
}

impl<'a> ModuleFiles for MadeFiles<'a> {
    type Reader = MadeText;

    ghost told = { λ s name. None };

    ghost open_failed = { λ s. s.has_unopened };

    ghost read_failed = { λ s. s.has_unread };

    ghost is_out = { λ s. s.is_out };

    fn reader(&mut self, _name: &str) -> Result<MadeText, OpenFault> {
        match self.maker.text(self.alloc, self.shape, self.size) {
            Ok(text) => {
                self.is_out = true;
                Ok(MadeText::new(text))
            }
            Err(_) => {
                self.has_unopened = true;
                Err(OpenFault)
            }
        }
    }

    fn give_back(&mut self, reader: MadeText) {
        self.is_out = false;
        if reader.has_failed() {
            self.has_unread = true;
        }
    }

    fn has_failed(&self) -> bool {
        self.has_unopened || self.has_unread
    }

    fn hashing(&self) -> Hashing {
        self.hashing
    }
}

/// Lints a module with these words.
fn lint_module<'a>(alloc: Global, words: &[&str], files: &mut MadeFiles<'a>, digest: &mut Digest)
    requires opened { ⟦<MadeFiles<'a> as ModuleFiles>⟧.open_failed files.old ≡ false }
    requires read { ⟦<MadeFiles<'a> as ModuleFiles>⟧.read_failed files.old ≡ false }
    requires back { ⟦<MadeFiles<'a> as ModuleFiles>⟧.is_out files.old ≡ false }
{
    let mut out = DigestSink::new(*digest);
    let mut err = DigestSink::new(Digest::new());
    let status = program(alloc, words, files, &mut out, &mut err);
    *digest = out.digest();
    digest.add_status(status);
    digest.add_words(err.digest());
}

/// Modules of fragments of a shape, and the words with which they are linted.
#[derive(Clone, Copy)]
struct Load<'w> {
    shape: &'w Shape,
    words: &'w [&'w str],
    /// How many bytes a file has.
    size: usize,
}

/// Lints a module. Returns the generator for the next one.
fn lint_load(
    alloc: Global,
    hashing: Hashing,
    load: Load<'_>,
    maker: Maker,
    digest: &mut Digest,
) -> Maker {
    let mut files = MadeFiles {
        alloc,
        hashing,
        shape: load.shape,
        size: load.size,
        maker,
        has_unopened: false,
        has_unread: false,
        is_out: false,
    };
    lint_module(alloc, load.words, &mut files, digest);
    files.maker
}

static LARGE: &[&str] = &[
    "tfrules", "--rules", "all", "0.tf", "1.tf", "2.tf", "3.tf", "4.tf", "5.tf", "6.tf", "7.tf",
];

static DEFAULT: &[&str] = &["tfrules", "0.tf", "1.tf", "2.tf", "3.tf", "4.tf", "5.tf"];

/// Lints large modules: ordinary ones, and ones with issues all over.
pub fn lint_modules(
    alloc: Global,
    hashing: Hashing,
    turns: u64,
    maker: &mut Maker,
    digest: &mut Digest,
) -> Result<(), AllocError> {
    let tidy = Shape::new(alloc, TIDY)?;
    let declared = Shape::new(alloc, DECLARED)?;
    for _ in 0..turns {
        for (shape, words, size) in [
            (&tidy, LARGE, 4_000_000),
            (&tidy, DEFAULT, 1_300_000),
            (&declared, LARGE, 1_000_000),
        ] {
            let load = Load { shape, words, size };
            *maker = lint_load(alloc, hashing, load, *maker, digest);
        }
    }
    Ok(())
}
