//! The vocabulary with which `tffmt-all` finds and explains a wrong word.

ghost use Rattle.std.specs.Prelude.{◌≡◌};
ghost use Rattle.tree_command.specs.FormatterWords.{formatter_words};
ghost use Rattle.tree_words.specs.Vocabularies.{vocabulary_of};

use crate::usage::USAGE;
use tree_words::vocabulary::{Foreign, Vocabulary};

static NAMES: &[&str] = &[
    "check", "diff", "list", "in-place", "sync", "quiet", "any-name", "version", "null", "shard",
    "exclude", "jobs", "help",
];

static LETTERS: &[u8] = b"0jh";

/// Options of `terraform fmt`, with one dash or with two.
static FOREIGN: &[Foreign] = &[
    Foreign {
        option: "-recursive",
        hint: "; folders are always walked whole",
    },
    Foreign {
        option: "--recursive",
        hint: "; folders are always walked whole",
    },
    Foreign {
        option: "-write=false",
        hint: "; write --list, --check or --diff",
    },
    Foreign {
        option: "--write=false",
        hint: "; write --list, --check or --diff",
    },
];

/// The vocabulary with which the program finds and explains a wrong word.
pub(crate) fn formatter_words() -> Vocabulary
    ensures { vocabulary_of result ≡ formatter_words }
{
    Vocabulary {
        names: NAMES,
        letters: LETTERS,
        error: "tffmt-all: error: unknown option ",
        foreign: FOREIGN,
        usage: USAGE,
    }
}
