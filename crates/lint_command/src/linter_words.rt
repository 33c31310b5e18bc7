//! The vocabulary with which `tfrules-all` finds and explains a wrong word.

ghost use Rattle.std.specs.Prelude.{◌≡◌};
ghost use Rattle.lint_command.specs.LinterWords.{linter_words};
ghost use Rattle.tree_words.specs.Vocabularies.{vocabulary_of};

use crate::usage::USAGE;
use tree_words::vocabulary::{Foreign, Vocabulary};

static NAMES: &[&str] = &[
    "rules",
    "naming",
    "minimum-failure-severity",
    "force",
    "check-comments",
    "no-config",
    "format",
    "quiet",
    "version",
    "null",
    "shard",
    "jobs",
    "list-rules",
    "explain",
    "help",
];

static LETTERS: &[u8] = b"0jh";

/// Options of TFLint and of `terraform`.
static FOREIGN: &[Foreign] = &[
    Foreign {
        option: "-recursive",
        hint: "; folders are always walked whole",
    },
    Foreign {
        option: "--recursive",
        hint: "; folders are always walked whole",
    },
    Foreign {
        option: "-chdir",
        hint: "; name the folder instead",
    },
    Foreign {
        option: "--chdir",
        hint: "; name the folder instead",
    },
    Foreign {
        option: "--only",
        hint: "; write --rules LIST",
    },
    Foreign {
        option: "--fix",
        hint: "; no file is ever changed",
    },
];

/// The vocabulary with which the program finds and explains a wrong word.
pub(crate) fn linter_words() -> Vocabulary
    ensures { vocabulary_of result ≡ linter_words }
{
    Vocabulary {
        names: NAMES,
        letters: LETTERS,
        error: "tfrules-all: error: unknown option ",
        foreign: FOREIGN,
        usage: USAGE,
    }
}
