//! Why a line of words has no options, and the texts that are then shown.

/// Why there are no options.
#[derive(Clone, Copy, Debug, PartialEq, Eq)]
pub enum Usage {
    /// The words ask for help.
    Help,
    /// The words ask for the version.
    Version,
    /// The words are no line of this program.
    BadLine,
    /// `--list` is given with `--check` or `--diff`.
    TwoModes,
    /// The text after `--shard` names no part.
    BadPart,
    /// The text after `--jobs` is no number of jobs.
    BadJobs,
    /// `--null` is given with names.
    NamesTwice,
    /// Memory ran out.
    OutOfMemory,
}

/// The usage: the lines that this program has.
pub static USAGE: &str = "\
usage: tffmt-all [--check | --diff | --list] [--in-place] [--sync] [--quiet]
                 [--shard K/N] [--exclude PATH]... [--any-name] [--null] [--]
                 [FILE|FOLDER]...
";

pub(crate) static TWO_MODES: &str =
    "tffmt-all: error: --list takes neither --check nor --diff beside it\n";

pub(crate) static BAD_PART: &str =
    "tffmt-all: error: --shard takes K/N, with K from 1 to N, at most 99999\n";

pub(crate) static BAD_JOBS: &str = "tffmt-all: error: --jobs takes a number from 1 to 9999\n";

pub(crate) static NAMES_TWICE: &str =
    "tffmt-all: error: --null takes no names on the command line\n";

/// The answer to `--version`.
pub static VERSION: &str = "tffmt-all 0.3.0\n";

/// The answer to `--help`.
pub static HELP: &str = "\
usage: tffmt-all [--check | --diff | --list] [--in-place] [--sync] [--quiet]
                 [--shard K/N] [--exclude PATH]... [--any-name] [--null] [--]
                 [FILE|FOLDER]...

Formats files in place and prints the names of those that it changed.

A folder stands for the .tf, .tfvars, .tofu, .tftest.hcl, .tfmock.hcl,
.tfquery.hcl and .tofutest.hcl files in it and below. Files and folders whose
names begin with a dot or end with ~, and those named #...#, are passed over.
Without an operand it is the current folder. A file that is named is taken if
it is called like these, or if its name ends with .hcl.

  --check          change nothing; report each file that isn't formatted
  --diff           change nothing; show what would change; --check may stand
                   beside it
  --list           change nothing; print the names of the files that would
                   change
  --in-place       write over a file where no new one can be put in its place
  --sync           have each new file on the disk before the next one is
                   looked at
  --quiet          say nothing of the run as a whole: no count of the files
                   at its end
  --exclude PATH   pass over what has this name or this path, and all that is
                   below; may be given again
  --any-name       take a file that is named whatever it is called
  --shard K/N      take the K-th of N parts of the files
  -0, --null       read names, each ended by NUL, from standard input
  -j, --jobs N     taken, and of no use: files are worked on one after the
                   other
  -h, --help       print this
  --version        print the version

Status: 0  all files are formatted, or are now
        2  a file was refused, or the command line is wrong
        3  with --check, --diff or --list: a file isn't formatted, and nothing
           is worse
        4  a file could not be read or written
";
