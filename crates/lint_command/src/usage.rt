//! Why a line of words has no options, and the texts that are then shown.

use rule_set::Rule;

/// Why there are no options.
#[derive(Clone, Copy, Debug, PartialEq, Eq)]
pub enum Usage {
    /// The words ask for help.
    Help,
    /// The words ask for the version.
    Version,
    /// The words ask for the list of the rules.
    ListRules,
    /// The words request the explanation of a rule.
    Explain(Rule),
    /// The words are no line of this program.
    BadLine,
    /// A name after `--rules` means no rule.
    UnknownRule,
    /// The name after `--explain` means no rule.
    UnknownExplained,
    /// `--rules` removes every rule.
    NoRuleLeft,
    /// The text after `--naming` is no naming.
    BadNaming,
    /// The text after `--minimum-failure-severity` is no severity.
    BadSeverity,
    /// The text after `--shard` names no part.
    BadPart,
    /// The text after `--format` is no form.
    BadForm,
    /// The text after `--jobs` is no number of jobs.
    BadJobs,
    /// `--null` is given with names.
    NamesTwice,
    /// Memory ran out.
    OutOfMemory,
}

/// The usage: the lines that this program has.
pub static USAGE: &str = "\
usage: tfrules-all [--rules LIST] [--naming NAMING]
                   [--minimum-failure-severity SEVERITY] [--force]
                   [--check-comments] [--no-config] [--format FORM] [--quiet]
                   [--shard K/N] [--null] [--] [FILE|FOLDER]...
       tfrules-all --list-rules
       tfrules-all --explain RULE
";

/// The number of this version.
pub static NUMBER: &str = "0.3.0";

/// The answer to `--version`.
pub static VERSION: &str = "tfrules-all 0.3.0\n";

/// The answer to `--help`.
pub static HELP: &str = "\
usage: tfrules-all [--rules LIST] [--naming NAMING]
                   [--minimum-failure-severity SEVERITY] [--force]
                   [--check-comments] [--no-config] [--format FORM] [--quiet]
                   [--shard K/N] [--null] [--] [FILE|FOLDER]...
       tfrules-all --list-rules
       tfrules-all --explain RULE

Lints the modules of folders, each by itself, as tfrules lints its files.

A module is the .tf and .tofu files of one folder. A file stands for its
folder, also one that was deleted while the folder is there; a folder for
itself and all below. Files and folders whose names begin with a dot or end
with ~, and those named #...#, are passed over. Without an operand it is the
current folder.

Options that the line doesn't have come from the nearest .tfrules, in the folder
of a module or above it up to the top of the repository: one a line, of the
first five below.

  --rules LIST     default, all or names of rules, with commas between them; a
                   dash before one takes its rules away: all,-terraform_...
  --naming NAMING  snake_case or mixed_snake_case
  --minimum-failure-severity SEVERITY
                   error, warning or notice: from which severity on an issue
                   fails the run
  --force          nothing that is found fails the run
  --check-comments report comments that are meant to silence a rule and don't:
                   those that name no rule, and tflint-ignore-file
  --no-config      read no file .tfrules
  --format FORM    text; or json (TFLint's), sarif, checkstyle, junit, gitlab or
                   github: what forges and editors read, of all modules, with
                   what couldn't be linted
  --quiet          say nothing of the run as a whole: no count of the issues
                   at its end
  --shard K/N      take the K-th of N parts of the folders
  -0, --null       read names, each ended by NUL, from standard input
  -j, --jobs N     taken, and of no use: modules are linted one after the
                   other
  --list-rules     print each rule with its severity, whether it is a default
                   one, and what it reports
  --explain RULE   print that of a rule, why it does, and how to silence it
  -h, --help       print this
  --version        print the version

Status: 0  nothing that is found fails the run
        1  something couldn't be linted, or the command line is wrong
        2  an issue fails the run, or a comment that --check-comments
           reports, and nothing is worse
";
