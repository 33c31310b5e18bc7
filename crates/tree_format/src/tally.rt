//! How many files a run looked at, and the message about them at its end.

ghost use Rattle.std.specs.Prelude.{◌≡◌, ◌++◌, [], false, is_err};
ghost use Rattle.command_line.specs.Rows.{Took, writer};
ghost use Rattle.tree_format.specs.Tally.{changed_words, counts_words, end_line, faults_words, files_word, is_empty, part, tally_line, tally_of};
ghost use Rattle.tree_format.specs.Inner.Counts.{CanGrow, tally_with};

use crate::mode::Mode;
use crate::outcome::Outcome;
use command_line::write_parts;
use hcl_scan::{ByteSink, Failed};
use itoa::Buffer;

/// How many files a run looked at.
#[derive(Clone, Copy)]
pub struct Tally {
    /// Files that weren't formatted: they are by now, if files were to be written.
    pub changed: u64,
    /// Files that were formatted.
    pub unchanged: u64,
    /// Files that have no format.
    pub refused: u64,
    /// Files that could not be looked at, written or shown.
    pub failed: u64,
}

impl Tally {
    /// No file.
    pub(crate) fn new() -> Tally
        ensures { result ≡ tally_of [] }
    {
        Tally {
            changed: 0,
            unchanged: 0,
            refused: 0,
            failed: 0,
        }
    }

    /// The tally with one more file, which had this outcome.
    pub(crate) fn add(self, outcome: &Outcome) -> Tally
        requires { CanGrow self }
        ensures { result ≡ tally_with self outcome.now }
    {
        match outcome {
            Outcome::Formatted => Tally {
                unchanged: self.unchanged + 1,
                ..self
            },
            Outcome::Changed(_) | Outcome::Differs(_) => Tally {
                changed: self.changed + 1,
                ..self
            },
            Outcome::Refused(..) => Tally {
                refused: self.refused + 1,
                ..self
            },
            Outcome::Failed(_) => Tally {
                failed: self.failed + 1,
                ..self
            },
        }
    }
}

/// Whether there was no file.
fn is_empty(tally: &Tally) -> bool
    ensures { result ≡ is_empty tally.now }
{
    tally.changed == 0 && tally.unchanged == 0 && tally.refused == 0 && tally.failed == 0
}

/// The text after a number of files.
fn files_word(count: u64) -> &'static str
    ensures { result.now ≡ files_word count }
{
    if count == 1 { " file" } else { " files" }
}

/// How the message counts files that weren't formatted: as formatted, or as not formatted.
fn changed_words(mode: Mode) -> &'static str
    ensures { result.now ≡ changed_words mode }
{
    match mode {
        Mode::Write(_) => " formatted, ",
        _ => " not formatted, ",
    }
}

/// Writes how many files weren't formatted, and how many were.
fn tell_counts<S: ByteSink>(sink: &mut S, mode: Mode, tally: &Tally) -> Result<(), Failed>
    requires { S.failed sink.old ≡ false }
    ensures took { Took (writer S.ByteSink sink.old sink.new) (counts_words mode tally.now) }
    ensures failed { S.failed sink.new ≡ is_err result }
{
    let mut changed = Buffer::new();
    let mut unchanged = Buffer::new();
    let changed = changed.format(tally.changed).as_bytes();
    let unchanged = unchanged.format(tally.unchanged).as_bytes();
    let word = files_word(tally.changed).as_bytes();
    let words = changed_words(mode).as_bytes();
    write_parts(sink, &[changed, word, words, unchanged, b" unchanged"])
}

/// Writes `, N WORD`, or nothing if N is 0.
fn tell_part<S: ByteSink>(sink: &mut S, count: u64, word: &'static str) -> Result<(), Failed>
    requires { S.failed sink.old ≡ false }
    ensures took { Took (writer S.ByteSink sink.old sink.new) (part count word.now) }
    ensures failed { S.failed sink.new ≡ is_err result }
{
    if count == 0 {
        return Ok(());
    }
    let mut digits = Buffer::new();
    let digits = digits.format(count).as_bytes();
    write_parts(sink, &[b", ", digits, word.as_bytes()])
}

/// Writes how many files were refused, and how many could not be looked at, unless the number is 0.
fn tell_faults<S: ByteSink>(sink: &mut S, tally: &Tally) -> Result<(), Failed>
    requires { S.failed sink.old ≡ false }
    ensures took { Took (writer S.ByteSink sink.old sink.new) (faults_words tally.now) }
    ensures failed { S.failed sink.new ≡ is_err result }
{
    if tell_part(sink, tally.refused, " refused").is_err() {
        return Err(Failed);
    }
    tell_part(sink, tally.failed, " failed")
}

/// Writes the last line of a run over some files.
fn tell_some<S: ByteSink>(sink: &mut S, mode: Mode, tally: &Tally) -> Result<(), Failed>
    requires { S.failed sink.old ≡ false }
    ensures took { Took (writer S.ByteSink sink.old sink.new) (tally_line mode tally.now) }
    ensures failed { S.failed sink.new ≡ is_err result }
{
    if tell_counts(sink, mode, tally).is_err() {
        return Err(Failed);
    }
    if tell_faults(sink, tally).is_err() {
        return Err(Failed);
    }
    write_parts(sink, &[b"\n"])
}

/// Writes the last line of a run.
pub fn tell_tally<S: ByteSink>(sink: &mut S, mode: Mode, tally: &Tally) -> Result<(), Failed>
    requires { S.failed sink.old ≡ false }
    ensures took { Took (writer S.ByteSink sink.old sink.new) (end_line mode tally.now) }
    ensures failed { S.failed sink.new ≡ is_err result }
{
    if is_empty(tally) {
        return write_parts(sink, &[b"no files found\n"]);
    }
    tell_some(sink, mode, tally)
}
