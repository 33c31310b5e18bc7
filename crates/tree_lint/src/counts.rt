//! The numbers of a run over modules, and the message about them at its end.

ghost use Rattle.std.specs.Prelude.{◌≡◌, ◌≤◌, ◌+◌, [], false, is_err};
ghost use Rattle.command_line.specs.Rows.{Took, writer};
ghost use Rattle.tree_lint.specs.Numbers.{counts_of, issues_word, issues_words, modules_word, modules_words, some_line, summary_line};
ghost use Rattle.tree_lint.specs.Inner.Growth.{HasRoom, counts_with, one_if};

use command_line::write_parts;
use hcl_scan::{ByteSink, Failed};
use itoa::Buffer;

/// The end of a run over a module.
#[derive(Clone, Copy)]
pub(crate) struct Ended {
    /// 0 or 2, as from `tfrules` over the module alone, or 1 if it is refused.
    pub status: u8,
    /// How many issues its report has: 0 if there is no report.
    pub issues: usize,
    /// Whether any output went to standard output.
    pub is_shown: bool,
}

/// The numbers of a run over modules.
#[derive(Clone, Copy, Debug, PartialEq, Eq)]
pub struct Counts {
    /// Modules that have a file, or aren't whole.
    pub modules: u64,
    /// Modules that are refused.
    pub refused: u64,
    /// Modules with issues.
    pub reported: u64,
    /// The issues of all modules.
    pub issues: u128,
}

fn one_if(is_so: bool) -> u64
    ensures is { result ≡ one_if is_so }
    ensures small { result ≤ 1 }
{
    if is_so { 1 } else { 0 }
}

impl Counts {
    /// No module.
    pub(crate) fn new() -> Counts
        ensures { result ≡ counts_of [] [] }
    {
        Counts {
            modules: 0,
            refused: 0,
            reported: 0,
            issues: 0,
        }
    }

    /// The numbers with one more module, if it counts as one, which ended in this way.
    pub(crate) fn add(self, is_module: bool, ended: Ended) -> Counts
        requires { HasRoom self }
        ensures sum { result ≡ counts_with self is_module ended.status ended.issues }
        ensures small { result.issues ≤ self.issues + 18446744073709551615 }
    {
        Counts {
            modules: self.modules + one_if(is_module),
            refused: self.refused + one_if(ended.status == 1),
            reported: self.reported + one_if(ended.issues > 0),
            issues: self.issues + ended.issues as u128,
        }
    }
}

/// The text after a number of modules.
fn modules_word(count: u64) -> &'static str
    ensures { result.now ≡ modules_word count }
{
    if count == 1 { " module" } else { " modules" }
}

/// The text after a number of issues.
fn issues_word(count: u128) -> &'static str
    ensures { result.now ≡ issues_word count }
{
    if count == 1 {
        " issue in "
    } else {
        " issues in "
    }
}

/// Writes how many issues there are, and in how many modules.
fn tell_issues<S: ByteSink>(sink: &mut S, counts: &Counts) -> Result<(), Failed>
    requires { S.failed sink.old ≡ false }
    ensures took { Took (writer S.ByteSink sink.old sink.new) (issues_words counts.now) }
    ensures failed { S.failed sink.new ≡ is_err result }
{
    if counts.issues == 0 {
        return write_parts(sink, &[b"no issues in "]);
    }
    let mut issues = Buffer::new();
    let mut reported = Buffer::new();
    let issues = issues.format(counts.issues).as_bytes();
    let reported = reported.format(counts.reported).as_bytes();
    let word = issues_word(counts.issues).as_bytes();
    write_parts(sink, &[issues, word, reported, b" of "])
}

/// Writes how many modules there are, and, unless it is 0, how many of them were refused.
fn tell_modules<S: ByteSink>(sink: &mut S, counts: &Counts) -> Result<(), Failed>
    requires { S.failed sink.old ≡ false }
    ensures took { Took (writer S.ByteSink sink.old sink.new) (modules_words counts.now) }
    ensures failed { S.failed sink.new ≡ is_err result }
{
    let mut modules = Buffer::new();
    let modules = modules.format(counts.modules).as_bytes();
    let word = modules_word(counts.modules).as_bytes();
    if counts.refused == 0 {
        return write_parts(sink, &[modules, word, b"\n"]);
    }
    let mut refused = Buffer::new();
    let refused = refused.format(counts.refused).as_bytes();
    write_parts(sink, &[modules, word, b", ", refused, b" refused\n"])
}

/// Writes the last line of a run over some modules.
fn tell_some<S: ByteSink>(sink: &mut S, counts: &Counts) -> Result<(), Failed>
    requires { S.failed sink.old ≡ false }
    ensures took { Took (writer S.ByteSink sink.old sink.new) (some_line counts.now) }
    ensures failed { S.failed sink.new ≡ is_err result }
{
    if tell_issues(sink, counts).is_err() {
        return Err(Failed);
    }
    tell_modules(sink, counts)
}

/// Writes the last line of a run.
pub fn tell_summary<S: ByteSink>(sink: &mut S, counts: &Counts) -> Result<(), Failed>
    requires { S.failed sink.old ≡ false }
    ensures took { Took (writer S.ByteSink sink.old sink.new) (summary_line counts.now) }
    ensures failed { S.failed sink.new ≡ is_err result }
{
    if counts.modules == 0 {
        return write_parts(sink, &[b"no modules found\n"]);
    }
    tell_some(sink, counts)
}
