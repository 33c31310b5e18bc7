//! The report of a module for a terminal, with the lines that issues are about.

ghost use Rattle.std.specs.Prelude.{◌≡◌, flat_map, false, is_err};
ghost use Rattle.command_line.specs.Rows.{Took, writer};
ghost use Rattle.tf_rules.specs.Answers.{listed_issue};
ghost use Rattle.tfrules_command.specs.Report.{report_by};
ghost use Rattle.tree_lint.specs.Runs.{shown_issue};

use crate::module_lines::ModuleLines;
use command_line::write_parts;
use hcl_scan::{ByteSink, Failed, Source};
use tf_rules::{IssueList, ListedIssue};
use tfrules_command::report::{show_count, show_issue};
use tfrules_command::shown_names::ShownNames;

/// Writes an issue, and the line of the text that it is about.
fn show_with_line<O: ByteSink, N: ShownNames>(
    out: &mut O,
    names: &N,
    issue: ListedIssue<'_>,
    lines: &mut ModuleLines<'_>,
) -> Result<(), Failed>
    requires { O.failed out.old ≡ false }
    ensures took { Took (writer O.ByteSink out.old out.new)
        (shown_issue (N.names names.now) lines.old (listed_issue issue.entry)) }
    ensures failed { O.failed out.new ≡ is_err result }
    ensures same { lines.new ≡ lines.old }
{
    let line = lines.snippet(issue.file, issue.at);
    if show_issue(out, names, issue).is_err() {
        return Err(Failed);
    }
    write_parts(out, &[line.as_slice()])
}

/// Writes each of the issues.
fn show_each<O: ByteSink, N: ShownNames>(
    out: &mut O,
    names: &N,
    texts: &[Source],
    issues: &IssueList<'_>,
) -> Result<(), Failed>
    requires { O.failed out.old ≡ false }
    ensures took { Took (writer O.ByteSink out.old out.new)
        (flat_map (shown_issue (N.names names.now) texts.now) issues.now) }
    ensures failed { O.failed out.new ≡ is_err result }
{
    let mut lines = ModuleLines::new(texts);
    for number in 0..issues.len() {
        show_with_line(out, names, issues.get(number), &mut lines)?;
    }
    Ok(())
}

/// Writes the report of issues, at least one. After a failed write it writes nothing more.
pub(crate) fn show_lines<O: ByteSink, N: ShownNames>(
    out: &mut O,
    names: &N,
    texts: &[Source],
    issues: &IssueList<'_>,
) -> Result<(), Failed>
    requires { O.failed out.old ≡ false }
    ensures took { Took (writer O.ByteSink out.old out.new)
        (report_by (shown_issue (N.names names.now) texts.now) issues.now) }
    ensures failed { O.failed out.new ≡ is_err result }
{
    if issues.is_empty() {
        return Ok(());
    }
    if show_count(out, issues.len()).is_err() {
        return Err(Failed);
    }
    show_each(out, names, texts, issues)
}
