//! The report of a run, written line by line: short lines are buffered until they fill a page.

ghost use Rattle.std.specs.Prelude.{◌≡◌, ◌<◌, ◌≤◌, ◌++◌, [], ◌∷◌, false, true, drop, map, length, is_err, OnOk, OnErr, if◌then◌else◌};
ghost use Rattle.std.specs.List.{concat, flat_map, list_any};
ghost use Rattle.std.specs.Io.KnownBytes.{Appends};
ghost use Rattle.hcl_source.specs.Devices.{one_more};
ghost use Rattle.command_line.specs.Rows.{Took, writer};
ghost use Rattle.tf_rules.specs.Answers.{listed_issue, text_of_parts};
ghost use Rattle.tfrules_command.specs.Report.{issue_count, issue_line, report, weighs, weight};
ghost use Rattle.tfrules_command.specs.Inner.Pages.{GoesOut, Holds};
ghost use Rattle.tfrules_command.specs.Inner.Parts.{closing_words, with_line_parts, lines_of_report, opening_words, place_words};

use crate::shown_names::ShownNames;
use arrayvec::{ArrayVec, CapacityError};
use hcl_scan::{ByteSink, Position, WriteFault, write_fully};
use itoa::{Buffer, write_digits};
use tf_rules::{IssueList, ListedIssue, MessageParts, Rule, Severity};

/// How many bytes wait at most before they are written. From 2,048 bytes on the C library clears a page by a string
/// instruction, which counts once for each byte.
const PAGE: usize = 2000;

/// The bytes that wait to be written.
type Page = ArrayVec<u8, PAGE>;

/// How many bytes a place takes at most: two colons, and two numbers of ten digits.
const PLACE: usize = 22;

/// The text around the message on the line of an issue: the name of its file, its place, and the texts before and after
/// the message.
#[derive(Clone, Copy)]
struct LineParts<'p> {
    name: &'p [u8],
    place: &'p [u8],
    before_message: &'p str,
    after_message: &'p str,
}

/// The weight of a severity.
fn weight(severity: Severity) -> u8
    ensures { result ≡ weight severity }
{
    match severity {
        Severity::Notice => 0,
        Severity::Warning => 1,
        Severity::Error => 2,
    }
}

/// Whether an issue is as severe as this, or more.
fn is_severe(minimum: Severity, issue: ListedIssue<'_>) -> bool
    ensures { result ≡ weighs minimum (listed_issue issue.entry) }
{
    weight(minimum) <= weight(issue.rule.severity())
}

/// Whether one of the issues is.
pub fn has_severe(minimum: Severity, issues: &IssueList<'_>) -> bool
    ensures { result ≡ list_any (weighs minimum) issues.now }
{
    for number in 0..issues.len() {
        if is_severe(minimum, issues.get(number)) {
            return true;
        }
    }
    false
}

/// The text between the place of an issue and its message.
fn before_message(severity: Severity) -> &'static str
    ensures { result.now ≡ opening_words severity }
{
    match severity {
        Severity::Notice => ": Notice - ",
        Severity::Warning => ": Warning - ",
        Severity::Error => ": Error - ",
    }
}

/// The text after the message of an issue, to the end of the line.
fn after_message(rule: Rule) -> &'static str
    ensures { result.now ≡ closing_words rule }
{
    match rule {
        Rule::CommentSyntax => " (terraform_comment_syntax)\n",
        Rule::DeprecatedIndex => " (terraform_deprecated_index)\n",
        Rule::DeprecatedInterpolation => " (terraform_deprecated_interpolation)\n",
        Rule::DocumentedOutputs => " (terraform_documented_outputs)\n",
        Rule::DocumentedVariables => " (terraform_documented_variables)\n",
        Rule::ModulePinnedSource => " (terraform_module_pinned_source)\n",
        Rule::ModuleVersion => " (terraform_module_version)\n",
        Rule::NamingConvention => " (terraform_naming_convention)\n",
        Rule::TypedVariables => " (terraform_typed_variables)\n",
        Rule::UnusedDeclarations => " (terraform_unused_declarations)\n",
    }
}

/// Writes `:LINE:COLUMN` so that it ends with the array, and returns where it begins. As one part of the line it takes
/// less than its four parts would, since each part is copied by a call.
fn write_place(at: Position, room: &mut [u8; PLACE]) -> usize
    ensures within { result ≤ PLACE }
    ensures written { drop result room.new ≡ place_words at }
{
    let column = write_digits(at.column as u64, room, PLACE);
    room[column - 1] = b':';
    let line = write_digits(at.line as u64, room, column - 1);
    room[line - 1] = b':';
    line - 1
}

/// Writes the parts in turn, up to the first write that fails.
fn write_each<O: ByteSink>(out: &mut O, parts: &[&[u8]]) -> Result<(), WriteFault>
    requires { O.failed out.old ≡ false }
    ensures took { Took (writer O.ByteSink out.old out.new)
        (concat (map (λ part. part.now) parts.now)) }
    ensures failed { O.failed out.new ≡ is_err result }
    ensures flushes { O.flushes out.new ≡ O.flushes out.old }
{
    for part in parts {
        if let Err(fault) = write_fully(out, part) {
            return Err(fault);
        }
    }
    Ok(())
}

/// Appends a part to the waiting bytes, if there is room. Parts of a message may be empty, and a test costs less than a copy
/// of nothing.
#[inline(always)]
fn push_part(page: &mut Page, part: &[u8]) -> Result<(), CapacityError>
    ensures ok { OnOk result (page.new.items ≡ page.old.items ++ part.now) }
    ensures err { OnErr result (page.new ≡ page.old) }
{
    if part.is_empty() {
        return Ok(());
    }
    page.try_extend_from_slice(part)
}

/// Appends the parts to the waiting bytes, or none of them if there is no room for all.
fn hold(page: &mut Page, parts: &[&[u8]]) -> bool
    ensures { Holds result page.old.items page.new.items
        (concat (map (λ part. part.now) parts.now)) }
{
    let before = page.len();
    for part in parts {
        if let Err(_) = push_part(page, part) {
            page.truncate(before);
            return false;
        }
    }
    true
}

/// Writes the waiting bytes.
fn send<O: ByteSink>(out: &mut O, page: &mut Page) -> Result<(), WriteFault>
    requires { O.failed out.old ≡ false }
    ensures took { Took (writer O.ByteSink out.old out.new) page.old.items }
    ensures empty { OnOk result (page.new.items ≡ []) }
    ensures failed { O.failed out.new ≡ is_err result }
    ensures flushes { O.flushes out.new ≡ O.flushes out.old }
{
    if let Err(fault) = write_fully(out, page.as_slice()) {
        return Err(fault);
    }
    page.clear();
    Ok(())
}

/// Writes the parts after the waiting bytes, or lets them wait too. Parts that no page can hold are written one by
/// one.
fn write_parts<O: ByteSink>(out: &mut O, page: &mut Page, parts: &[&[u8]]) -> Result<(), WriteFault>
    requires { O.failed out.old ≡ false }
    ensures goes { GoesOut (O.failed out.new) (O.taken out.old)
        (O.taken out.new) page.old.items page.new.items
        (concat (map (λ part. part.now) parts.now)) }
    ensures failed { O.failed out.new ≡ is_err result }
    ensures flushes { O.flushes out.new ≡ O.flushes out.old }
{
    if hold(page, parts) {
        return Ok(());
    }
    if let Err(fault) = send(out, page) {
        return Err(fault);
    }
    if hold(page, parts) {
        return Ok(());
    }
    write_each(out, parts)
}

/// Writes the line of a message.
fn write_line<'p, O: ByteSink>(
    out: &mut O,
    page: &mut Page,
    frame: LineParts<'p>,
    message: MessageParts<'p>,
) -> Result<(), WriteFault>
    requires { O.failed out.old ≡ false }
    ensures goes { GoesOut (O.failed out.new) (O.taken out.old)
        (O.taken out.new) page.old.items page.new.items
        (with_line_parts frame.entry (text_of_parts message.entry)) }
    ensures failed { O.failed out.new ≡ is_err result }
    ensures flushes { O.flushes out.new ≡ O.flushes out.old }
{
    let LineParts {
        name,
        place,
        before_message,
        after_message,
    } = frame;
    let MessageParts {
        front,
        name: named,
        between,
        other,
        rest,
    } = message;
    write_parts(
        out,
        page,
        &[
            name,
            place,
            before_message.as_bytes(),
            front.as_bytes(),
            named.as_bytes(),
            between.as_bytes(),
            other.as_bytes(),
            rest.as_bytes(),
            after_message.as_bytes(),
        ],
    )
}

/// Writes the line of an issue.
fn write_issue<O: ByteSink, N: ShownNames>(
    out: &mut O,
    page: &mut Page,
    names: &N,
    issue: ListedIssue<'_>,
) -> Result<(), WriteFault>
    requires { O.failed out.old ≡ false }
    ensures goes { GoesOut (O.failed out.new) (O.taken out.old)
        (O.taken out.new) page.old.items page.new.items
        (issue_line (N.names names.now) (listed_issue issue.entry)) }
    ensures failed { O.failed out.new ≡ is_err result }
    ensures flushes { O.flushes out.new ≡ O.flushes out.old }
{
    let name = names.name_of(issue.file);
    let mut room = [0; PLACE];
    let begin = write_place(issue.at, &mut room);
    let (_, place) = room.split_at(begin);
    let before_message = before_message(issue.rule.severity());
    let after_message = after_message(issue.rule);
    let frame = LineParts {
        name,
        place,
        before_message,
        after_message,
    };
    write_line(out, page, frame, issue.message)
}

/// Writes how many issues there are, and an empty line.
fn write_count<O: ByteSink>(out: &mut O, page: &mut Page, count: usize) -> Result<(), WriteFault>
    requires { O.failed out.old ≡ false }
    ensures goes { GoesOut (O.failed out.new) (O.taken out.old)
        (O.taken out.new) page.old.items page.new.items (issue_count count) }
    ensures failed { O.failed out.new ≡ is_err result }
    ensures flushes { O.flushes out.new ≡ O.flushes out.old }
{
    let mut digits = Buffer::new();
    write_parts(
        out,
        page,
        &[digits.format(count).as_bytes(), b" issue(s) found:\n\n"],
    )
}

/// Writes how many issues a report has, and an empty line.
pub fn show_count<O: ByteSink>(out: &mut O, count: usize) -> Result<(), WriteFault>
    requires { O.failed out.old ≡ false }
    ensures took { Took (writer O.ByteSink out.old out.new) (issue_count count) }
    ensures failed { O.failed out.new ≡ is_err result }
{
    let mut page = ArrayVec::new();
    if let Err(fault) = write_count(out, &mut page, count) {
        return Err(fault);
    }
    send(out, &mut page)
}

/// Writes the line of an issue in a report.
pub fn show_issue<O: ByteSink, N: ShownNames>(
    out: &mut O,
    names: &N,
    issue: ListedIssue<'_>,
) -> Result<(), WriteFault>
    requires { O.failed out.old ≡ false }
    ensures took { Took (writer O.ByteSink out.old out.new)
        (issue_line (N.names names.now) (listed_issue issue.entry)) }
    ensures failed { O.failed out.new ≡ is_err result }
{
    let mut page = ArrayVec::new();
    if let Err(fault) = write_issue(out, &mut page, names, issue) {
        return Err(fault);
    }
    send(out, &mut page)
}

/// Writes the lines of issues.
fn write_issues<O: ByteSink, N: ShownNames>(
    out: &mut O,
    page: &mut Page,
    names: &N,
    issues: &IssueList<'_>,
) -> Result<(), WriteFault>
    requires { O.failed out.old ≡ false }
    ensures goes { GoesOut (O.failed out.new) (O.taken out.old)
        (O.taken out.new) page.old.items page.new.items
        (flat_map (issue_line (N.names names.now)) issues.now) }
    ensures failed { O.failed out.new ≡ is_err result }
    ensures flushes { O.flushes out.new ≡ O.flushes out.old }
{
    for number in 0..issues.len() {
        if let Err(fault) = write_issue(out, page, names, issues.get(number)) {
            return Err(fault);
        }
    }
    Ok(())
}

/// Writes the report of one or more issues.
fn write_report<O: ByteSink, N: ShownNames>(
    out: &mut O,
    names: &N,
    issues: &IssueList<'_>,
) -> Result<(), WriteFault>
    requires { O.failed out.old ≡ false }
    ensures took { Took (writer O.ByteSink out.old out.new)
        (lines_of_report (N.names names.now) issues.now) }
    ensures failed { O.failed out.new ≡ is_err result }
    ensures flushes { O.flushes out.new ≡ O.flushes out.old }
{
    let mut page = ArrayVec::new();
    if let Err(fault) = write_count(out, &mut page, issues.len()) {
        return Err(fault);
    }
    if let Err(fault) = write_issues(out, &mut page, names, issues) {
        return Err(fault);
    }
    send(out, &mut page)
}

/// Writes the report and flushes it, or leaves standard output alone if there is no issue.
pub fn show_issues<O: ByteSink, N: ShownNames>(out: &mut O, names: &N, issues: &IssueList<'_>)
    requires { O.failed out.old ≡ false }
    ensures took { Took (writer O.ByteSink out.old out.new)
        (report (N.names names.now) issues.now) }
    ensures flushed { O.failed out.new ≡ false
        → 0 < length (report (N.names names.now) issues.now) → O.flushed out.new ≡ true }
    ensures once { O.failed out.new ≡ false
        → 0 < length (report (N.names names.now) issues.now)
        → O.flushes out.new ≡ one_more (O.flushes out.old) }
    ensures untouched { length (report (N.names names.now) issues.now) ≡ 0
        → O.failed out.new ≡ false }
    ensures no_flush { length (report (N.names names.now) issues.now) ≡ 0
        → O.flushes out.new ≡ O.flushes out.old }
{
    if issues.is_empty() {
        return;
    }
    if let Err(_) = write_report(out, names, issues) {
        return;
    }
    let _ = out.flush();
}
