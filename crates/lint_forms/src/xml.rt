//! XML in the forms of Checkstyle and of JUnit.

ghost use Rattle.std.specs.Prelude.{◌≡◌, ◌++◌, not, IfOk, OnOk, chars, filter, flat_map, length, map, string_bytes};
ghost use Rattle.lint_forms.specs.Inner.XmlParts.{suite_start};
ghost use Rattle.lint_forms.specs.Remarks.{said_by};
ghost use Rattle.lint_forms.specs.Words.{is_issue};
ghost use Rattle.lint_forms.specs.Xml.{attribute_char, attribute_text, case_head, case_tail, checkstyle_file, file_head, file_middle, file_tail, junit_case, junit_suite, kept_or_replaced, last_suite, outcome_word, spot, suite_end, suite_head};

use crate::remark::Remark;
use crate::subject::Subject;
use crate::words::{is_issue, rule_id, severity_of, severity_word};
use std::alloc::{AllocError, Global};

/// Some forges reject a report without tests.
static PASSED_SUITE: &str =
    "<testsuite name=\"tfrules\" tests=\"1\" failures=\"0\" errors=\"0\">\n<testcase classname=\"tfrules\" name=\"no issue\"/>\n</testsuite>\n";

fn push_kept_or_replaced(c: char, text: &mut String) -> Result<(), AllocError>
    ensures { OnOk result (string_bytes text.new ≡ string_bytes text.old ++ kept_or_replaced c) }
{
    if c < ' ' || c == '\u{fffe}' || c == '\u{ffff}' {
        return text.push_str("\u{fffd}");
    }
    text.push(c)
}

fn push_attribute_char(c: char, text: &mut String) -> Result<(), AllocError>
    ensures { OnOk result (string_bytes text.new ≡ string_bytes text.old ++ attribute_char c) }
{
    if c == '&' {
        return text.push_str("&amp;");
    }
    if c == '<' {
        return text.push_str("&lt;");
    }
    if c == '>' {
        return text.push_str("&gt;");
    }
    if c == '"' {
        return text.push_str("&quot;");
    }
    if c == '\t' {
        return text.push_str("&#9;");
    }
    if c == '\n' {
        return text.push_str("&#10;");
    }
    if c == '\r' {
        return text.push_str("&#13;");
    }
    push_kept_or_replaced(c, text)
}

/// A text between quotes.
fn attribute_text(alloc: Global, text: &str) -> Result<String, AllocError>
    ensures { IfOk result (λ s. string_bytes s ≡ attribute_text text.now) }
{
    let mut escaped = String::new(alloc);
    for c in text.chars() {
        push_attribute_char(c, &mut escaped)?;
    }
    Ok(escaped)
}

/// An error in the form of Checkstyle, with its file, up to its place.
fn file_head(alloc: Global, remark: Remark<'_>) -> Result<String, AllocError>
    ensures { IfOk result (λ s. string_bytes s ≡ file_head (said_by remark.entry)) }
{
    let file = attribute_text(alloc, remark.file)?;
    format!(in alloc;
        "<file name=\"{}\"><error line=\"{}\" column=\"{}",
        file.as_str(),
        remark.line,
        remark.column
    )
}

/// The text before its message.
fn file_middle(alloc: Global, remark: Remark<'_>) -> Result<String, AllocError>
    ensures { IfOk result (λ s. string_bytes s ≡ file_middle (said_by remark.entry)) }
{
    let severity = severity_word(remark.subject);
    format!(in alloc; "\" severity=\"{}\" message=\"", severity)
}

/// Its message, and the rest of the element.
fn file_tail(alloc: Global, remark: Remark<'_>) -> Result<String, AllocError>
    ensures { IfOk result (λ s. string_bytes s ≡ file_tail (said_by remark.entry)) }
{
    let mut text = attribute_text(alloc, remark.text)?;
    text.push_str("\" source=\"")?;
    text.push_str(rule_id(remark.subject))?;
    text.push_str("\"/></file>\n")?;
    Ok(text)
}

/// An error in the form of Checkstyle, with its file.
fn checkstyle_file(alloc: Global, remark: Remark<'_>) -> Result<String, AllocError>
    ensures { IfOk result (λ s. string_bytes s ≡ checkstyle_file (said_by remark.entry)) }
{
    let mut text = file_head(alloc, remark)?;
    let middle = file_middle(alloc, remark)?;
    text.push_str(middle.as_str())?;
    let tail = file_tail(alloc, remark)?;
    text.push_str(tail.as_str())?;
    Ok(text)
}

fn push_file(alloc: Global, remark: Remark<'_>, text: &mut Vec<u8>) -> Result<(), AllocError>
    ensures { OnOk result (text.new.items
        ≡ text.old.items ++ checkstyle_file (said_by remark.entry)) }
{
    let file = checkstyle_file(alloc, remark)?;
    text.extend_from_slice(file.as_bytes())
}

/// The errors of a module in the form of Checkstyle.
pub(crate) fn module_files(alloc: Global, remarks: &[Remark<'_>]) -> Result<Vec<u8>, AllocError>
    ensures { IfOk result (λ text. text.items
        ≡ flat_map checkstyle_file (map said_by remarks.now)) }
{
    let mut text = Vec::new(alloc);
    for remark in remarks {
        push_file(alloc, *remark, &mut text)?;
    }
    Ok(text)
}

/// The element for the outcome of a test.
fn outcome_word(subject: Subject) -> &'static str
    ensures { result.now ≡ outcome_word subject }
{
    match subject {
        Subject::Rule(_) | Subject::Comment => "failure",
        Subject::Refusal => "error",
    }
}

/// The place of a remark.
fn spot(alloc: Global, remark: Remark<'_>) -> Result<String, AllocError>
    ensures { IfOk result (λ text. string_bytes text ≡ spot (said_by remark.entry)) }
{
    let file = attribute_text(alloc, remark.file)?;
    format!(in alloc; "{}:{}:{}", file.as_str(), remark.line, remark.column)
}

/// The test of a remark up to its outcome.
fn case_head(alloc: Global, remark: Remark<'_>) -> Result<String, AllocError>
    ensures { IfOk result (λ s. string_bytes s ≡ case_head (said_by remark.entry)) }
{
    let name = rule_id(remark.subject);
    let spot = spot(alloc, remark)?;
    let outcome = outcome_word(remark.subject);
    format!(in alloc;
        "<testcase classname=\"{}\" name=\"{}\"><{}",
        name,
        spot.as_str(),
        outcome
    )
}

/// The rest of the test.
fn case_tail(alloc: Global, remark: Remark<'_>) -> Result<String, AllocError>
    ensures { IfOk result (λ s. string_bytes s ≡ case_tail (said_by remark.entry)) }
{
    let severity = severity_of(remark.subject).text();
    let spot = spot(alloc, remark)?;
    let message = attribute_text(alloc, remark.text)?;
    format!(in alloc;
        " type=\"{}\" message=\"{}: {}\"/></testcase>\n",
        severity,
        spot.as_str(),
        message.as_str()
    )
}

/// The test of a remark.
fn junit_case(alloc: Global, remark: Remark<'_>) -> Result<String, AllocError>
    ensures { IfOk result (λ s. string_bytes s ≡ junit_case (said_by remark.entry)) }
{
    let mut text = case_head(alloc, remark)?;
    let tail = case_tail(alloc, remark)?;
    text.push_str(tail.as_str())?;
    Ok(text)
}

fn push_case(alloc: Global, remark: Remark<'_>, text: &mut Vec<u8>) -> Result<(), AllocError>
    ensures { OnOk result (text.new.items ≡ text.old.items ++ junit_case (said_by remark.entry)) }
{
    let case = junit_case(alloc, remark)?;
    text.extend_from_slice(case.as_bytes())
}

/// The tests of some remarks.
fn some_cases(alloc: Global, remarks: &[Remark<'_>]) -> Result<Vec<u8>, AllocError>
    ensures { IfOk result (λ text. text.items
        ≡ flat_map (λ r. junit_case (said_by r)) remarks.now) }
{
    let mut text = Vec::new(alloc);
    for remark in remarks {
        push_case(alloc, *remark, &mut text)?;
    }
    Ok(text)
}

fn issues_of(remarks: &[Remark<'_>]) -> usize
    ensures { result ≡ length (filter (λ r. is_issue r.subject) remarks.now) }
{
    remarks
        .iter()
        .filter(|remark| is_issue(remark.subject))
        .count()
}

fn refusals_of(remarks: &[Remark<'_>]) -> usize
    ensures { result ≡ length (filter (λ r. not (is_issue r.subject)) remarks.now) }
{
    remarks
        .iter()
        .filter(|remark| !is_issue(remark.subject))
        .count()
}

/// The text before this many tests.
fn suite_start(
    alloc: Global,
    tests: usize,
    failures: usize,
    errors: usize,
) -> Result<String, AllocError>
    ensures { IfOk result (λ text. string_bytes text ≡ suite_start tests failures errors) }
{
    format!(in alloc;
        "<testsuite name=\"tfrules\" tests=\"{}\" failures=\"{}\" errors=\"{}\">\n",
        tests, failures, errors
    )
}

/// The text before the tests.
fn suite_head(alloc: Global, remarks: &[Remark<'_>]) -> Result<String, AllocError>
    ensures { IfOk result (λ text. string_bytes text ≡ suite_head (map said_by remarks.now)) }
{
    let tests = remarks.len();
    let failures = issues_of(remarks);
    let errors = refusals_of(remarks);
    suite_start(alloc, tests, failures, errors)
}

/// The suite of some remarks.
fn some_suite(alloc: Global, remarks: &[Remark<'_>]) -> Result<Vec<u8>, AllocError>
    ensures { IfOk result (λ text. text.items ≡ suite_head (map said_by remarks.now)
        ++ (flat_map (λ r. junit_case (said_by r)) remarks.now ++ suite_end)) }
{
    let head = suite_head(alloc, remarks)?;
    let cases = some_cases(alloc, remarks)?;
    let mut text = Vec::new(alloc);
    text.extend_from_slice(head.as_bytes())?;
    text.extend_from_slice(cases.as_slice())?;
    text.extend_from_slice(b"</testsuite>\n")?;
    Ok(text)
}

/// The suite of remarks in the form of JUnit, if there is one.
pub(crate) fn suite(alloc: Global, remarks: &[Remark<'_>]) -> Result<Vec<u8>, AllocError>
    ensures { IfOk result (λ text. text.items ≡ junit_suite (map said_by remarks.now)) }
{
    if remarks.is_empty() {
        return Ok(Vec::new(alloc));
    }
    some_suite(alloc, remarks)
}

/// The last suite, after others or as the first.
pub(crate) fn last_suite(
    alloc: Global,
    is_after: bool,
    remarks: &[Remark<'_>],
) -> Result<Vec<u8>, AllocError>
    ensures { IfOk result (λ text. text.items ≡ last_suite is_after (map said_by remarks.now)) }
{
    if !is_after && remarks.is_empty() {
        return Vec::from_slice(alloc, PASSED_SUITE.as_bytes());
    }
    suite(alloc, remarks)
}
