//! Commands for the log of a GitHub workflow.

ghost use Rattle.std.specs.Prelude.{◌≡◌, ◌++◌, IfOk, OnOk, chars, flat_map, map, string_bytes};
ghost use Rattle.lint_forms.specs.Remarks.{said_by};
ghost use Rattle.lint_forms.specs.Lines.{command_word, github_line, line_head, line_tail, message_char, property_char};

use crate::remark::Remark;
use crate::subject::Subject;
use crate::words::{rule_id, severity_of};
use rule_set::Severity;
use std::alloc::{AllocError, Global};

/// The command for a remark.
fn command_word(subject: Subject) -> &'static str
    ensures { result.now ≡ command_word subject }
{
    match severity_of(subject) {
        Severity::Notice => "notice",
        Severity::Warning => "warning",
        Severity::Error => "error",
    }
}

fn push_message_char(c: char, text: &mut String) -> Result<(), AllocError>
    ensures { OnOk result (string_bytes text.new ≡ string_bytes text.old ++ message_char c) }
{
    if c == '%' {
        return text.push_str("%25");
    }
    if c == '\r' {
        return text.push_str("%0D");
    }
    if c == '\n' {
        return text.push_str("%0A");
    }
    text.push(c)
}

fn push_property_char(c: char, text: &mut String) -> Result<(), AllocError>
    ensures { OnOk result (string_bytes text.new ≡ string_bytes text.old ++ property_char c) }
{
    if c == ':' {
        return text.push_str("%3A");
    }
    if c == ',' {
        return text.push_str("%2C");
    }
    push_message_char(c, text)
}

/// A message, escaped so that nothing ends it.
fn message(alloc: Global, text: &str) -> Result<String, AllocError>
    ensures { IfOk result (λ s. string_bytes s ≡ flat_map message_char (chars text.now)) }
{
    let mut escaped = String::new(alloc);
    for c in text.chars() {
        push_message_char(c, &mut escaped)?;
    }
    Ok(escaped)
}

/// A value before the message, escaped so that nothing ends it.
fn property(alloc: Global, text: &str) -> Result<String, AllocError>
    ensures { IfOk result (λ s. string_bytes s ≡ flat_map property_char (chars text.now)) }
{
    let mut escaped = String::new(alloc);
    for c in text.chars() {
        push_property_char(c, &mut escaped)?;
    }
    Ok(escaped)
}

/// The line for a remark up to the column.
fn line_head(alloc: Global, remark: Remark<'_>) -> Result<String, AllocError>
    ensures { IfOk result (λ s. string_bytes s ≡ line_head (said_by remark.entry)) }
{
    let word = command_word(remark.subject);
    let file = property(alloc, remark.file)?;
    format!(in alloc; "::{} file={},line={}", word, file.as_str(), remark.line)
}

/// The rest of the line.
fn line_tail(alloc: Global, remark: Remark<'_>) -> Result<String, AllocError>
    ensures { IfOk result (λ s. string_bytes s ≡ line_tail (said_by remark.entry)) }
{
    let name = rule_id(remark.subject);
    let text = message(alloc, remark.text)?;
    format!(in alloc;
        ",col={},title={}::{}\n",
        remark.column,
        name,
        text.as_str()
    )
}

/// The line for a remark.
fn github_line(alloc: Global, remark: Remark<'_>) -> Result<String, AllocError>
    ensures { IfOk result (λ s. string_bytes s ≡ github_line (said_by remark.entry)) }
{
    let mut line = line_head(alloc, remark)?;
    let tail = line_tail(alloc, remark)?;
    line.push_str(tail.as_str())?;
    Ok(line)
}

fn push_line(alloc: Global, remark: Remark<'_>, text: &mut Vec<u8>) -> Result<(), AllocError>
    ensures { OnOk result (text.new.items ≡ text.old.items ++ github_line (said_by remark.entry)) }
{
    let line = github_line(alloc, remark)?;
    text.extend_from_slice(line.as_bytes())
}

/// The lines for these remarks.
pub(crate) fn module_lines(alloc: Global, remarks: &[Remark<'_>]) -> Result<Vec<u8>, AllocError>
    ensures { IfOk result (λ text. text.items ≡ flat_map github_line (map said_by remarks.now)) }
{
    let mut text = Vec::new(alloc);
    for remark in remarks {
        push_line(alloc, *remark, &mut text)?;
    }
    Ok(text)
}
