//! Messages about bad files, and about modules that aren't linted because of them.

ghost use Rattle.std.specs.Prelude.{◌≡◌, ◌++◌, Some, false, flat_map, is_err};
ghost use Rattle.command_line.specs.Rows.{Took, writer};
ghost use Rattle.file_tree.specs.Quotes.{shown_name};
ghost use Rattle.module_config.specs.Words.{bad_line, config_lines, configured_words, failure_lines, line_words, unlinted_line};

use crate::config_file::{ConfigFile, ConfigText};
use crate::config_lines::BadLine;
use crate::configure::Configured;
use crate::start::Start;
use command_line::write_parts;
use file_tree::quote::write_quoted;
use file_tree::walk::Found;
use hcl_source::{ByteSink, Failed};
use itoa::Buffer;
use module_find::refusal::{Refusal, tell_refusal};

/// Writes the text after the name of a file with a bad line.
fn tell_line_words<S: ByteSink>(sink: &mut S, bad: &BadLine) -> Result<(), Failed>
    requires { S.failed sink.old ≡ false }
    ensures took { Took (writer S.ByteSink sink.old sink.new) (line_words bad.now) }
    ensures failed { S.failed sink.new ≡ is_err result }
{
    let mut line = Buffer::new();
    let line = line.format(bad.line).as_bytes();
    let text = bad.text.as_bytes();
    write_parts(sink, &[b":", line, b": ", text, b"\n"])
}

/// Writes a name as it is shown, and the fault of a line of this file.
fn tell_named_line<S: ByteSink>(sink: &mut S, name: &[u8], bad: &BadLine) -> Result<(), Failed>
    requires { S.failed sink.old ≡ false }
    ensures took { Took (writer S.ByteSink sink.old sink.new)
        (shown_name name.now ++ line_words bad.now) }
    ensures failed { S.failed sink.new ≡ is_err result }
{
    if write_quoted(sink, name).is_err() {
        return Err(Failed);
    }
    tell_line_words(sink, bad)
}

/// Reports the fault of a line of the file with this name.
fn tell_line<S: ByteSink>(sink: &mut S, name: &[u8], bad: &BadLine) -> Result<(), Failed>
    requires { S.failed sink.old ≡ false }
    ensures took { Took (writer S.ByteSink sink.old sink.new) (bad_line name.now bad.now) }
    ensures failed { S.failed sink.new ≡ is_err result }
{
    if write_parts(sink, &[b"tfrules-all: error: "]).is_err() {
        return Err(Failed);
    }
    tell_named_line(sink, name, bad)
}

/// Reports the wrong lines of the file with this name.
fn tell_lines<S: ByteSink>(sink: &mut S, name: &[u8], all: &[BadLine]) -> Result<(), Failed>
    requires { S.failed sink.old ≡ false }
    ensures took { Took (writer S.ByteSink sink.old sink.new)
        (flat_map (bad_line name.now) all.now) }
    ensures failed { S.failed sink.new ≡ is_err result }
{
    for bad in all {
        tell_line(sink, name, bad)?;
    }
    Ok(())
}

/// Reports the fault of a file.
fn tell_file<S: ByteSink>(sink: &mut S, start: &Start, file: &ConfigFile) -> Result<(), Failed>
    requires { S.failed sink.old ≡ false }
    ensures took { Took (writer S.ByteSink sink.old sink.new) (config_lines start.now file.now) }
    ensures failed { S.failed sink.new ≡ is_err result }
{
    let name = start.display_path(file.name.as_slice());
    match &file.text {
        ConfigText::Says(config) => tell_lines(sink, name, config.faults.as_slice()),
        ConfigText::Refused(fault) => tell_refusal(
            sink,
            Refusal {
                name,
                at: Some(fault.at),
                text: fault.kind.text(),
                snippet: b"",
            },
        ),
        ConfigText::Unread(fault) => tell_refusal(
            sink,
            Refusal {
                name,
                at: None,
                text: fault.text(),
                snippet: b"",
            },
        ),
    }
}

/// Reports the faults of these files.
fn tell_files<S: ByteSink>(sink: &mut S, start: &Start, files: &[ConfigFile]) -> Result<(), Failed>
    requires { S.failed sink.old ≡ false }
    ensures took { Took (writer S.ByteSink sink.old sink.new)
        (flat_map (config_lines start.now) files.now) }
    ensures failed { S.failed sink.new ≡ is_err result }
{
    for file in files {
        tell_file(sink, start, file)?;
    }
    Ok(())
}

/// Reports a failed call.
fn tell_failure<S: ByteSink>(sink: &mut S, start: &Start, found: &Found) -> Result<(), Failed>
    requires { S.failed sink.old ≡ false }
    ensures took { Took (writer S.ByteSink sink.old sink.new) (failure_lines start.now found.now) }
    ensures failed { S.failed sink.new ≡ is_err result }
{
    match found.fault {
        Some(fault) => tell_refusal(
            sink,
            Refusal {
                name: start.display_path(found.name.as_slice()),
                at: None,
                text: fault.text(),
                snippet: b"",
            },
        ),
        None => Ok(()),
    }
}

/// Reports the failed calls.
fn tell_failures<S: ByteSink>(sink: &mut S, start: &Start, all: &[Found]) -> Result<(), Failed>
    requires { S.failed sink.old ≡ false }
    ensures took { Took (writer S.ByteSink sink.old sink.new)
        (flat_map (failure_lines start.now) all.now) }
    ensures failed { S.failed sink.new ≡ is_err result }
{
    for found in all {
        tell_failure(sink, start, found)?;
    }
    Ok(())
}

/// Reports bad files, and the failed calls of the search for them.
pub fn tell_configured<S: ByteSink>(sink: &mut S, configured: &Configured) -> Result<(), Failed>
    requires { S.failed sink.old ≡ false }
    ensures took { Took (writer S.ByteSink sink.old sink.new) (configured_words configured.now) }
    ensures failed { S.failed sink.new ≡ is_err result }
{
    let start = &configured.start;
    if tell_failures(sink, start, configured.failures.as_slice()).is_err() {
        return Err(Failed);
    }
    tell_files(sink, start, configured.files.as_slice())
}

/// Reports how many modules aren't linted because their options aren't known, if any.
pub fn tell_unlinted<S: ByteSink>(sink: &mut S, count: usize) -> Result<(), Failed>
    requires { S.failed sink.old ≡ false }
    ensures took { Took (writer S.ByteSink sink.old sink.new) (unlinted_line count) }
    ensures failed { S.failed sink.new ≡ is_err result }
{
    if count == 0 {
        return Ok(());
    }
    if count == 1 {
        return write_parts(sink, &[b"1 module not linted: its options aren't known\n"]);
    }
    let mut number = Buffer::new();
    let number = number.format(count).as_bytes();
    write_parts(
        sink,
        &[number, b" modules not linted: their options aren't known\n"],
    )
}
