//! The report on a file.

ghost use Rattle.std.specs.Prelude.{◌≡◌, ◌||◌, [], false, ◌++◌, codes, is_err, map};
ghost use Rattle.std.specs.List.{concat};
ghost use Rattle.command_line.specs.Rows.{Took, fault_words, writer};
ghost use Rattle.file_tree.specs.Quotes.{shown_name};
ghost use Rattle.file_tree.specs.Files.{Name};
ghost use Rattle.tree_format.specs.Reports.{about, name_line, refused_words, report_of, rights_words, snippet_text, worse_status};
ghost use Rattle.tree_format.specs.declared.mode.Ending.TheVariants.{Line};
ghost use Rattle.tree_format.specs.Inner.Parts.{place_words};

use crate::mode::{Ending, Mode};
use crate::outcome::Outcome;
use command_line::{Streams, write_parts};
use file_tree::quote::write_quoted;
use file_tree::tree::Replaced;
use hcl_scan::{ByteSink, Failed, Fault};
use itoa::Buffer;

/// Writes a name, quoted as in messages, and then the parts.
fn write_named<S: ByteSink>(sink: &mut S, name: &[u8], parts: &[&[u8]]) -> Result<(), Failed>
    requires { S.failed sink.old ≡ false }
    ensures took { Took (writer S.ByteSink sink.old sink.new)
        (shown_name name.now ++ concat (map (λ part. part.now) parts.now)) }
    ensures failed { S.failed sink.new ≡ is_err result }
{
    if write_quoted(sink, name).is_err() {
        return Err(Failed);
    }
    write_parts(sink, parts)
}

/// Writes `NAME: TEXT`.
fn tell_about<S: ByteSink>(sink: &mut S, name: &[u8], text: &str) -> Result<(), Failed>
    requires { S.failed sink.old ≡ false }
    ensures took { Took (writer S.ByteSink sink.old sink.new) (about name.now text.now) }
    ensures failed { S.failed sink.new ≡ is_err result }
{
    write_named(sink, name, &[b": ", text.as_bytes(), b"\n"])
}

/// Writes `NAME:LINE:COLUMN: TEXT`.
fn tell_at<'p, S: ByteSink>(
    sink: &mut S,
    name: &[u8],
    line: &'p str,
    column: &'p str,
    text: &'p str,
) -> Result<(), Failed>
    requires { S.failed sink.old ≡ false }
    ensures took { Took (writer S.ByteSink sink.old sink.new)
        (shown_name name.now ++ place_words line.now column.now text.now) }
    ensures failed { S.failed sink.new ≡ is_err result }
{
    let line = line.as_bytes();
    let column = column.as_bytes();
    let text = text.as_bytes();
    write_named(sink, name, &[b":", line, b":", column, b": ", text, b"\n"])
}

/// Writes the place and the fault of a refused file.
fn tell_fault<S: ByteSink>(sink: &mut S, name: &[u8], fault: &Fault) -> Result<(), Failed>
    requires { S.failed sink.old ≡ false }
    ensures took { Took (writer S.ByteSink sink.old sink.new)
        (shown_name name.now ++ (codes ":" ++ fault_words fault.now)) }
    ensures failed { S.failed sink.new ≡ is_err result }
{
    let mut line = Buffer::new();
    let mut column = Buffer::new();
    let line = line.format(fault.at.line);
    let column = column.format(fault.at.column);
    tell_at(sink, name, line, column, fault.kind.text())
}

/// Writes the place and the fault of a refused file, and then the line that is shown of it.
fn tell_refused<S: ByteSink>(
    sink: &mut S,
    name: &[u8],
    fault: &Fault,
    snippet: &Option<Vec<u8>>,
) -> Result<(), Failed>
    requires { S.failed sink.old ≡ false }
    ensures took { Took (writer S.ByteSink sink.old sink.new)
        (refused_words name.now fault.now (snippet_text snippet.now)) }
    ensures failed { S.failed sink.new ≡ is_err result }
{
    if tell_fault(sink, name, fault).is_err() {
        return Err(Failed);
    }
    match snippet {
        Some(text) => write_parts(sink, &[text.as_slice()]),
        None => Ok(()),
    }
}

/// Prints a name.
fn tell_name<S: ByteSink>(sink: &mut S, ending: Ending, name: &[u8]) -> Result<(), Failed>
    requires { S.failed sink.old ≡ false }
    ensures took { Took (writer S.ByteSink sink.old sink.new) (name_line ending name.now) }
    ensures failed { S.failed sink.new ≡ is_err result }
{
    match ending {
        Ending::Line => write_named(sink, name, &[b"\n"]),
        Ending::Null => write_parts(sink, &[name, b"\0"]),
    }
}

/// Reports the rights to a file that was written, if they were narrowed.
fn tell_rights<S: ByteSink>(sink: &mut S, how: Replaced, name: &[u8]) -> Result<(), Failed>
    requires { S.failed sink.old ≡ false }
    ensures took { Took (writer S.ByteSink sink.old sink.new) (rights_words how name.now) }
    ensures failed { S.failed sink.new ≡ is_err result }
{
    match how {
        Replaced::Kept => Ok(()),
        Replaced::Narrowed => tell_about(
            sink,
            name,
            "its group cannot be kept: group and others have the rights that both had",
        ),
    }
}

/// Reports that a file was written.
fn tell_written<O: ByteSink, E: ByteSink>(
    how: Replaced,
    name: &[u8],
    streams: &mut Streams<O, E>,
) -> Result<(), Failed>
    requires out { O.failed streams.old.out ≡ false }
    requires err { E.failed streams.old.err ≡ false }
    ensures out { Took (writer O.ByteSink streams.old.out streams.new.out)
        (name_line Line name.now) }
    ensures err { Took (writer E.ByteSink streams.old.err streams.new.err)
        (rights_words how name.now) }
    ensures failed { is_err result ≡ (O.failed streams.new.out || E.failed streams.new.err) }
{
    let told = tell_rights(&mut streams.err, how, name);
    if tell_name(&mut streams.out, Ending::Line, name).is_err() {
        return Err(Failed);
    }
    told
}

/// Reports the outcome for a file.
pub fn report<O: ByteSink, E: ByteSink>(
    mode: Mode,
    name: &[u8],
    outcome: &Outcome,
    streams: &mut Streams<O, E>,
) -> Result<(), Failed>
    requires out { O.failed streams.old.out ≡ false }
    requires err { E.failed streams.old.err ≡ false }
    ensures out { Took (writer O.ByteSink streams.old.out streams.new.out)
        (report_of mode name.now outcome.now).out }
    ensures err { Took (writer E.ByteSink streams.old.err streams.new.err)
        (report_of mode name.now outcome.now).err }
    ensures failed { is_err result ≡ (O.failed streams.new.out || E.failed streams.new.err) }
{
    match outcome {
        Outcome::Formatted => Ok(()),
        Outcome::Changed(how) => match mode {
            Mode::Write(_) => tell_written(*how, name, streams),
            Mode::Check => tell_about(&mut streams.err, name, "not formatted"),
            Mode::List(ending) => tell_name(&mut streams.out, ending, name),
            Mode::Diff => tell_name(&mut streams.out, Ending::Line, name),
        },
        Outcome::Differs(text) => write_parts(&mut streams.out, &[text.as_slice()]),
        Outcome::Refused(fault, snippet) => tell_refused(&mut streams.err, name, fault, snippet),
        Outcome::Failed(fault) => tell_about(&mut streams.err, name, fault.text()),
    }
}

/// The status for a file.
pub fn status_of(mode: Mode, outcome: &Outcome) -> u8
    ensures { (name : Name) → result ≡ (report_of mode name outcome.now).status }
{
    match outcome {
        Outcome::Formatted => 0,
        Outcome::Changed(_) => match mode {
            Mode::Write(_) => 0,
            _ => 3,
        },
        Outcome::Differs(_) => 3,
        Outcome::Refused(..) => 2,
        Outcome::Failed(_) => 4,
    }
}

/// The worse of two statuses: 4 is worse than 2, and 2 than 3.
pub fn worse_status(one: u8, other: u8) -> u8
    ensures { result ≡ worse_status one other }
{
    if one == 4 || other == 4 {
        return 4;
    }
    if one == 2 || other == 2 {
        return 2;
    }
    one.max(other)
}
