//! The messages about a module that isn't linted.

ghost use Rattle.std.specs.Prelude.{◌≡◌, ◌++◌, Some, false, flat_map, is_err, map};
ghost use Rattle.std.specs.List.{concat};
ghost use Rattle.command_line.specs.Rows.{Took, writer};
ghost use Rattle.module_find.specs.Refusals.{named_words, refusal_line, refusal_of, refusal_view, refusal_words, reported_fault};
ghost use Rattle.module_find.specs.Faults.{fault_lines, refusal_by};

use command_line::write_parts;
use file_tree::fault::TreeFault;
use file_tree::quote::write_quoted;
use file_tree::walk::Found;
use hcl_source::{ByteSink, Failed, Position};
use itoa::Buffer;

/// Why a module isn't linted, or one of several reasons.
#[derive(Clone, Copy)]
pub struct Refusal<'a> {
    /// The name of a file or a folder.
    pub name: &'a [u8],
    /// The place in the file, if there is one.
    pub at: Option<Position>,
    /// The message.
    pub text: &'a str,
    /// The part of the file that is shown there.
    pub snippet: &'a [u8],
}

impl<'a> Refusal<'a> {
    /// A refusal without a place.
    pub fn of_name(name: &'a [u8], text: &'a str) -> Refusal<'a>
        ensures { refusal_view result ≡ refusal_of name.now text.now }
    {
        Refusal {
            name,
            at: None,
            text,
            snippet: b"",
        }
    }
}

/// Writes `:LINE:COLUMN: TEXT`, and the part of the file that is shown there.
fn tell_place<'p, S: ByteSink>(
    sink: &mut S,
    at: Position,
    text: &'p str,
    snippet: &'p [u8],
) -> Result<(), Failed>
    requires { S.failed sink.old ≡ false }
    ensures took { Took (writer S.ByteSink sink.old sink.new)
        (refusal_words (Some at) text.now ++ snippet.now) }
    ensures failed { S.failed sink.new ≡ is_err result }
{
    let mut line = Buffer::new();
    let mut column = Buffer::new();
    let line = line.format(at.line).as_bytes();
    let column = column.format(at.column).as_bytes();
    let text = text.as_bytes();
    write_parts(
        sink,
        &[b":", line, b":", column, b": ", text, b"\n", snippet],
    )
}

/// Writes the text after the name.
fn tell_words<'p, S: ByteSink>(
    sink: &mut S,
    at: Option<Position>,
    text: &'p str,
    snippet: &'p [u8],
) -> Result<(), Failed>
    requires { S.failed sink.old ≡ false }
    ensures took { Took (writer S.ByteSink sink.old sink.new)
        (refusal_words at text.now ++ snippet.now) }
    ensures failed { S.failed sink.new ≡ is_err result }
{
    match at {
        Some(at) => tell_place(sink, at, text, snippet),
        None => write_parts(sink, &[b": ", text.as_bytes(), b"\n", snippet]),
    }
}

/// Writes a name, quoted as in messages, and the text after it.
fn tell_named<S: ByteSink>(sink: &mut S, refusal: Refusal<'_>) -> Result<(), Failed>
    requires { S.failed sink.old ≡ false }
    ensures took { Took (writer S.ByteSink sink.old sink.new)
        (named_words (refusal_view refusal.entry)) }
    ensures failed { S.failed sink.new ≡ is_err result }
{
    if write_quoted(sink, refusal.name).is_err() {
        return Err(Failed);
    }
    tell_words(sink, refusal.at, refusal.text, refusal.snippet)
}

/// Writes the line of a refusal, which begins with the name of this program.
pub fn tell_refusal<S: ByteSink>(sink: &mut S, refusal: Refusal<'_>) -> Result<(), Failed>
    requires { S.failed sink.old ≡ false }
    ensures took { Took (writer S.ByteSink sink.old sink.new)
        (refusal_line (refusal_view refusal.entry)) }
    ensures failed { S.failed sink.new ≡ is_err result }
{
    if write_parts(sink, &[b"tfrules-all: error: "]).is_err() {
        return Err(Failed);
    }
    tell_named(sink, refusal)
}

/// The fault that is reported: `-` is a missing name like any other.
pub(crate) fn reported_fault(fault: TreeFault) -> TreeFault
    ensures { result ≡ reported_fault fault }
{
    match fault {
        TreeFault::NoInput => TreeFault::Missing,
        _ => fault,
    }
}

/// Writes the line of a found name that can't be linted, if it can't.
fn tell_fault<S: ByteSink>(sink: &mut S, found: &Found) -> Result<(), Failed>
    requires { S.failed sink.old ≡ false }
    ensures took { Took (writer S.ByteSink sink.old sink.new) (fault_lines found.now) }
    ensures failed { S.failed sink.new ≡ is_err result }
{
    match found.fault {
        Some(fault) => tell_refusal(
            sink,
            Refusal::of_name(found.name.as_slice(), reported_fault(fault).text()),
        ),
        None => Ok(()),
    }
}

/// Writes the lines of the names that can't be linted, up to a write that fails.
pub fn tell_faults<S: ByteSink>(sink: &mut S, faults: &[Found]) -> Result<(), Failed>
    requires { S.failed sink.old ≡ false }
    ensures took { Took (writer S.ByteSink sink.old sink.new) (flat_map fault_lines faults.now) }
    ensures failed { S.failed sink.new ≡ is_err result }
{
    for found in faults {
        tell_fault(sink, found)?;
    }
    Ok(())
}
