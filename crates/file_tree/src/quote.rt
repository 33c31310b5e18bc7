//! Names as they are shown.

ghost use Rattle.std.specs.Prelude.{◌≡◌, ◌++◌, ◌≤◌, ◌==◌, ℕ, List, IfOk, OnOk, false, flat_map, is_err, take};
ghost use Rattle.std.specs.List.{list_any};
ghost use Rattle.command_line.specs.Rows.{Took, writer};
ghost use Rattle.file_tree.specs.Quotes.{has_plain_blank, in_quotes, is_control, is_odd, shown_name, shown_byte, shown_head};

use hcl_source::{ByteSink, Failed, write_fully};
use std::alloc::{AllocError, Global};

static LETTERS: &[u8] = b"abtnvfr";

/// Whether a name is quoted for this byte.
fn is_odd(byte: u8) -> bool
    ensures { result ≡ is_odd byte }
{
    byte < 32 || byte == 127 || byte == b'"' || byte == b'\\'
}

/// The bytes that show a byte between quotes: the front of these, and how many.
fn escape_of(byte: u8) -> ([u8; 4], usize)
    ensures within { result.1 ≤ 4 }
    ensures shown { take result.1 result.0 ≡ shown_byte byte }
{
    if !is_odd(byte) {
        return ([byte, 0, 0, 0], 1);
    }
    if byte == b'"' || byte == b'\\' {
        return ([b'\\', byte, 0, 0], 2);
    }
    if byte >= 7 && byte <= 13 {
        return ([b'\\', LETTERS[(byte - 7) as usize], 0, 0], 2);
    }
    let digits = [b'\\', 48 + byte / 64, 48 + byte / 8 % 8, 48 + byte % 8];
    (digits, 4)
}

/// Whether a name is quoted.
fn has_odd(name: &[u8]) -> bool
    ensures { result ≡ list_any is_odd name.now }
{
    name.iter().any(|byte| is_odd(*byte))
}

fn has_blank(name: &[u8]) -> bool
    ensures { result ≡ list_any (λ b. b == 32) name.now }
{
    name.iter().any(|byte| *byte == b' ')
}

/// Appends a byte as it is shown between quotes.
fn push_shown(to: &mut Vec<u8>, byte: u8) -> Result<(), AllocError>
    ensures { OnOk result (to.new.items ≡ to.old.items ++ shown_byte byte) }
{
    let (bytes, count) = escape_of(byte);
    to.extend_from_slice(&bytes[..count])
}

/// Appends bytes as they are shown between quotes.
fn push_all_shown(to: &mut Vec<u8>, name: &[u8]) -> Result<(), AllocError>
    ensures { OnOk result (to.new.items ≡ to.old.items ++ flat_map shown_byte name.now) }
{
    for byte in name {
        push_shown(to, *byte)?;
    }
    Ok(())
}

/// Appends a text between double quotes.
pub fn push_in_quotes(to: &mut Vec<u8>, text: &[u8]) -> Result<(), AllocError>
    ensures { OnOk result (to.new.items ≡ to.old.items ++ in_quotes text.now) }
{
    to.extend_from_slice(b"\"")?;
    push_all_shown(to, text)?;
    to.extend_from_slice(b"\"")
}

/// A name as it is shown: itself, or between double quotes if it has a byte below blank, DEL, `"` or `\`.
pub fn quote_name(alloc: Global, name: &[u8]) -> Result<Vec<u8>, AllocError>
    ensures { IfOk result (λ text. text.items ≡ shown_name name.now) }
{
    if !has_odd(name) {
        return Vec::from_slice(alloc, name);
    }
    let mut to = Vec::new(alloc);
    push_in_quotes(&mut to, name)?;
    Ok(to)
}

/// A name as the head of a diff shows it: with a tab after it if it has a blank and isn't quoted, by which `patch`
/// takes it whole.
pub fn shown_head(alloc: Global, name: &[u8]) -> Result<Vec<u8>, AllocError>
    ensures { IfOk result (λ text. text.items ≡ shown_head name.now) }
{
    let mut to = quote_name(alloc, name)?;
    if has_plain_blank(name) {
        to.extend_from_slice(b"\t")?;
    }
    Ok(to)
}

fn has_plain_blank(name: &[u8]) -> bool
    ensures { result ≡ has_plain_blank name.now }
{
    !has_odd(name) && has_blank(name)
}

/// Writes the bytes, up to a write that fails.
fn write_bytes<S: ByteSink>(sink: &mut S, bytes: &[u8]) -> Result<(), Failed>
    requires { S.failed sink.old ≡ false }
    ensures took { Took (writer S.ByteSink sink.old sink.new) bytes.now }
    ensures failed { S.failed sink.new ≡ is_err result }
{
    match write_fully(sink, bytes) {
        Ok(()) => Ok(()),
        Err(_) => Err(Failed),
    }
}

/// Writes a byte as it is shown between quotes.
fn write_shown<S: ByteSink>(sink: &mut S, byte: u8) -> Result<(), Failed>
    requires { S.failed sink.old ≡ false }
    ensures took { Took (writer S.ByteSink sink.old sink.new) (shown_byte byte) }
    ensures failed { S.failed sink.new ≡ is_err result }
{
    let (bytes, count) = escape_of(byte);
    write_bytes(sink, &bytes[..count])
}

/// Writes bytes as they are shown between quotes, up to the first write that fails.
fn write_all_shown<S: ByteSink>(sink: &mut S, name: &[u8]) -> Result<(), Failed>
    requires { S.failed sink.old ≡ false }
    ensures took { Took (writer S.ByteSink sink.old sink.new) (flat_map shown_byte name.now) }
    ensures failed { S.failed sink.new ≡ is_err result }
{
    for byte in name {
        write_shown(sink, *byte)?;
    }
    Ok(())
}

/// Writes a name as it is shown, up to the first write that fails. It needs no memory.
pub fn write_quoted<S: ByteSink>(sink: &mut S, name: &[u8]) -> Result<(), Failed>
    requires { S.failed sink.old ≡ false }
    ensures took { Took (writer S.ByteSink sink.old sink.new) (shown_name name.now) }
    ensures failed { S.failed sink.new ≡ is_err result }
{
    if !has_odd(name) {
        return write_bytes(sink, name);
    }
    write_bytes(sink, b"\"")?;
    write_all_shown(sink, name)?;
    write_bytes(sink, b"\"")
}

/// No shown name has a control byte, so none has a newline. No program calls this: its contract is the law.
#[tactic(auto, using(crate::proofs::QuoteLemmas::quoted_plain))]
pub fn shown_without_controls()
    ensures { (name : List ℕ) → list_any is_control (shown_name name) ≡ false }
{}
