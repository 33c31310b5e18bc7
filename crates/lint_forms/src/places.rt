//! The names of files as URIs.

ghost use Rattle.std.specs.Prelude.{◌≡◌, ◌++◌, ◌<◌, IfOk, OnOk, flat_map, string_bytes};
ghost use Rattle.lint_forms.specs.Places.{escape_byte, hex, is_kept, scheme, uri, uri_byte};

use std::alloc::{AllocError, Global};

/// Whether a byte stands for itself.
fn is_kept(byte: u8) -> bool
    ensures { result ≡ is_kept byte }
{
    byte.is_ascii_alphanumeric()
        || byte == b'-'
        || byte == b'.'
        || byte == b'/'
        || byte == b'_'
        || byte == b'~'
}

/// A digit to the base of 16.
fn hex(digit: u8) -> char
    requires { digit < 16 }
    ensures { result ≡ hex digit }
{
    if digit < 10 {
        return (b'0' + digit) as char;
    }
    (b'A' + (digit - 10)) as char
}

fn push_escaped(byte: u8, text: &mut String) -> Result<(), AllocError>
    ensures { OnOk result (string_bytes text.new ≡ string_bytes text.old ++ escape_byte byte) }
{
    text.push('%')?;
    text.push(hex(byte / 16))?;
    text.push(hex(byte % 16))
}

fn push_uri_byte(byte: u8, text: &mut String) -> Result<(), AllocError>
    ensures { OnOk result (string_bytes text.new ≡ string_bytes text.old ++ uri_byte byte) }
{
    if is_kept(byte) {
        return text.push(byte as char);
    }
    push_escaped(byte, text)
}

fn push_uri_bytes(bytes: &[u8], text: &mut String) -> Result<(), AllocError>
    ensures { OnOk result (string_bytes text.new
        ≡ string_bytes text.old ++ flat_map uri_byte bytes.now) }
{
    for byte in bytes {
        push_uri_byte(*byte, text)?;
    }
    Ok(())
}

/// The prefix of a path from the root.
fn scheme(name: &str) -> &'static str
    ensures { result.now ≡ scheme name.now }
{
    if name.as_bytes().first() == Some(&b'/') {
        return "file://";
    }
    ""
}

/// A name as a URI: a path from the root is one of a file, and any other is a relative reference.
pub(crate) fn uri_of(alloc: Global, name: &str) -> Result<String, AllocError>
    ensures { IfOk result (λ s. string_bytes s ≡ uri name.now) }
{
    let mut escaped = String::from_str(alloc, scheme(name))?;
    push_uri_bytes(name.as_bytes(), &mut escaped)?;
    Ok(escaped)
}
