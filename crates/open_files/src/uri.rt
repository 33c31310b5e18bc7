//! URIs of files.

ghost use Rattle.std.specs.Prelude.{◌≡◌, ◌≤◌, IfOk, IsTrue, length, option_map, string_bytes};
ghost use Rattle.open_files.specs.Uris.{is_file_uri, path_of, uri_of};

use percent_encoding::{AsciiSet, NON_ALPHANUMERIC, ascii_set, percent_decode, percent_encode};
use std::alloc::{AllocError, Global};

/// The ASCII characters that are escaped in the URI of a path.
const ESCAPED: AsciiSet = ascii_set!(
    NON_ALPHANUMERIC
        .remove(b'-')
        .remove(b'.')
        .remove(b'_')
        .remove(b'~')
        .remove(b'/')
);

/// Whether this is the URI of a file on this machine.
fn is_file_uri(uri: &[u8]) -> bool
    ensures value { result ≡ is_file_uri uri.now }
    ensures bound { IsTrue result → 7 ≤ length uri.now }
{
    uri.starts_with(b"file:///") && !uri.contains(&b'?') && !uri.contains(&b'#')
}

/// The path of a file's URI, or `None` if it is no URI of a file on this machine or its path has a NUL byte. An error
/// means that memory ran out.
pub fn path_of(alloc: Global, uri: &str) -> Result<Option<Vec<u8>>, AllocError>
    ensures { IfOk result (λ path. option_map (λ p. p.items) path ≡ path_of uri.now) }
{
    let uri = uri.as_bytes();
    if !is_file_uri(uri) {
        return Ok(None);
    }
    let mut path = Vec::new(alloc);
    percent_decode(&uri[7..]).append_to(&mut path)?;
    if path.as_slice().contains(&0) {
        return Ok(None);
    }
    Ok(Some(path))
}

/// The URI of the file of a path, which begins with `/`.
pub fn uri_of(alloc: Global, path: &[u8]) -> Result<String, AllocError>
    ensures { IfOk result (λ uri. string_bytes uri ≡ uri_of path.now) }
{
    let mut uri = String::from_str(alloc, "file://")?;
    percent_encode(path, ESCAPED).append_to(&mut uri)?;
    Ok(uri)
}
