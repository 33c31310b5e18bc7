//! Joining names.

ghost use Rattle.std.specs.Prelude.{◌≡◌, ◌&&◌, ◌==◌, ◌++◌, ◌||◌, IfOk, length, map};
ghost use Rattle.std.specs.Str.{bytes_eq};
ghost use Rattle.file_tree.specs.Below.{names_in_listing};
ghost use Rattle.file_tree.specs.Inner.Steps.{added_text, gap};
ghost use Rattle.file_tree.specs.Paths.{is_step, place, report_name, root, tidy_path, top};

use std::alloc::{AllocError, Global};

static SLASH: &[u8] = b"/";

static NOTHING: &[u8] = b"";

/// One text and then the other.
pub fn join(alloc: Global, front: &[u8], back: &[u8]) -> Result<Vec<u8>, AllocError>
    ensures { IfOk result (λ all. all.items ≡ front.now ++ back.now) }
{
    let mut all = Vec::new(alloc);
    all.extend_from_slice(front)?;
    all.extend_from_slice(back)?;
    Ok(all)
}

/// The names between the NULs of a text, and before the first and after the last.
pub fn names_in<'a>(alloc: Global, text: &'a [u8]) -> Result<Vec<&'a [u8]>, AllocError>
    ensures { IfOk result (λ names. map (λ name. name.now) names.items
        ≡ names_in_listing text.entry.now) }
{
    let mut names = Vec::new(alloc);
    for name in text.split(|b| *b == 0) {
        if names.push(name).is_err() {
            return Err(AllocError);
        }
    }
    Ok(names)
}

/// The root of a path: `/`, or nothing.
fn root(path: &[u8]) -> &'static [u8]
    ensures { result.now ≡ root path.now }
{
    if path.starts_with(b"/") {
        SLASH
    } else {
        NOTHING
    }
}

/// Whether a part of a path leads somewhere.
pub(crate) fn is_step(part: &[u8]) -> bool
    ensures { result ≡ is_step part.now }
{
    !part.is_empty() && part != b".".as_slice()
}

/// The separator before a part of a path, after others or for the first one.
fn gap(has_step: bool) -> &'static [u8]
    ensures { result.now ≡ gap has_step }
{
    if has_step { SLASH } else { NOTHING }
}

/// Appends a part of a path, after others or as the first one, unless it leads nowhere. Returns whether there is a part
/// now.
fn add_step(tidied: &mut Vec<u8>, has_step: bool, part: &[u8]) -> Result<bool, AllocError>
    ensures { IfOk result
        (λ has. (tidied.new.items ≡ tidied.old.items ++ added_text has_step part.now)
        × (has ≡ (has_step || is_step part.now))) }
{
    if !is_step(part) {
        return Ok(has_step);
    }
    tidied.extend_from_slice(gap(has_step))?;
    tidied.extend_from_slice(part)?;
    Ok(true)
}

/// A path without `.` and empty names in it, except a `/` at its front.
pub fn tidy(alloc: Global, path: &[u8]) -> Result<Vec<u8>, AllocError>
    ensures { IfOk result (λ path_tidied. path_tidied.items ≡ tidy_path path.now) }
{
    let mut tidied = Vec::new(alloc);
    tidied.extend_from_slice(root(path))?;
    let mut has_step = false;
    for part in path.split(|b| *b == b'/') {
        has_step = add_step(&mut tidied, has_step, part)?;
    }
    Ok(tidied)
}

/// A given folder, as it is listed: with a `/` at its end, unless it is the current one.
pub fn top(alloc: Global, path: &[u8]) -> Result<Vec<u8>, AllocError>
    ensures { IfOk result (λ folder. folder.items ≡ top path.now) }
{
    let tidied = tidy(alloc, path)?;
    if tidied.is_empty() || tidied.as_slice() == b"/".as_slice() {
        return Ok(tidied);
    }
    join(alloc, tidied.as_slice(), b"/")
}

/// The name under which a given path is reported that can't be looked at: tidied, unless nothing is left of it.
pub fn report_name(alloc: Global, path: &[u8]) -> Result<Vec<u8>, AllocError>
    ensures { IfOk result (λ name. name.items ≡ report_name path.now) }
{
    let tidied = tidy(alloc, path)?;
    if tidied.is_empty() {
        return join(alloc, path, b"");
    }
    // A slash at the end stays: `file/` isn't `file`.
    if path.ends_with(b"/") {
        return join(alloc, tidied.as_slice(), b"/");
    }
    Ok(tidied)
}

/// The name under which a folder is listed.
pub fn place(folder: &[u8]) -> &[u8]
    ensures { result.now ≡ place folder.now }
{
    if folder.is_empty() { b"./" } else { folder }
}
