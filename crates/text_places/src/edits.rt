//! Edits of lines that differ.

ghost use Rattle.std.specs.Prelude.{◌≡◌, ℕ, ◌≢◌, ◌<◌, ◌≤◌, ◌++◌, [], length, map, slice_index, IfOk, OnOk};
ghost use Rattle.std.specs.Str.{bytes_eq, IsCharBoundary};
ghost use Rattle.text_places.specs.Edits.{EditsAscend, edit_of, line_edits, with_edit};
ghost use Rattle.text_places.specs.Inner.Cuts.{between, change, CutsLine};

use memchr::memchr;
use std::alloc::{AllocError, Global};

/// A text in place of the bytes of an old text, from one offset up to another.
#[derive(Clone, Copy)]
pub struct TextEdit<'a> {
    pub from: usize,
    pub to: usize,
    pub text: &'a str,
}

/// An offset of an old text, and one of the new text.
#[derive(Clone, Copy)]
struct Offsets {
    old: usize,
    new: usize,
}

/// The place of the first LF, or the text's length.
fn feed_place(text: &[u8]) -> usize
    ensures bound { result ≤ length text.now }
    ensures clean { (k : ℕ) → k < result → slice_index text.now k ≢ 10 }
    ensures stops { result < length text.now → slice_index text.now result ≡ 10 }
{
    memchr(b'\n', text).unwrap_or(text.len())
}

/// The end of the line that begins here.
fn line_end(text: &[u8], at: usize) -> usize
    requires { at < length text.now }
    ensures { CutsLine text.now at result }
{
    let (_, rest) = text.split_at(at);
    at + feed_place(rest).min(rest.len() - 1) + 1
}

/// Whether two parts of texts are the same.
fn is_same(old: &[u8], new: &[u8], start: Offsets, end: Offsets) -> bool
    requires old { start.old ≤ end.old }
    requires old_within { end.old ≤ length old.now }
    requires new { start.new ≤ end.new }
    requires new_within { end.new ≤ length new.now }
    ensures { result ≡ bytes_eq (between old.now start.old end.old)
        (between new.now start.new end.new) }
{
    old[start.old..end.old] == new[start.new..end.new]
}

/// Appends the change of one part into another, if either has bytes.
fn push_change<'a>(
    edits: &mut Vec<TextEdit<'a>>,
    new: &'a str,
    start: Offsets,
    end: Offsets,
) -> Result<(), AllocError>
    requires order { start.new ≤ end.new }
    requires start { IsCharBoundary new.now start.new }
    requires end { IsCharBoundary new.now end.new }
    ensures { OnOk result (map edit_of edits.new.items
        ≡ map edit_of edits.old.items
        ++ with_edit (change start.old end.old new.now start.new end.new) []) }
{
    if start.old == end.old && start.new == end.new {
        return Ok(());
    }
    let text = &new[start.new..end.new];
    match edits.push(TextEdit {
        from: start.old,
        to: end.old,
        text,
    }) {
        Ok(()) => Ok(()),
        Err(_) => Err(AllocError),
    }
}

/// The edits that make an old text a new one, one for each run of lines that differ.
pub fn edits_between<'a>(
    alloc: Global,
    old: &[u8],
    new: &'a str,
) -> Result<Vec<TextEdit<'a>>, AllocError>
    ensures edits { IfOk result (λ edits. map edit_of edits.items ≡ line_edits old.now new.now) }
    ensures ascend { IfOk result (λ edits. EditsAscend 0 (length old.now)
        (map edit_of edits.items)) }
{
    let bytes = new.as_bytes();
    let mut edits = Vec::new(alloc);
    let mut start = Offsets { old: 0, new: 0 };
    let mut at = start;
    while at.old < old.len() && at.new < bytes.len() {
        let end = Offsets {
            old: line_end(old, at.old),
            new: line_end(bytes, at.new),
        };
        if !is_same(old, bytes, at, end) {
            at = end;
            continue;
        }
        push_change(&mut edits, new, start, at)?;
        start = end;
        at = end;
    }
    let end = Offsets {
        old: old.len(),
        new: bytes.len(),
    };
    push_change(&mut edits, new, start, end)?;
    Ok(edits)
}
