//! Two texts by lines.

ghost use Rattle.std.specs.Prelude.{◌≡◌, ◌<◌, ◌≤◌, ◌+◌, IfOk, length, map};
ghost use Rattle.line_diff.specs.Diffs.{count, is_changed, is_near, line_at, lines_of};

use std::alloc::{AllocError, Global};
use std::marker::Model;

/// The lines of a text, each with its LF, and a last one without, if there is one.
pub fn lines_of<'a>(alloc: Global, text: &'a [u8]) -> Result<Vec<&'a [u8]>, AllocError>
    ensures { IfOk result (λ lines. map (λ line. line.now) lines.items ≡ lines_of text.now) }
{
    let mut lines = Vec::new(alloc);
    let mut start = 0;
    for at in 0..text.len() {
        if text[at] != b'\n' {
            continue;
        }
        if let Err(_) = lines.push(&text[start..at + 1]) {
            return Err(AllocError);
        }
        start = at + 1;
    }
    if start >= text.len() {
        return Ok(lines);
    }
    if let Err(_) = lines.push(&text[start..]) {
        return Err(AllocError);
    }
    Ok(lines)
}

/// The line of this number, or nothing after the last.
fn line_at<'a>(lines: &[&'a [u8]], number: usize) -> &'a [u8]
    ensures { result.now ≡ line_at (map (λ line. line.now) lines.now) number }
{
    if number < lines.len() {
        return lines[number];
    }
    b""
}

/// A text and another, by lines.
#[derive(Drop)]
pub struct Lines<'a> {
    old: Vec<&'a [u8]>,
    new: Vec<&'a [u8]>,
}

impl<'a> Model for Lines<'a> {
    ghost use Rattle.std.specs.Prelude.{map};
    ghost use Rattle.line_diff.specs.Diffs.{Texts};

    ghost Value = { Texts };

    ghost view = { λ s. record {
      old = map (λ line. line.now) s.old.items;
      new = map (λ line. line.now) s.new.items;
    } };
}

impl<'a> Lines<'a> {
    pub fn new(old: Vec<&'a [u8]>, new: Vec<&'a [u8]>) -> Self
        ensures { result ≡ record {
          old = map (λ line. line.now) old.entry.items;
          new = map (λ line. line.now) new.entry.items;
        } }
    {
        Lines { old, new }
    }

    /// The old line of this number.
    pub fn old_line(&self, number: usize) -> &'a [u8]
        ensures { result.now ≡ line_at self.now.old number }
    {
        line_at(self.old.as_slice(), number)
    }

    /// The new line of this number.
    pub fn new_line(&self, number: usize) -> &'a [u8]
        ensures { result.now ≡ line_at self.now.new number }
    {
        line_at(self.new.as_slice(), number)
    }

    pub fn old_len(&self) -> usize
        ensures { result ≡ length self.now.old }
    {
        self.old.len()
    }

    pub fn new_len(&self) -> usize
        ensures { result ≡ length self.now.new }
    {
        self.new.len()
    }

    /// How many lines there are.
    pub fn len(&self) -> usize
        ensures { result ≡ count self.now }
    {
        self.old_len().max(self.new_len())
    }

    /// Whether the lines of this number differ.
    pub fn is_changed(&self, number: usize) -> bool
        ensures { result ≡ is_changed self.now number }
    {
        self.old_line(number) != self.new_line(number)
    }

    /// Whether the line this far after this one is changed.
    #[tactic(auto, using(crate::proofs::DiffLemmas::none_after))]
    fn is_changed_after(&self, number: usize, distance: usize) -> bool
        requires { number < count self.now }
        ensures { result ≡ is_changed self.now (number + distance) }
    {
        if distance < self.len() - number {
            return self.is_changed(number + distance);
        }
        false
    }

    /// Whether a line this far from this one is changed.
    pub fn is_near(&self, number: usize, distance: usize) -> bool
        requires { number < count self.now }
        ensures { result ≡ is_near self.now number distance }
    {
        self.is_changed(number.saturating_sub(distance)) || self.is_changed_after(number, distance)
    }
}
