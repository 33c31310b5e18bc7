//! Snippets of one text.

ghost use Rattle.std.specs.Prelude.{◌≡◌, ◌==◌, IfOk};
ghost use Rattle.std.specs.List.{before_first};
ghost use Rattle.source_snippet.specs.Snippets.{after_lines, snippet, snippet_if, snippet_of_line};

use crate::line::{after_line, short_line};
use crate::visible::{Snippet, with_caret};
use arrayvec::ArrayVec;
use hcl_source::{Position, Source};
use std::alloc::{AllocError, Global};
use std::marker::Model;

/// A text, and how far its lines were passed: snippets in line order take one walk over the text.
#[derive(Drop)]
pub struct Lines<'t> {
    text: &'t str,
    rest: &'t str,
    passed: u32,
}

impl<'t> Model for Lines<'t> {
    ghost use Rattle.std.specs.Prelude.{◌≡◌, List, ℕ};
    ghost use Rattle.source_snippet.specs.Snippets.{after_lines};

    ghost Value = { List ℕ };

    ghost view = { λ s. s.text.now };

    ghost invariant = { λ s. s.rest.now ≡ after_lines s.passed s.text.now };
}

/// The snippet of a line, or nothing if none is shown.
fn snippet_of_line(rest: &str, column: u32) -> Snippet
    ensures { result.items ≡ snippet_of_line column (before_first (λ b. b == 10) rest.now) }
{
    match short_line(rest) {
        Some(line) if !line.is_empty() => with_caret(line, column),
        _ => ArrayVec::new(),
    }
}

impl<'t> Lines<'t> {
    pub fn new(text: &'t str) -> Lines<'t>
        ensures { result ≡ text.now }
    {
        Lines {
            text,
            rest: text,
            passed: 0,
        }
    }

    /// The text after this many lines.
    pub fn after(&mut self, count: u32) -> &'t str
        ensures rest { result.now ≡ after_lines count self.old }
        ensures same { self.new ≡ self.old }
    {
        let text = self.text;
        let (mut rest, mut passed) = (self.rest, self.passed);
        if count < passed {
            rest = text;
            passed = 0;
        }
        while passed < count && !rest.is_empty() {
            rest = after_line(rest);
            passed += 1;
        }
        *self = Lines { text, rest, passed };
        rest
    }

    /// The snippet for a place in the text.
    pub fn snippet(&mut self, at: Position) -> Snippet
        ensures snippet { result.items ≡ snippet self.old at }
        ensures same { self.new ≡ self.old }
    {
        let rest = self.after(at.line.saturating_sub(1));
        snippet_of_line(rest, at.column)
    }
}

/// The snippet for a place in a source, if one is to be shown.
pub fn snippet_of(
    alloc: Global,
    shows: bool,
    source: &Source,
    at: Position,
) -> Result<Vec<u8>, AllocError>
    ensures { IfOk result (λ text. text.items ≡ snippet_if shows source.now at) }
{
    let mut text = Vec::new(alloc);
    if shows {
        text.extend_from_slice(Lines::new(source.text()).snippet(at).as_slice())?;
    }
    Ok(text)
}
