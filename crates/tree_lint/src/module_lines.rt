//! The lines of the texts of a module's files, as a terminal shows them.

ghost use Rattle.std.specs.Prelude.{◌≡◌, [], get_or};
ghost use Rattle.source_snippet.specs.Snippets.{snippet, snippet_if};

use hcl_scan::{Position, Source};
use source_snippet::{Lines, Snippet};
use std::marker::Model;

/// The texts of a module's files: lines in the order of the files and of their lines take one walk over them.
#[derive(Drop)]
pub(crate) struct ModuleLines<'t> {
    texts: &'t [Source],
    number: u32,
    lines: Lines<'t>,
}

impl<'t> Model for ModuleLines<'t> {
    ghost use Rattle.std.specs.Prelude.{◌≡◌, List, ℕ, [], get_or};

    ghost Value = { List (List ℕ) };

    ghost view = { λ s. s.texts.now };

    ghost invariant = { λ s. s.lines ≡ get_or s.texts.now s.number [] };
}

/// The text of this number.
fn text_of(texts: &[Source], number: u32) -> &str
    ensures { result.now ≡ get_or texts.now number [] }
{
    match texts.get(number as usize) {
        Some(source) => source.text(),
        None => "",
    }
}

impl<'t> ModuleLines<'t> {
    pub(crate) fn new(texts: &'t [Source]) -> ModuleLines<'t>
        ensures { result ≡ texts.now }
    {
        ModuleLines {
            texts,
            number: 0,
            lines: Lines::new(text_of(texts, 0)),
        }
    }

    /// The snippet for a place in the file of this number.
    pub(crate) fn snippet(&mut self, number: u32, at: Position) -> Snippet
        ensures snippet { result.items ≡ snippet (get_or self.old number []) at }
        ensures same { self.new ≡ self.old }
    {
        if number != self.number {
            let texts = self.texts;
            *self = ModuleLines {
                texts,
                number,
                lines: Lines::new(text_of(texts, number)),
            };
        }
        self.lines.snippet(at)
    }

    /// The snippet for a place in the file of this number, if it is to be shown.
    pub(crate) fn snippet_if(&mut self, shows: bool, number: u32, at: Position) -> Snippet
        ensures snippet { result.items ≡ snippet_if shows (get_or self.old number []) at }
        ensures same { self.new ≡ self.old }
    {
        if !shows {
            return Snippet::new();
        }
        self.snippet(number, at)
    }
}
