//! The tokens of a source.

ghost use Rattle.std.specs.Prelude.{◌≡◌, ◌≤◌, ◌<◌, ◌==◌, Some, drop, length, slice_get, take};
ghost use Rattle.std.specs.Str.{IsCharBoundary};
ghost use Rattle.hcl_tokens.specs.Entries.{AreTokens, lexemes_of};
ghost use Rattle.hcl_tokens.specs.Lexemes.{Lexeme};
ghost use Rattle.hcl_tokens.specs.Scans.{Scans};
ghost use Rattle.hcl_tokens.specs.Scanned.{lexeme};

use crate::entries::Entries;
use crate::token::{Kind, Token};
use hcl_source::Source;
use std::marker::Model;

/// How many quotes, heredocs, sequences, braces, brackets and parens may be open at once.
pub const MAX_OPEN: usize = 256;

/// The tokens of a source. `hcl_scan::scan` finds them.
#[derive(Debug, Drop)]
pub struct Tokens<'s> {
    origin: &'s Source,
    entries: Entries,
}

impl<'s> Model for Tokens<'s> {
    ghost use Rattle.hcl_tokens.specs.Scanned.{Scanned};

    ghost Value = { Scanned };

    ghost use Rattle.hcl_tokens.specs.Entries.{AreTokens, lexemes_of};

    ghost view = { λ t. record {
      text = t.origin.now;
      tokens = lexemes_of t.origin.now t.entries;
    } };

    ghost invariant = { λ t. AreTokens t.origin.now t.entries };
}

impl<'s> Tokens<'s> {
    /// The tokens of a source, for a caller that has proved that the entries are the entries of its tokens.
    pub fn new(origin: &'s Source, entries: Entries) -> Tokens<'s>
        requires { AreTokens origin.now entries }
        ensures text { result.text ≡ origin.now }
        ensures tokens { result.tokens ≡ lexemes_of origin.now entries }
    {
        Tokens { origin, entries }
    }

    /// The source that was scanned.
    pub fn source(&self) -> &'s Source
        ensures source { result.now ≡ self.now.text }
        ensures scanned { Scans self.now.text self.now.tokens }
    {
        let _ = &self.entries;
        self.origin
    }

    /// How many tokens there are: at most as many as the source has bytes.
    pub fn len(&self) -> usize
        ensures len { result ≡ length self.now.tokens }
        ensures small { result ≤ length self.now.text }
    {
        self.entries.len()
    }

    /// Whether there is no token.
    pub fn is_empty(&self) -> bool
        ensures { result ≡ (length self.now.tokens == 0) }
    {
        self.entries.is_empty()
    }

    /// The token of this number.
    #[inline(always)]
    pub fn get(&self, i: usize) -> Token<'s>
        requires { i < length self.now.tokens }
        ensures token { slice_get self.now.tokens i ≡ Some (lexeme result) }
        ensures start { IsCharBoundary self.now.text result.start }
        ensures text { result.text.now ≡ take (length result.text.now)
            (drop result.start self.now.text) }
    {
        let span = self.entries.span(i);
        let start = span.start as usize;
        Token {
            kind: self.entries.kind(i),
            text: &self.origin.text()[start..start + span.length as usize],
            start,
            inside_heredoc: self.entries.is_inside_heredoc(i),
        }
    }

    /// The kind of the token of this number.
    #[inline(always)]
    pub fn kind(&self, i: usize) -> Kind
        requires { i < length self.now.tokens }
        ensures { (t : Lexeme) → slice_get self.now.tokens i ≡ Some t → result ≡ t.kind }
    {
        let _ = &self.origin;
        self.entries.kind(i)
    }

    /// Whether the token of this number is inside a heredoc.
    #[inline(always)]
    pub fn is_inside_heredoc(&self, i: usize) -> bool
        requires { i < length self.now.tokens }
        ensures { (t : Lexeme) → slice_get self.now.tokens i ≡ Some t → result ≡ t.inside_heredoc }
    {
        let _ = &self.origin;
        self.entries.is_inside_heredoc(i)
    }
}
