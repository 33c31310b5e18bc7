//! The tokens to lay out, and the widths of their texts.
ghost use Rattle.std.specs.Prelude.{◌≡◌, ◌<◌, ◌≤◌, ◌+◌, ◌^◌, ◌&&◌, IfSome, IsTrue, Some, true, length, drop, nat_le, slice_get, take};
ghost use Rattle.std.specs.List.{prefix_len};
ghost use Rattle.std.specs.Str.{chars};
ghost use Rattle.unicode_segmentation.specs.Grapheme.{graphemes};
ghost use Rattle.hcl_tokens.specs.Lexemes.{Lexeme};
ghost use Rattle.hcl_tokens.specs.Scanned.{lexeme};
ghost use Rattle.hcl_tokens.specs.Balanced.{IsBalanced};
ghost use Rattle.hcl_layout.specs.Inner.Bounds.{IsBounded};
ghost use Rattle.hcl_layout.specs.Inner.Simple.{IsFrom, are_alone, is_alone as is_alone_of, is_simple as is_simple_of, is_simple_byte};
ghost use Rattle.hcl_layout.specs.Inner.LineGaps.{len_with_blanks};

use hcl_grammar::Accepted;
use hcl_tokens::{Kind, Token, Tokens};
use std::marker::Model;
use unicode_segmentation::UnicodeSegmentation;

/// Tokens, and whether their source is ASCII without CR: then each text is as wide as its bytes. The whole source is
/// tested for that once, not each text.
#[derive(Drop)]
pub struct Measured<'t, 's> {
    tokens: &'t Tokens<'s>,
    simple: bool,
}

impl<'t, 's> Model for Measured<'t, 's> {
    ghost use Rattle.std.specs.Prelude.{◌≡◌, true};
    ghost use Rattle.hcl_tokens.specs.Scanned.{Scanned};
    ghost use Rattle.hcl_layout.specs.Inner.Bounds.{IsBounded};
    ghost use Rattle.hcl_layout.specs.Inner.Simple.{is_simple};

    ghost Value = { Scanned };

    ghost view = { λ m. m.tokens.now };

    ghost invariant = { λ m. (m.simple ≡ true → is_simple m.tokens.now.text ≡ true)
        × IsBounded m.tokens.now };
}

/// Whether the bytes are ASCII without CR, so that each is a grapheme cluster. The loop reads all of them, whatever the
/// first ones are, and keeps the result of a step on sixteen bytes, so that it can be vectorised.
pub fn is_simple(bytes: &[u8]) -> bool
    ensures { result ≡ is_simple_of bytes.now }
{
    let mut highest = 0;
    let mut returns = false;
    for byte in bytes {
        highest = highest.max(*byte);
        returns = returns | (*byte == b'\r');
    }
    highest < 128 && !returns
}

fn is_between(c: char, first: char, last: char) -> bool
    ensures { result ≡ (nat_le first c && nat_le c last) }
{
    first <= c && c <= last
}

/// Whether a character from U+0300 on, the first that joins with the one before it, is a grapheme cluster by itself.
/// This is a call, since the compiler would otherwise test all ranges for each character.
#[inline(never)]
fn is_alone_above(c: char) -> bool
    requires { 0x300 ≤ c }
    ensures { result ≡ is_alone_of c }
{
    is_between(c, '\u{370}', '\u{482}')
        || is_between(c, '\u{48a}', '\u{590}')
        || is_between(c, '\u{1e00}', '\u{200b}')
        || is_between(c, '\u{2010}', '\u{20cf}')
        || is_between(c, '\u{2100}', '\u{2cee}')
        || is_between(c, '\u{2e00}', '\u{3029}')
        || is_between(c, '\u{3030}', '\u{3098}')
        || is_between(c, '\u{309b}', '\u{a66e}')
        || is_between(c, '\u{f900}', '\u{fb1d}')
        || is_between(c, '\u{ff00}', '\u{ff9d}')
        || is_between(c, '\u{1f000}', '\u{1f1e5}')
        || is_between(c, '\u{1f200}', '\u{1f3fa}')
        || is_between(c, '\u{1f400}', '\u{1faff}')
        || is_between(c, '\u{20000}', '\u{3ffff}')
}

/// Whether a character is a grapheme cluster by itself among others of its sort, as nearly all are outside a few
/// scripts: one that never joins with the one before it or after it, as combining accents, CR and half of a flag do.
fn is_alone(c: char) -> bool
    ensures { result ≡ is_alone_of c }
{
    if c < '\u{300}' {
        return c != '\r';
    }
    is_alone_above(c)
}

/// How many bytes at the front are ASCII, except CR.
fn simple_len(bytes: &[u8]) -> usize
    ensures count { result ≡ prefix_len is_simple_byte bytes.now }
    ensures within { result ≤ length bytes.now }
{
    bytes
        .iter()
        .take_while(|b| **b < 128 && **b != b'\r')
        .count()
}

/// How many characters a text has, if each of them is a grapheme cluster by itself.
fn count_alone(text: &str) -> Option<u64>
    ensures alone { IfSome result (λ n. are_alone (chars text.now) ≡ true) }
    ensures count { IfSome result (λ n. n ≡ length (chars text.now)) }
    ensures within { IfSome result (λ n. n ≤ length text.now) }
{
    // a text's length fits the count, and so does the number of its characters
    let _size = text.len();
    let mut count = 0;
    for c in text.chars() {
        if !is_alone(c) {
            return None;
        }
        count += 1;
    }
    Some(count)
}

/// How many extended grapheme clusters a text has. Most texts are ASCII; most others are ASCII up to some character and
/// then have only characters that are clusters by themselves; few need the tables:
///
/// ```text
/// size_1        6 bytes
/// größe_1       2 bytes, and 5 characters
/// e + U+0301    1 byte; but by the tables it is one cluster with the accent after it
/// ```
#[inline(never)]
fn count_clusters(text: &str) -> u64
    ensures count { result ≡ length (graphemes true text.now) }
    ensures within { result ≤ length text.now }
{
    let front = simple_len(text.as_bytes());
    match count_alone(&text[front..]) {
        Some(count) => front as u64 + count,
        None => text.graphemes(true).count() as u64,
    }
}

/// Whether a text is one byte of ASCII except CR, as most of the signs are.
fn is_one_byte(text: &str) -> bool
    ensures simple { IsTrue result → is_simple_of text.now ≡ true }
    ensures one { IsTrue result → length text.now ≡ 1 }
{
    let bytes = text.as_bytes();
    bytes.len() == 1 && bytes[0] < 128 && bytes[0] != b'\r'
}

impl<'t, 's> Measured<'t, 's> {
    /// The tokens that were accepted.
    pub fn new(accepted: &Accepted<'t, 's>) -> Measured<'t, 's>
        ensures same { result ≡ accepted.now }
        ensures balanced { IsBalanced accepted.now.tokens }
    {
        let tokens = accepted.tokens();
        // its contract says that there are no more tokens than bytes
        let _count = tokens.len();
        let simple = is_simple(tokens.source().text().as_bytes());
        Measured { tokens, simple }
    }

    /// The tokens for a caller that needs no width, and so no look at the source.
    pub fn without_widths(accepted: &Accepted<'t, 's>) -> Measured<'t, 's>
        ensures same { result ≡ accepted.now }
        ensures balanced { IsBalanced accepted.now.tokens }
    {
        let tokens = accepted.tokens();
        // their contracts say that there are no more tokens than bytes, and that the tokens are a scan
        let _count = tokens.len();
        let _bytes = tokens.source().text().as_bytes();
        Measured {
            tokens,
            simple: false,
        }
    }

    /// The bytes of the source. Its size bounds the number of tokens and their texts, and so every sum about the print.
    pub fn source(&self) -> &'s [u8]
        ensures text { result.now ≡ self.now.text }
        ensures bounded { IsBounded self.now }
    {
        self.tokens.source().text().as_bytes()
    }

    /// The most that the texts take, each with a blank: no byte belongs to two of them.
    pub fn len_bound(&self) -> u64
        ensures bound { len_with_blanks self.now.tokens ≤ result }
        ensures small { result ≤ 2 ^ 23 }
    {
        (self.tokens.len() + self.tokens.source().text().len()) as u64
    }

    /// How many tokens there are.
    pub fn len(&self) -> usize
        ensures len { result ≡ length self.now.tokens }
        ensures bounded { IsBounded self.now }
    {
        self.tokens.len()
    }

    /// The token of this number.
    #[inline(always)]
    pub fn get(&self, i: usize) -> Token<'s>
        requires { i < length self.now.tokens }
        ensures token { slice_get self.now.tokens i ≡ Some (lexeme result) }
        ensures source { IsFrom self.now.text result.start result.text.now }
        ensures bounded { IsBounded self.now }
    {
        self.tokens.get(i)
    }

    /// The kind of the token of this number.
    pub fn kind(&self, i: usize) -> Kind
        requires { i < length self.now.tokens }
        ensures { (t : Lexeme) → slice_get self.now.tokens i ≡ Some t → result ≡ t.kind }
    {
        self.tokens.kind(i)
    }

    /// Whether the token of this number is inside a heredoc.
    pub fn is_inside_heredoc(&self, i: usize) -> bool
        requires { i < length self.now.tokens }
        ensures { (t : Lexeme) → slice_get self.now.tokens i ≡ Some t
            → result ≡ t.inside_heredoc }
    {
        self.tokens.is_inside_heredoc(i)
    }

    /// The width of a token's text: its number of grapheme clusters.
    #[inline(always)]
    pub fn clusters(&self, token: Token<'_>) -> u64
        requires source { IsFrom self.now.text token.start token.text.now }
        ensures count { result ≡ length (graphemes true token.entry.text.now) }
        ensures within { result ≤ length token.entry.text.now }
    {
        if self.simple {
            return token.text.len() as u64;
        }
        if is_one_byte(token.text) {
            return 1;
        }
        count_clusters(token.text)
    }
}
