//! Tokens other than comments, and searches among them.

ghost use Rattle.std.specs.Prelude.{◌≡◌, ◌≤◌, [], filter, length, MatchOption};
ghost use Rattle.hcl_tokens.specs.Kinds.{is};
ghost use Rattle.hcl_tokens.specs.declared.token.Kind.TheVariants.{Assign, BraceClose, BraceOpen, QuoteClose};
ghost use Rattle.hcl_syntax.specs.Inner.Segments.{IsFirst, words};
ghost use Rattle.hcl_grammar.specs.Items.{block_end, closing_quote};
ghost use Rattle.hcl_grammar.specs.Numbered.{end_of, is_comment};

use hcl_tokens::{Kind, Tokens};

/// A token other than a comment, and its number.
#[derive(Clone, Copy)]
pub struct NumberedKind {
    pub number: u32,
    pub kind: Kind,
}

fn is_comment(kind: Kind) -> bool
    ensures { result ≡ is_comment kind }
{
    matches!(kind, Kind::LineComment | Kind::InlineComment)
}

pub fn is_assign(kind: Kind) -> bool
    ensures { result ≡ is Assign kind }
{
    matches!(kind, Kind::Assign)
}

fn is_quote_close(kind: Kind) -> bool
    ensures { result ≡ is QuoteClose kind }
{
    matches!(kind, Kind::QuoteClose)
}

pub fn is_brace_open(kind: Kind) -> bool
    ensures { result ≡ is BraceOpen kind }
{
    matches!(kind, Kind::BraceOpen)
}

fn is_brace_close(kind: Kind) -> bool
    ensures { result ≡ is BraceClose kind }
{
    matches!(kind, Kind::BraceClose)
}

/// The first token other than a comment, from one number to before another.
pub fn first_word(tokens: &Tokens<'_>, from: u32, to: u32) -> Option<NumberedKind>
    requires { to ≤ length tokens.now.tokens }
    ensures { MatchOption result (words tokens.now.tokens from to ≡ [])
        (IsFirst tokens.now.tokens from to) }
{
    for number in from..to {
        let token = tokens.get(number as usize);
        if !is_comment(token.kind) {
            let kind = token.kind;
            return Some(NumberedKind { number, kind });
        }
    }
    None
}

/// The number of the first closing quote, or 0.
pub fn closing_quote(tokens: &Tokens<'_>, from: u32, to: u32) -> u32
    requires { to ≤ length tokens.now.tokens }
    ensures { result ≡ closing_quote (words tokens.now.tokens from to) }
{
    for number in from..to {
        let token = tokens.get(number as usize);
        if is_quote_close(token.kind) {
            return number;
        }
    }
    0
}

/// One past the number of the last closing brace, or 0.
pub fn block_end(tokens: &Tokens<'_>, from: u32, to: u32) -> u32
    requires within { to ≤ length tokens.now.tokens }
    requires ordered { from ≤ to }
    ensures is { result ≡ block_end (words tokens.now.tokens from to) }
    ensures within { result ≤ to }
{
    let mut end = to;
    while from < end {
        let last = tokens.get((end - 1) as usize);
        if is_brace_close(last.kind) {
            return end;
        }
        end -= 1;
    }
    0
}

/// One past the number of the last token other than a comment, or 0.
pub fn words_end(tokens: &Tokens<'_>, from: u32, to: u32) -> u32
    requires within { to ≤ length tokens.now.tokens }
    requires ordered { from ≤ to }
    ensures { result ≡ end_of (words tokens.now.tokens from to) }
{
    let mut end = to;
    while from < end {
        let last = tokens.get((end - 1) as usize);
        if !is_comment(last.kind) {
            return end;
        }
        end -= 1;
    }
    0
}
