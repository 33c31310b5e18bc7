//! Values that are plain texts.

ghost use Rattle.std.specs.Prelude.{◌≡◌, ◌≤◌, ◌&&◌, not, [], length, MatchOption};
ghost use Rattle.std.specs.Option.{option_map};
ghost use Rattle.hcl_tokens.specs.Kinds.{is};
ghost use Rattle.hcl_tokens.specs.declared.token.Kind.TheVariants.{Lit, Newline, QuoteClose, QuoteOpen};
ghost use Rattle.hcl_grammar.specs.Numbered.{is_comment};
ghost use Rattle.tf_facts.specs.Declarations.{plain_text};
ghost use Rattle.tf_facts.specs.Inner.Values.{IsFirstValue, plain_text_of, values};

use crate::seen::SeenToken;
use crate::value::Plain;
use hcl_tokens::{Kind, Tokens};

/// Whether tokens of this kind are part of a value: comments and newlines aren't.
fn counts(kind: Kind) -> bool
    ensures { result ≡ (not (is_comment kind) && not (is Newline kind)) }
{
    !matches!(
        kind,
        Kind::LineComment | Kind::InlineComment | Kind::Newline
    )
}

fn is_quote_open(kind: Kind) -> bool
    ensures { result ≡ is QuoteOpen kind }
{
    matches!(kind, Kind::QuoteOpen)
}

fn is_quote_close(kind: Kind) -> bool
    ensures { result ≡ is QuoteClose kind }
{
    matches!(kind, Kind::QuoteClose)
}

fn is_lit(kind: Kind) -> bool
    ensures { result ≡ is Lit kind }
{
    matches!(kind, Kind::Lit)
}

/// The first token from a number on to before another that is neither a comment nor a newline.
fn next_value<'s>(tokens: &Tokens<'s>, from: usize, to: usize) -> Option<SeenToken<'s>>
    requires { to ≤ length tokens.now.tokens }
    ensures { MatchOption result (values tokens.now.tokens from to ≡ [])
        (IsFirstValue tokens.now.tokens from to) }
{
    for number in from..to {
        let token = tokens.get(number);
        if counts(token.kind) {
            return Some(SeenToken {
                number,
                kind: token.kind,
                text: token.text,
            });
        }
    }
    None
}

/// The plain text of these tokens, if they are one without comments and newlines.
pub fn plain_text<'s>(tokens: &Tokens<'s>, from: usize, to: usize) -> Option<Plain<'s>>
    requires { to ≤ length tokens.now.tokens }
    ensures { option_map plain_text_of result ≡ plain_text (values tokens.now.tokens from to) }
{
    let Some(quote) = next_value(tokens, from, to) else {
        return None;
    };
    let Some(second) = next_value(tokens, quote.number + 1, to) else {
        return None;
    };
    let Some(third) = next_value(tokens, second.number + 1, to) else {
        if is_quote_open(quote.kind) && is_quote_close(second.kind) {
            return Some(Plain {
                quote: quote.number,
                text: "",
            });
        }
        return None;
    };
    if next_value(tokens, third.number + 1, to).is_some() {
        return None;
    }
    if is_quote_open(quote.kind) && is_lit(second.kind) && is_quote_close(third.kind) {
        return Some(Plain {
            quote: quote.number,
            text: second.text,
        });
    }
    None
}
