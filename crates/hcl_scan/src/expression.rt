//! The longest token at the front of the visible text in an expression.

ghost use Rattle.std.specs.Prelude.{◌≡◌, ℕ, Bool, Some, None, IfSome, IfNone};
ghost use Rattle.std.specs.Str.{IsCharBoundary};
ghost use Rattle.hcl_tokens.specs.Spelling.{IsNewline};
ghost use Rattle.hcl_scan.specs.Inner.Found.{FindsAt, HasNoneAt, IsLongestFront, HasNoFront, BlankText, NumberText, CloserText, closer_kind};
ghost use Rattle.hcl_scan.specs.Inner.Fronts.{IsFront};
ghost use Rattle.hcl_scan.specs.Inner.Prefixes.{prefix_of};
ghost use Rattle.hcl_scan.specs.declared.front.Front.TheVariants.{Led};
ghost use Rattle.hcl_scan.specs.declared.front.Prefix.TheVariants.{LessLess};
ghost use Rattle.hcl_tokens.specs.declared.token.Kind.TheVariants.{Newline};

use crate::comment::inline_comment_len;
use crate::found::FoundToken;
use crate::front::{Front, Prefix, front_of};
use crate::ident::{begun_ident, heredoc_open_len};
use crate::number::{digits_len, number_len};
use crate::text::{blanks_len, line_len, newline_len};
use hcl_tokens::Kind;

/// The state on which the next token of an expression depends, besides the text.
#[derive(Clone, Copy)]
pub struct Surroundings {
    /// The token before is a Dot.
    pub after_dot: bool,
    /// Some heredoc is open.
    pub inside_heredoc: bool,
    /// A `}` closes a sequence.
    pub closes_sequence: bool,
}

fn found_as(kind: Kind, len: Option<usize>) -> Option<FoundToken>
    ensures some { IfSome result (λ f. (f.kind ≡ kind) × (len ≡ Some f.len)) }
    ensures none { IfNone result (len ≡ None) }
{
    match len {
        Some(len) => Some(FoundToken { kind, len }),
        None => None,
    }
}

/// The newline at the front: nearly always LF alone.
fn found_newline(seen: &[u8]) -> Option<FoundToken>
    ensures found { IfSome result (λ f. (f.kind ≡ Newline)
        × IsLongestFront IsNewline seen.now f.len) }
    ensures none { IfNone result (HasNoFront IsNewline seen.now) }
{
    if seen.starts_with(b"\n") {
        return Some(FoundToken {
            kind: Kind::Newline,
            len: 1,
        });
    }
    found_as(Kind::Newline, newline_len(seen))
}

/// Blanks, which are a token inside a heredoc.
fn blank_len(seen: &[u8], inside_heredoc: bool) -> Option<usize>
    ensures found { IfSome result (IsLongestFront (BlankText inside_heredoc) seen.now) }
    ensures none { IfNone result (HasNoFront (BlankText inside_heredoc) seen.now) }
{
    if inside_heredoc {
        blanks_len(seen)
    } else {
        None
    }
}

/// A number; after a Dot only its digits belong to the token.
fn numeral_len(seen: &[u8], after_dot: bool) -> Option<usize>
    ensures found { IfSome result (IsLongestFront (NumberText after_dot) seen.now) }
    ensures none { IfNone result (HasNoFront (NumberText after_dot) seen.now) }
{
    if after_dot {
        digits_len(seen)
    } else {
        number_len(seen)
    }
}

fn closer_kind(closes_sequence: bool) -> Kind
    ensures { result ≡ closer_kind closes_sequence }
{
    if closes_sequence {
        Kind::SeqClose
    } else {
        Kind::BraceClose
    }
}

/// The closer of a sequence or of a brace.
fn closer_len(seen: &[u8], closes_sequence: bool) -> Option<usize>
    ensures found { IfSome result (IsLongestFront (CloserText closes_sequence) seen.now) }
    ensures none { IfNone result (HasNoFront (CloserText closes_sequence) seen.now) }
{
    if seen.starts_with(b"}") {
        return Some(1);
    }
    if closes_sequence && seen.starts_with(b"~}") {
        Some(2)
    } else {
        None
    }
}

/// A heredoc's opener, or the first `<` of two.
fn opener_or_less(seen: &str) -> FoundToken
    requires { prefix_of seen.now ≡ LessLess }
    ensures found { (after_dot inside closes : Bool)
        → FindsAt after_dot inside closes seen.now result.kind result.len }
    ensures boundary { IsCharBoundary seen.now result.len }
{
    match heredoc_open_len(seen) {
        Some(len) => FoundToken {
            kind: Kind::HeredocOpen,
            len,
        },
        None => FoundToken {
            kind: Kind::Less,
            len: 1,
        },
    }
}

/// The longest token at the front of the visible text, if its first bytes are no mark.
fn token_by_prefix(seen: &str, prefix: Prefix, around: Surroundings) -> Option<FoundToken>
    requires { IsFront seen.now (Led prefix) }
    ensures found { IfSome result (λ f. FindsAt around.after_dot around.inside_heredoc
        around.closes_sequence seen.now f.kind f.len) }
    ensures boundary { IfSome result (λ f. IsCharBoundary seen.now f.len) }
    ensures none { IfNone result (HasNoneAt around.after_dot around.inside_heredoc
        around.closes_sequence seen.now) }
{
    let bytes = seen.as_bytes();
    match prefix {
        Prefix::LineEnd => found_newline(bytes),
        Prefix::Space => found_as(Kind::Blank, blank_len(bytes, around.inside_heredoc)),
        Prefix::Letter => begun_ident(seen),
        Prefix::Digit => found_as(Kind::Number, numeral_len(bytes, around.after_dot)),
        Prefix::HashOrSlashes => Some(FoundToken {
            kind: Kind::LineComment,
            len: line_len(bytes),
        }),
        Prefix::SlashStar => found_as(Kind::InlineComment, inline_comment_len(bytes)),
        Prefix::OneSlash => Some(FoundToken {
            kind: Kind::Slash,
            len: 1,
        }),
        Prefix::LessLess => Some(opener_or_less(seen)),
        Prefix::Closer => found_as(
            closer_kind(around.closes_sequence),
            closer_len(bytes, around.closes_sequence),
        ),
        Prefix::Sign => None,
    }
}

/// The longest token at the front of the visible text in an expression. `seen` is the text after the gap.
pub(crate) fn next_in_expression(seen: &str, around: Surroundings) -> Option<FoundToken>
    ensures found { IfSome result (λ f. FindsAt around.after_dot around.inside_heredoc
        around.closes_sequence seen.now f.kind f.len) }
    ensures boundary { IfSome result (λ f. IsCharBoundary seen.now f.len) }
    ensures none { IfNone result (HasNoneAt around.after_dot around.inside_heredoc
        around.closes_sequence seen.now) }
{
    match front_of(seen.as_bytes()) {
        Front::Mark(kind, len) => Some(FoundToken { kind, len }),
        Front::Led(prefix) => token_by_prefix(seen, prefix, around),
    }
}
