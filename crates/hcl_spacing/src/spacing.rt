//! One blank or none between two neighbours on a line. The words in quotation marks are headings of `docs/STYLE.md`,
//! "Between two words of a line", which has each rule with its examples.
ghost use Rattle.std.specs.Prelude.{◌≡◌, ◌||◌, ◌&&◌, not, Bool, IfNone, IfSome, IsTrue, Option, option_map, true};
ghost use Rattle.hcl_tokens.specs.Lexemes.{Lexeme};
ghost use Rattle.hcl_tokens.specs.Scanned.{lexeme};
ghost use Rattle.hcl_tokens.specs.Kinds.{is};
ghost use Rattle.hcl_tokens.specs.declared.token.Kind.TheVariants.{Dot, Ident, Newline};
ghost use Rattle.hcl_spacing.specs.Spacing.{AreUndecided, begins_with_colon, begins_with_equals, is_opening, has_blank, follows_kind};
ghost use Rattle.hcl_spacing.specs.Inner.KindPairs.{space_by_texts};

use crate::kind::{expects_operand, is_opener, is_operator};
use crate::rows::pair_space;
use hcl_tokens::{Kind, Token};

#[inline(always)]
fn begins_with_equals(text: &str) -> bool
    ensures { result ≡ begins_with_equals text.now }
{
    let Some(first) = text.as_bytes().first() else {
        return false;
    };
    *first == b'='
}

#[inline(always)]
fn begins_with_colon(text: &str) -> bool
    ensures { result ≡ begins_with_colon text.now }
{
    let Some(first) = text.as_bytes().first() else {
        return false;
    };
    *first == b':'
}

/// Whether the token before is a Dot.
#[inline(always)]
fn is_after_dot(before: Option<Token<'_>>) -> bool
    ensures { result ≡ follows_kind (is Dot) (option_map lexeme before.entry) }
{
    let Some(before) = before else {
        return false;
    };
    matches!(before.kind, Kind::Dot)
}

/// Whether the token before is an Ident.
#[inline(always)]
fn is_after_ident(before: Option<Token<'_>>) -> bool
    ensures { result ≡ follows_kind (is Ident) (option_map lexeme before.entry) }
{
    let Some(before) = before else {
        return false;
    };
    matches!(before.kind, Kind::Ident)
}

/// Whether an expression begins after the token before, so that a minus there is a sign.
#[inline(always)]
fn is_opening(before: Option<Token<'_>>) -> bool
    ensures { result ≡ is_opening (option_map lexeme before.entry) }
{
    let Some(before) = before else {
        return true;
    };
    is_opener(before.kind) || is_operator(before.kind) || expects_operand(before.kind)
}

/// The answer by the texts and the token before, if the kinds don't decide: whether a `!` would join `=`, a `:`
/// another, a number a dot, or the opening of a sequence the `~` that closes it, whether a minus is a sign, and whether
/// a name is the word `in`.
#[inline(always)]
fn space_by_texts(before: Option<Token<'_>>, subject: Token<'_>, after: Token<'_>) -> bool
    ensures { result ≡ space_by_texts (option_map lexeme before.entry) (lexeme subject.entry)
        (lexeme after.entry) }
{
    match subject.kind {
        // "Not" has no blank after it, unless the two would be read as `!=`
        Kind::Not => begins_with_equals(after.text),
        // "All else": a `:` has none before kinds without a blank before them, unless the two would be read as `::`
        Kind::Colon => begins_with_colon(after.text),
        // "Minus" has none after it if it is a sign: at the start of an expression
        Kind::Minus => !is_opening(before),
        // "A number and a dot": after a dot the number is a step, and joins no other dot
        Kind::Number => !is_after_dot(before),
        // "`in`" after a name, as in a `for`
        Kind::Ident => is_after_ident(before) && subject.text == "in",
        // "A number and a dot": `${~` would be another opener
        _ => after.text == "~}",
    }
}

/// Whether a token is kept as it is, whatever is before it: "Heredocs" are, byte for byte.
#[inline(always)]
fn is_kept(after: Token<'_>) -> bool
    ensures inside { result ≡ after.entry.inside_heredoc }
    ensures row { IsTrue result → (is Newline after.entry.kind || after.entry.inside_heredoc)
        ≡ true }
{
    after.inside_heredoc
}

/// The answer of two tokens' kinds, or the test that is needed.
#[inline(always)]
fn kinds_space(subject: Token<'_>, after: Token<'_>) -> Option<bool>
    ensures given { IfSome result (λ space. (before : Option Lexeme)
        → space ≡ has_blank before (lexeme subject.entry) (lexeme after.entry)) }
    ensures untold { IfNone result (AreUndecided subject.entry.kind after.entry.kind) }
    ensures asked { IfNone result ((before : Option Lexeme)
        → space_by_texts before (lexeme subject.entry) (lexeme after.entry)
        ≡ has_blank before (lexeme subject.entry) (lexeme after.entry)) }
{
    if is_kept(after) {
        return Some(false);
    }
    pair_space(subject.kind, after.kind)
}

/// Whether there is one blank between the subject and the token after it, if their kinds decide that, whatever their
/// texts and the token before.
#[inline(always)]
pub fn space_by_kinds(subject: Token<'_>, after: Token<'_>) -> Option<bool>
    ensures told { IfSome result (λ space. (before : Option Lexeme)
        → space ≡ has_blank before (lexeme subject.entry) (lexeme after.entry)) }
    ensures untold { IfNone result (AreUndecided subject.entry.kind after.entry.kind) }
{
    kinds_space(subject, after)
}

/// Whether there is one blank between the subject and the token after it on a line, or none. `before` is the token
/// before the subject on that line, if there is one.
#[inline(always)]
pub fn space_between(before: Option<Token<'_>>, subject: Token<'_>, after: Token<'_>) -> bool
    ensures { result ≡ has_blank (option_map lexeme before.entry) (lexeme subject.entry)
        (lexeme after.entry) }
{
    match kinds_space(subject, after) {
        Some(space) => space,
        None => space_by_texts(before, subject, after),
    }
}
