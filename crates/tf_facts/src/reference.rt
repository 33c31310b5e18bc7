//! References: `var.n`, `local.n` and `data.t.n`.

ghost use Rattle.std.specs.Prelude.{◌≡◌, ◌<◌, ◌≤◌, ◌+◌, ◌^◌, ◌∷◌, ◌||◌, codes, drop, false, length, MatchOption, None};
ghost use Rattle.std.specs.Str.{bytes_eq};
ghost use Rattle.std.specs.Option.{option_map};
ghost use Rattle.hcl_tokens.specs.Kinds.{is};
ghost use Rattle.hcl_tokens.specs.declared.token.Kind.TheVariants.{Ident};
ghost use Rattle.tf_facts.specs.References.{name_after, reference_at, reference_of};
ghost use Rattle.tf_facts.specs.Seen.{IsAfter, seen_from, numbered_of};
ghost use Rattle.tf_facts.specs.Inner.Spelled.{spelling_of};

use crate::seen::{SeenToken, is_dot, is_passed_over, next_seen};
use hcl_tokens::{Kind, Tokens};

/// The name in a reference.
#[derive(Clone, Copy)]
pub enum Reference<'s> {
    Variable(&'s str),
    Local(&'s str),
    Data(&'s str, &'s str),
}

/// Whether the kind is an identifier.
pub fn is_ident(kind: Kind) -> bool
    ensures { result ≡ is Ident kind }
{
    matches!(kind, Kind::Ident)
}

/// Whether a dot and a name may follow a token: whether a dot comes next, or a token that is passed over.
#[inline(always)]
pub fn may_be_named(tokens: &Tokens<'_>, number: usize) -> bool
    requires within { number < length tokens.now.tokens }
    requires small { number + 1 < 2 ^ 64 }
    ensures { result ≡ false → name_after (seen_from tokens.now.tokens (number + 1)) ≡ None }
{
    let next = number + 1;
    if next >= tokens.len() {
        return false;
    }
    let kind = tokens.kind(next);
    is_dot(kind) || is_passed_over(kind)
}

/// The identifier in the dot and the name with which the significant tokens from a number on begin.
pub fn name_after<'s>(tokens: &Tokens<'s>, from: usize) -> Option<SeenToken<'s>>
    requires { from ≤ length tokens.now.tokens }
    ensures { MatchOption result (name_after (seen_from tokens.now.tokens from) ≡ None)
        (IsAfter tokens.now.tokens from) }
{
    let Some(dot) = next_seen(tokens, from) else {
        return None;
    };
    if !is_dot(dot.kind) {
        return None;
    }
    let Some(name) = next_seen(tokens, dot.number + 1) else {
        return None;
    };
    if !is_ident(name.kind) {
        return None;
    }
    Some(name)
}

/// Whether a reference can begin with this word.
fn is_leading(word: &str) -> bool
    ensures { result ≡ (bytes_eq word.now (codes "var") || bytes_eq word.now (codes "local")
        || bytes_eq word.now (codes "data")) }
{
    word == "var" || word == "local" || word == "data"
}

/// The reference that begins with a token.
pub fn reference_at<'s>(tokens: &Tokens<'s>, word: SeenToken<'s>) -> Option<Reference<'s>>
    requires within { word.number < length tokens.now.tokens }
    requires small { word.number + 1 < 2 ^ 64 }
    ensures { option_map spelling_of result
        ≡ reference_at (numbered_of word.entry ∷ seen_from tokens.now.tokens
        (word.entry.number + 1)) }
{
    if !is_ident(word.kind) {
        return None;
    }
    if !is_leading(word.text) {
        return None;
    }
    let Some(name) = name_after(tokens, word.number + 1) else {
        return None;
    };
    match word.text {
        "var" => Some(Reference::Variable(name.text)),
        "local" => Some(Reference::Local(name.text)),
        "data" => match name_after(tokens, name.number + 1) {
            Some(second) => Some(Reference::Data(name.text, second.text)),
            None => None,
        },
        _ => None,
    }
}
