//! The significant tokens, which patterns see: those that are no comment, blank or newline.

ghost use Rattle.std.specs.Prelude.{◌≡◌, ◌<◌, ◌≤◌, ◌+◌, ◌∷◌, [], length, MatchOption};
ghost use Rattle.hcl_tokens.specs.Kinds.{is};
ghost use Rattle.hcl_tokens.specs.declared.token.Kind.TheVariants.{Dot};
ghost use Rattle.hcl_grammar.specs.Numbered.{is_passed_over};
ghost use Rattle.tf_facts.specs.Seen.{after_dot, seen_from, IsNextSeen};

use hcl_tokens::{Kind, Tokens};

/// A significant token, and its number.
#[derive(Clone, Copy)]
pub struct SeenToken<'s> {
    pub number: usize,
    pub kind: Kind,
    pub text: &'s str,
}

/// Whether patterns pass over tokens of this kind.
pub fn is_passed_over(kind: Kind) -> bool
    ensures { result ≡ is_passed_over kind }
{
    matches!(
        kind,
        Kind::LineComment | Kind::InlineComment | Kind::Blank | Kind::Newline
    )
}

/// Whether the kind is a dot.
pub fn is_dot(kind: Kind) -> bool
    ensures { result ≡ is Dot kind }
{
    matches!(kind, Kind::Dot)
}

/// The first significant token from a number on.
pub fn next_seen<'s>(tokens: &Tokens<'s>, from: usize) -> Option<SeenToken<'s>>
    requires { from ≤ length tokens.now.tokens }
    ensures { MatchOption result (seen_from tokens.now.tokens from ≡ [])
        (IsNextSeen tokens.now.tokens from) }
{
    for number in from..tokens.len() {
        if !is_passed_over(tokens.kind(number)) {
            let token = tokens.get(number);
            return Some(SeenToken {
                number,
                kind: token.kind,
                text: token.text,
            });
        }
    }
    None
}

/// Whether the last significant token before this number is a dot. It looks back only over the tokens between.
pub fn is_after_dot(tokens: &Tokens<'_>, number: usize) -> bool
    requires { number ≤ length tokens.now.tokens }
    ensures { result ≡ after_dot tokens.now.tokens number }
{
    let mut before = number;
    while before > 0 {
        before -= 1;
        let kind = tokens.kind(before);
        if !is_passed_over(kind) {
            return is_dot(kind);
        }
    }
    false
}
