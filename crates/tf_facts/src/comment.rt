//! The line comments of a file that begin with `//` or silence a rule.

ghost use Rattle.std.specs.Prelude.{◌≡◌, ◌<◌, ◌++◌, ◌||◌, length, map, slice_get, Some, OnOk};
ghost use Rattle.hcl_tokens.specs.Kinds.{is};
ghost use Rattle.hcl_tokens.specs.declared.token.Kind.TheVariants.{LineComment};
ghost use Rattle.hcl_tokens.specs.Lexemes.{Lexeme};
ghost use Rattle.tf_facts.specs.Comments.{comment_of, if_telling, is_any};
ghost use Rattle.rule_set.specs.RuleSets.{rules_of};
ghost use Rattle.tf_facts.specs.Silencing.{has_slashes, silenced_rules};
ghost use Rattle.tf_facts.specs.Found.{comment};
ghost use Rattle.tf_facts.specs.Inner.FoundViews.{comment_listed};
ghost use Rattle.tf_facts.specs.Seen.{number_of};

use crate::found::FoundComment;
use crate::silencing::{has_slashes, silenced_rules};
use hcl_tokens::{Kind, Tokens};
use rule_set::RuleSet;
use std::alloc::AllocError;

fn is_line_comment(kind: Kind) -> bool
    ensures { result ≡ is LineComment kind }
{
    matches!(kind, Kind::LineComment)
}

/// Whether a set has a rule.
pub fn is_any(set: RuleSet) -> bool
    ensures { result ≡ is_any (rules_of set) }
{
    set.holds_any()
}

/// Whether rules need a comment.
fn is_telling(slashes: bool, silences: RuleSet) -> bool
    ensures { result ≡ (slashes || is_any (rules_of silences)) }
{
    slashes || is_any(silences)
}

/// The line comment of this number and text, if rules need it.
fn telling_comment(number: usize, text: &[u8]) -> Option<FoundComment>
    ensures { comment_listed result
        ≡ if_telling (record {
          at = number;
          slashes = has_slashes text.now;
          silences = silenced_rules text.now;
        }) }
{
    let slashes = has_slashes(text);
    let silences = silenced_rules(text);
    if !is_telling(slashes, silences) {
        return None;
    }
    Some(FoundComment {
        at: number,
        has_slashes: slashes,
        silences,
    })
}

/// The line comment of the token of this number, if it is one that rules need.
fn comment_at(tokens: &Tokens<'_>, number: usize) -> Option<FoundComment>
    requires { number < length tokens.now.tokens }
    ensures { (t : Lexeme) → slice_get tokens.now.tokens number ≡ Some t
        → comment_listed result ≡ comment_of (number_of number t) }
{
    if !is_line_comment(tokens.kind(number)) {
        return None;
    }
    let token = tokens.get(number);
    telling_comment(number, token.text.as_bytes())
}

/// Pushes the line comment of the token of this number, if it is one that rules need.
pub fn push_comment(
    tokens: &Tokens<'_>,
    number: usize,
    found: &mut Vec<FoundComment>,
) -> Result<(), AllocError>
    requires { number < length tokens.now.tokens }
    ensures { OnOk result ((t : Lexeme) → slice_get tokens.now.tokens number ≡ Some t
        → map comment found.new.items ≡ map comment found.old.items
        ++ comment_of (number_of number t)) }
{
    let Some(comment) = comment_at(tokens, number) else {
        return Ok(());
    };
    found.push(comment)?;
    Ok(())
}
