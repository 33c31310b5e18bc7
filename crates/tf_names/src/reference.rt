//! References: `var.n`, `local.n`, `data.t.n` and `module.n`.

ghost use Rattle.std.specs.Prelude.{◌≡◌, ◌<◌, ◌+◌, ◌^◌, ◌∷◌, ◌++◌, ◌||◌, codes, length, map, IfSome, OnOk};
ghost use Rattle.std.specs.Option.{option_map};
ghost use Rattle.std.specs.Str.{bytes_eq};
ghost use Rattle.hcl_grammar.specs.Numbered.{number_tokens};
ghost use Rattle.tf_facts.specs.Seen.{after_dot, numbered_of, seen_from};
ghost use Rattle.tf_names.specs.Inner.Found.{listed_occurrence, reference_seen};
ghost use Rattle.tf_names.specs.Names.{listed_reference, name_references, occurrence_of, refers_at, refers_from};
ghost use Rattle.tf_names.specs.Views.{occurrence_seen};

use crate::name::Name;
use crate::occurrence::{Occurrence, OccurrenceKind};
use crate::stretch::{start_of, word_stretch};
use hcl_syntax::Accepted;
use hcl_tokens::Tokens;
use std::alloc::AllocError;
use tf_facts::{SeenToken, is_after_dot, is_ident, name_after};

/// The name in a reference, and the number of the token that is its last part.
#[derive(Clone, Copy)]
pub struct LastName<'s> {
    pub token: usize,
    pub name: Name<'s>,
}

/// Whether a reference can begin with this word.
fn is_leading(word: &str) -> bool
    ensures { result ≡ (bytes_eq word.now (codes "var") || bytes_eq word.now (codes "local")
        || bytes_eq word.now (codes "data") || bytes_eq word.now (codes "module")) }
{
    word == "var" || word == "local" || word == "data" || word == "module"
}

/// The reference that begins with a token.
fn reference_at<'s>(tokens: &Tokens<'s>, word: SeenToken<'s>) -> Option<LastName<'s>>
    requires within { word.number < length tokens.now.tokens }
    requires small { word.number + 1 < 2 ^ 64 }
    ensures is { option_map (reference_seen word.entry.number) result
        ≡ refers_at (numbered_of word.entry ∷ seen_from tokens.now.tokens
        (word.entry.number + 1)) }
    ensures within { IfSome result (λ n. n.token < length tokens.now.tokens) }
{
    if !is_ident(word.kind) {
        return None;
    }
    if !is_leading(word.text) {
        return None;
    }
    let Some(name) = name_after(tokens, word.number + 1) else {
        return None;
    };
    match word.text {
        "var" => Some(LastName {
            token: name.number,
            name: Name::Variable(name.text),
        }),
        "local" => Some(LastName {
            token: name.number,
            name: Name::Local(name.text),
        }),
        "module" => Some(LastName {
            token: name.number,
            name: Name::Module(name.text),
        }),
        "data" => match name_after(tokens, name.number + 1) {
            Some(second) => Some(LastName {
                token: second.number,
                name: Name::Data(name.text, second.text),
            }),
            None => None,
        },
        _ => None,
    }
}

/// The reference that begins with the token of this number.
fn reference_from<'s>(tokens: &Tokens<'s>, number: usize) -> Option<LastName<'s>>
    requires within { number < length tokens.now.tokens }
    requires small { number + 1 < 2 ^ 64 }
    ensures is { listed_reference (option_map (reference_seen number) result)
        ++ refers_from (after_dot tokens.now.tokens (number + 1))
        (seen_from tokens.now.tokens (number + 1))
        ≡ refers_from (after_dot tokens.now.tokens number) (seen_from tokens.now.tokens number) }
    ensures within { IfSome result (λ n. n.token < length tokens.now.tokens) }
{
    let token = tokens.get(number);
    if !is_ident(token.kind) {
        return None;
    }
    if is_after_dot(tokens, number) {
        return None;
    }
    let word = SeenToken {
        number,
        kind: token.kind,
        text: token.text,
    };
    reference_at(tokens, word)
}

/// The occurrence of a reference that begins with the token of this number.
fn occurrence_from<'s>(accepted: &Accepted<'_, 's>, number: usize) -> Option<Occurrence<'s>>
    requires within { number < length accepted.now.tokens }
    requires small { number + 1 < 2 ^ 64 }
    ensures { listed_occurrence result
        ++ map (occurrence_of accepted.now.tokens)
        (refers_from (after_dot accepted.now.tokens (number + 1))
        (seen_from accepted.now.tokens (number + 1)))
        ≡ map (occurrence_of accepted.now.tokens)
        (refers_from (after_dot accepted.now.tokens number)
        (seen_from accepted.now.tokens number)) }
{
    let tokens = accepted.tokens();
    let Some(reference) = reference_from(tokens, number) else {
        return None;
    };
    let last = word_stretch(accepted, reference.token);
    Some(Occurrence {
        name: reference.name,
        kind: OccurrenceKind::Reference,
        front: start_of(accepted, number),
        start: last.start,
        end: last.end,
    })
}

/// Pushes the references of a file, in order.
pub fn push_references<'s>(
    accepted: &Accepted<'_, 's>,
    found: &mut Vec<Occurrence<'s>>,
) -> Result<(), AllocError>
    ensures { OnOk result (map occurrence_seen found.new.items
        ≡ map occurrence_seen found.old.items ++ map (occurrence_of accepted.now.tokens)
        (name_references (number_tokens accepted.now.tokens))) }
{
    let tokens = accepted.tokens();
    for number in 0..tokens.len() {
        let Some(occurrence) = occurrence_from(accepted, number) else {
            continue;
        };
        found.push(occurrence)?;
    }
    Ok(())
}
