//! The ends of segments: for each place where one can begin, the first newline from there on outside all openers.
//!
//! ```text
//! number    0  1   2   3   4   5   6   7   8   9  10
//! token     a  {   \n  b   =   [   \n  ]   \n  }   \n
//! ends     10      2   8               8       10      11
//! ```
//!
//! A segment begins with the first token, or after a newline or an opening brace. The numbers of other tokens are never
//! used.

ghost use Rattle.std.specs.Prelude.{◌≡◌, ◌≤◌, ◌+◌, ◌++◌, ◌∷◌, ◌||◌, [], ℕ, suc, List, length, get_or, reverse, slice_get, Some, IfOk, if◌then◌else◌};
ghost use Rattle.hcl_source.specs.Load.{max_source};
ghost use Rattle.hcl_tokens.specs.Balanced.{is_closer, is_opener};
ghost use Rattle.hcl_tokens.specs.Lexemes.{Lexeme};
ghost use Rattle.hcl_tokens.specs.Kinds.{is};
ghost use Rattle.hcl_tokens.specs.declared.token.Kind.TheVariants.{Newline};
ghost use Rattle.hcl_syntax.specs.Inner.Segments.{AreEnds, AreNewlinesAhead};

use hcl_tokens::{Kind, MAX_SOURCE, Nesting, Tokens};
use std::alloc::{AllocError, Global};

#[inline(always)]
fn is_newline(kind: Kind) -> bool
    ensures { result ≡ is Newline kind }
{
    matches!(kind, Kind::Newline)
}

/// The number of a newline, or otherwise another number. No processor can predict which tokens are newlines, so this is
/// written as a choice of two values, which needs no branch.
#[inline(always)]
fn newline_or(kind: Kind, number: u32, other: u32) -> u32
    ensures { result ≡ (if is Newline kind then number else other) }
{
    if is_newline(kind) {
        return number;
    }
    other
}

/// Whether a token of this kind opens or closes something. Few do.
#[inline(always)]
fn changes_depth(kind: Kind) -> bool
    ensures { result ≡ (is_opener kind || is_closer kind) }
{
    !matches!(kind.nesting(), Nesting::Neither)
}

#[inline(always)]
fn is_opener(kind: Kind) -> bool
    ensures { result ≡ is_opener kind }
{
    matches!(kind.nesting(), Nesting::Opens)
}

/// The number of tokens. Four bytes hold it, since there are no more tokens than bytes of the source.
pub fn token_count(tokens: &Tokens<'_>) -> u32
    ensures is { result ≡ length tokens.now.tokens }
    ensures small { result ≤ max_source }
{
    prove!(tokens.source().text().len() <= MAX_SOURCE);
    tokens.len() as u32
}

/// Pops the last number of the list, or returns another if the list is empty.
#[inline(always)]
fn take_last(numbers: &mut Vec<u32>, other: u32) -> u32
    ensures taken { result ≡ get_or (reverse numbers.old.items) 0 other }
    ensures left { (i : ℕ) → get_or (reverse numbers.new.items) i other
        ≡ get_or (reverse numbers.old.items) (suc i) other }
{
    match numbers.pop() {
        Some(number) => number,
        None => other,
    }
}

/// Steps over a token from right to left. `top` is the first newline outside all openers; `rest` has last the first one
/// with one opener open, before it the first one with two open, and so on; if it has no more, there is no newline.
/// Returns the new `top`.
#[inline(always)]
fn pass(
    kind: Kind,
    count: u32,
    number: u32,
    top: u32,
    rest: &mut Vec<u32>,
) -> Result<u32, AllocError>
    ensures { (tokens : List Lexeme) (t : Lexeme) → count ≡ length tokens
        → slice_get tokens number ≡ Some t → kind ≡ t.kind
        → AreNewlinesAhead tokens (rest.old.items ++ top ∷ []) (number + 1)
        → IfOk result (λ next. AreNewlinesAhead tokens (rest.new.items ++ next ∷ []) number) }
{
    if !changes_depth(kind) {
        return Ok(newline_or(kind, number, top));
    }
    if is_opener(kind) {
        return Ok(take_last(rest, count));
    }
    rest.push(top)?;
    Ok(top)
}

/// For each place where a segment can begin, the number of the first newline from there on outside all openers, or the
/// number of tokens. Other places may have any number: to leave them out would take a branch per token.
pub fn newlines(alloc: Global, tokens: &Tokens<'_>) -> Result<Vec<u32>, AllocError>
    ensures { IfOk result (λ ends. AreEnds tokens.now.tokens ends.items) }
{
    let count = token_count(tokens);
    let mut ends = vec![in alloc; 0; count as usize + 1]?;
    let mut rest = Vec::new(alloc);
    let mut top = count;
    let mut next = tokens.len();
    while next > 0 {
        let number = next - 1;
        ends[next] = top;
        top = pass(tokens.kind(number), count, number as u32, top, &mut rest)?;
        next = number;
    }
    ends[0] = top;
    Ok(ends)
}
