//! Short operands, found by looking only at their tokens.

ghost use Rattle.std.specs.Prelude.{◌≡◌, ◌+◌, ◌<◌, ◌≤◌, drop, length, IfSome};
ghost use Rattle.hcl_grammar.specs.Classes.{lookaheads_from};
ghost use Rattle.hcl_syntax.specs.Inner.ShortOperands.{ends_expression, is_short_operand, is_opening_quote, is_dot, is_identifier, is_quoted, AreSteps, IsQuoted, IsOperand};

use crate::class::lookahead_at;
use hcl_grammar::{Class, Newlines};
use hcl_tokens::Tokens;

/// Whether no expression continues with a token of the class, and it isn't skipped.
#[inline(always)]
pub fn ends_expression(newlines: Newlines, class: Class) -> bool
    ensures { result ≡ ends_expression newlines class }
{
    match class {
        Class::Newline => matches!(newlines, Newlines::Seen),
        Class::Comma
        | Class::ParenClose
        | Class::BracketClose
        | Class::BraceClose
        | Class::SeqClose
        | Class::Assign
        | Class::Arrow
        | Class::Colon
        | Class::Ellipsis => true,
        _ => false,
    }
}

/// Whether a token of the class is an operand by itself, apart from its continuation.
#[inline(always)]
fn is_short_operand(class: Class) -> bool
    ensures { result ≡ is_short_operand class }
{
    matches!(class, Class::Ident(_) | Class::Number(_))
}

#[inline(always)]
fn is_opening_quote(class: Class) -> bool
    ensures { result ≡ is_opening_quote class }
{
    matches!(class, Class::QuoteOpen)
}

#[inline(always)]
fn is_dot(class: Class) -> bool
    ensures { result ≡ is_dot class }
{
    matches!(class, Class::Dot)
}

#[inline(always)]
fn is_identifier(class: Class) -> bool
    ensures { result ≡ is_identifier class }
{
    matches!(class, Class::Ident(_))
}

/// Whether two tokens are the text between quotes without sequences and the closing quote.
#[inline(always)]
fn is_quoted(first: Class, second: Class) -> bool
    ensures { result ≡ is_quoted first second }
{
    matches!((first, second), (Class::Lit, Class::QuoteClose))
}

/// The end of the steps by name that begin at a number.
#[inline(always)]
fn steps_end(tokens: &Tokens, count: usize, from: usize) -> usize
    requires within { from ≤ count }
    requires count { count ≡ length tokens.now.tokens }
    ensures from_on { from ≤ result }
    ensures within { result ≤ length tokens.now.tokens }
    ensures steps { AreSteps (lookaheads_from from (drop from tokens.now.tokens))
        (lookaheads_from result (drop result tokens.now.tokens)) }
{
    let mut number = from;
    while count - number >= 2 {
        let dot = lookahead_at(tokens, number);
        if !is_dot(dot.class) {
            return number;
        }
        let name = lookahead_at(tokens, number + 1);
        if !is_identifier(name.class) {
            return number;
        }
        number += 2;
    }
    number
}

/// The end of a text between quotes without sequences, after its opening quote.
#[inline(always)]
fn quoted_end(tokens: &Tokens, count: usize, from: usize) -> Option<usize>
    requires within { from ≤ count }
    requires count { count ≡ length tokens.now.tokens }
    ensures within { IfSome result (λ end. end ≤ length tokens.now.tokens) }
    ensures quoted { IfSome result (λ end. IsQuoted
        (lookaheads_from from (drop from tokens.now.tokens))
        (lookaheads_from end (drop end tokens.now.tokens))) }
{
    if count - from < 2 {
        return None;
    }
    let first = lookahead_at(tokens, from);
    let second = lookahead_at(tokens, from + 1);
    if !is_quoted(first.class, second.class) {
        return None;
    }
    Some(from + 2)
}

/// The end of the operand that begins at a number, if it is a name or a number with steps by name, or a text between
/// quotes without sequences.
#[inline(always)]
pub fn operand_end(tokens: &Tokens, count: usize, from: usize) -> Option<usize>
    requires within { from ≤ count }
    requires count { count ≡ length tokens.now.tokens }
    ensures within { IfSome result (λ end. end ≤ length tokens.now.tokens) }
    ensures operand { IfSome result (λ end. IsOperand
        (lookaheads_from from (drop from tokens.now.tokens))
        (lookaheads_from end (drop end tokens.now.tokens))) }
{
    if from >= count {
        return None;
    }
    let first = lookahead_at(tokens, from);
    if is_short_operand(first.class) {
        return Some(steps_end(tokens, count, from + 1));
    }
    if is_opening_quote(first.class) {
        return quoted_end(tokens, count, from + 1);
    }
    None
}
