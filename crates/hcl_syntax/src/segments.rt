//! The items of tokens, appended segment by segment.

ghost use Rattle.std.specs.Prelude.{◌≡◌, ◌<◌, ◌≤◌, ◌+◌, ◌++◌, length, IfOk, OnOk};
ghost use Rattle.hcl_source.specs.Load.{max_source};
ghost use Rattle.hcl_syntax.specs.Inner.Segments.{AreEnds, CanBegin, items_at, words};
ghost use Rattle.hcl_syntax.specs.Inner.Bodies.{IsAfterBrace, PushesBlock, PushesSegment};
ghost use Rattle.hcl_grammar.specs.Items.{label_at, labels};

use crate::words::{block_end, closing_quote, first_word, is_assign, is_brace_open, words_end};
use hcl_grammar::Outline;
use hcl_tokens::{Kind, Tokens};
use std::alloc::AllocError;

/// The tokens between a block's braces, by the number of the first and one past the last; it may be empty.
#[derive(Clone, Copy)]
struct BlockBody {
    first: u32,
    end: u32,
}

/// Appends the label that begins with a token: an identifier, or a quote.
fn push_label_at(
    tokens: &Tokens<'_>,
    number: u32,
    kind: Kind,
    to: u32,
    items: &mut Outline,
) -> Result<(), AllocError>
    requires within { to ≤ length tokens.now.tokens }
    requires before { number < to }
    ensures { OnOk result (items.new
        ≡ items.old ++ label_at number kind (words tokens.now.tokens (number + 1) to)) }
{
    match kind {
        Kind::Ident => items.push_label(number, number),
        Kind::QuoteOpen => {
            let last = closing_quote(tokens, number + 1, to);
            items.push_label(number, last)
        }
        _ => Ok(()),
    }
}

/// Appends the labels before the first opening brace, and returns one past the number of that brace, or the end.
fn push_labels(
    tokens: &Tokens<'_>,
    from: u32,
    to: u32,
    items: &mut Outline,
) -> Result<u32, AllocError>
    requires within { to ≤ length tokens.now.tokens }
    requires ordered { from ≤ to }
    ensures labels { OnOk result (items.new
        ≡ items.old ++ labels (words tokens.now.tokens from to)) }
    ensures after { IfOk result (IsAfterBrace tokens.now.tokens from to) }
{
    for number in from..to {
        let token = tokens.get(number as usize);
        if is_brace_open(token.kind) {
            return Ok(number + 1);
        }
        push_label_at(tokens, number, token.kind, to, items)?;
    }
    Ok(to)
}

/// Appends a block and its labels. Its kind is the token of this number, and its segment ends before `to`.
fn push_block_at(
    tokens: &Tokens<'_>,
    level: u32,
    kind: u32,
    to: u32,
    items: &mut Outline,
) -> Result<BlockBody, AllocError>
    requires within { to ≤ length tokens.now.tokens }
    requires before { kind < to }
    ensures { IfOk result (PushesBlock tokens.now.tokens level kind to items.old items.new) }
{
    let end = block_end(tokens, kind + 1, to);
    items.push_block(level, kind, end)?;
    let first = push_labels(tokens, kind + 1, to, items)?;
    Ok(BlockBody {
        first,
        end: end.saturating_sub(1),
    })
}

/// Appends the item of a segment, except the items of its body.
fn push_segment(
    tokens: &Tokens<'_>,
    level: u32,
    from: u32,
    to: u32,
    items: &mut Outline,
) -> Result<BlockBody, AllocError>
    requires within { to ≤ length tokens.now.tokens }
    requires ordered { from ≤ to }
    ensures { IfOk result (PushesSegment tokens.now.tokens level from to items.old items.new) }
{
    let Some(name) = first_word(tokens, from, to) else {
        return Ok(BlockBody { first: to, end: to });
    };
    let Some(second) = first_word(tokens, name.number + 1, to) else {
        return push_block_at(tokens, level, name.number, to, items);
    };
    if !is_assign(second.kind) {
        return push_block_at(tokens, level, name.number, to, items);
    }
    let end = words_end(tokens, name.number + 1, to);
    items.push_attribute(level, name.number, second.number + 1, end)?;
    Ok(BlockBody { first: to, end: to })
}

/// Appends the items of the tokens from one number to before another. `ends` has, for each place where a segment can
/// begin, the first newline from there on outside all openers, so that finding the end of a segment looks at no token
/// twice.
pub fn push_items(
    tokens: &Tokens<'_>,
    ends: &[u32],
    level: u32,
    from: u32,
    to: u32,
    items: &mut Outline,
) -> Result<(), AllocError>
    requires small { length tokens.now.tokens ≤ max_source }
    requires ends { AreEnds tokens.now.tokens ends.now }
    requires within { to ≤ length tokens.now.tokens }
    requires deep { from < to → level ≤ from }
    requires begins { from < to → CanBegin tokens.now.tokens from }
    ensures { OnOk result (items.new
        ≡ items.old ++ items_at level (words tokens.now.tokens from to)) }
{
    let mut start = from;
    while start < to {
        let end = ends[start as usize].min(to);
        let body = push_segment(tokens, level, start, end, items)?;
        start = end + 1;
        // Attributes have no body, so they make no call.
        if body.first >= body.end {
            continue;
        }
        push_items(tokens, ends, level + 1, body.first, body.end, items)?;
    }
    Ok(())
}
