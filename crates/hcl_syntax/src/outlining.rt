//! The outline of a file.

ghost use Rattle.std.specs.Prelude.{◌≡◌, IfOk};
ghost use Rattle.hcl_grammar.specs.Items.{outline};

use crate::segment_end::{newlines, token_count};
use crate::segments::push_items;
use hcl_grammar::{Accepted, Outline};
use std::alloc::{AllocError, Global};

/// Tokens of a file per item for the first room of the outline. Most files have six to nine tokens per item; for those
/// with fewer the list grows.
const TOKENS_AN_ITEM: usize = 6;

/// The most items for which the outline has room at first. The room is in fours, since a list's own first room is for
/// four.
const MOST_ROOM: usize = 1_024;

/// The outline of a file, in time linear in its tokens.
pub fn outline(alloc: Global, accepted: &Accepted<'_, '_>) -> Result<Outline, AllocError>
    ensures { IfOk result (λ items. items ≡ outline accepted.now.tokens) }
{
    let tokens = accepted.tokens();
    let ends = newlines(alloc, tokens)?;
    let count = token_count(tokens);
    let room = (tokens.len() / TOKENS_AN_ITEM / 4 * 4).min(MOST_ROOM);
    let mut items = Outline::with_room(alloc, room)?;
    push_items(tokens, &ends, 0, 0, count, &mut items)?;
    Ok(items)
}
