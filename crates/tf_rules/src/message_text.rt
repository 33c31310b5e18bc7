//! Messages as texts, from their parts.

ghost use Rattle.std.specs.Prelude.{◌≡◌, ◌++◌, map, IfOk};
ghost use Rattle.std.specs.List.{concat};
ghost use Rattle.std.specs.String.{string_bytes};
ghost use Rattle.tf_rules.specs.Answers.{text_of_parts};

use crate::message_parts::MessageParts;
use std::alloc::{AllocError, Global};

/// How many bytes the texts have together.
fn room_for(texts: &[&str]) -> usize {
    let mut room: usize = 0;
    for text in texts {
        room = room.saturating_add(text.len());
    }
    room
}

/// The texts one after another, in no more room than they take.
fn join_texts(alloc: Global, texts: &[&str]) -> Result<String, AllocError>
    ensures { IfOk result (λ joined. string_bytes joined
        ≡ concat (map (λ text. text.now) texts.now)) }
{
    let mut joined = String::with_capacity(alloc, room_for(texts))?;
    for text in texts {
        joined.push_str(text)?;
    }
    Ok(joined)
}

/// The text of these parts.
pub fn message_text(alloc: Global, parts: MessageParts<'_>) -> Result<String, AllocError>
    ensures { IfOk result (λ text. string_bytes text ≡ text_of_parts parts.entry) }
{
    let MessageParts {
        front,
        name,
        between,
        other,
        rest,
    } = parts;
    join_texts(alloc, &[front, name, between, other, rest])
}
