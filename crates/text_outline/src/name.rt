//! The names of blocks.

ghost use Rattle.std.specs.Prelude.{◌≡◌, ◌<◌, ◌++◌, IfOk, OnOk, drop, length, string_bytes};
ghost use Rattle.hcl_grammar.specs.Items.{outline};
ghost use Rattle.hcl_grammar.specs.Numbered.{number_tokens};
ghost use Rattle.text_outline.specs.Symbols.{block_name, in_quotes};

use crate::token_range::word_at;
use hcl_syntax::{Accepted, Item, Outline, label_text};
use std::alloc::{AllocError, Global};

/// Appends a label in quotes, after a space.
fn push_quoted(name: &mut String, label: &str) -> Result<(), AllocError>
    ensures { OnOk result (string_bytes name.new ≡ string_bytes name.old ++ in_quotes label.now) }
{
    name.push_str(" \"")?;
    name.push_str(label)?;
    name.push_str("\"")?;
    Ok(())
}

/// The name of the block with this kind; its labels begin at this item.
pub fn block_name(
    alloc: Global,
    accepted: &Accepted<'_, '_>,
    items: &Outline,
    kind: usize,
    from: usize,
) -> Result<String, AllocError>
    requires items { items.now ≡ outline accepted.now.tokens }
    requires kind { kind < length accepted.now.tokens }
    ensures { IfOk result (λ name. string_bytes name
        ≡ block_name (number_tokens accepted.now.tokens) kind (drop from items.now)) }
{
    let mut name = String::from_str(alloc, word_at(accepted, kind))?;
    for number in from..items.len() {
        let Item::Label(label) = items.get(number) else {
            return Ok(name);
        };
        push_quoted(&mut name, label_text(accepted, &label))?;
    }
    Ok(name)
}
