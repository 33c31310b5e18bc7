//! The blocks of a file's variables, and the references except self-references.

ghost use Rattle.std.specs.Prelude.{◌≡◌, ◌==◌, ◌<◌, ◌+◌, ◌^◌, ◌∷◌, [], ℕ, List, false, drop, length, map, slice_get, Some, IfOk, MatchOption, OnOk, OnErr};
ghost use Rattle.std.specs.Str.{bytes_eq};
ghost use Rattle.indexmap.specs.IndexSet.{insert_all};
ghost use Rattle.hcl_grammar.specs.Items.{outline};
ghost use Rattle.hcl_grammar.specs.Numbered.{number_tokens};
ghost use Rattle.hcl_grammar.specs.declared.item.Item.{Item};
ghost use Rattle.tf_facts.specs.VariableBlocks.{AreDisjoint};
ghost use Rattle.tf_facts.specs.Inner.Blocks.{block_view};
ghost use Rattle.tf_facts.specs.References.{variable_blocks, variable_blocks_of_item, references};
ghost use Rattle.tf_facts.specs.Inner.FoundViews.{blocks_listed};
ghost use Rattle.tf_facts.specs.Inner.Labelled.{AreNames};

use crate::block::{names, word_at};
use crate::names::Names;
use crate::references::add_references;
use crate::text_set::TextSet;
use crate::variable_block::VariableBlock;
use hcl_grammar::{Accepted, Item, Outline};
use std::alloc::{AllocError, Global};

/// The only label, if there is exactly one.
fn only<'s>(names: Names<'s>) -> Option<&'s str>
    ensures { (texts : List (List ℕ)) → AreNames names.entry texts
        → MatchOption result ((length texts == 1) ≡ false) (λ name. texts ≡ name.now ∷ []) }
{
    match names {
        Names::None => None,
        Names::One(name) => Some(name),
        Names::Two(_, _) => None,
        Names::More => None,
    }
}

/// The block of the variable that the item of this number declares.
fn variable_block_at<'s>(
    accepted: &Accepted<'_, 's>,
    items: &Outline,
    number: usize,
) -> Option<VariableBlock<'s>>
    requires items { items.now ≡ outline accepted.now.tokens }
    requires within { number < length items.now }
    requires small { number + 1 < 2 ^ 64 }
    ensures { (item : Item) → slice_get items.now number ≡ Some item
        → blocks_listed result ≡ variable_blocks_of_item (number_tokens accepted.now.tokens) item
        (drop (number + 1) items.now) }
{
    let Item::Block { level, kind, end } = items.get(number) else {
        return None;
    };
    if level > 0 {
        return None;
    }
    if word_at(accepted, kind) != "variable" {
        return None;
    }
    let Some(name) = only(names(accepted, items, number + 1)) else {
        return None;
    };
    Some(VariableBlock {
        name,
        first: kind,
        end,
    })
}

/// The blocks of the variables of a file, in order, by its outline.
pub fn variable_blocks<'s>(
    alloc: Global,
    accepted: &Accepted<'_, 's>,
    items: &Outline,
) -> Result<Vec<VariableBlock<'s>>, AllocError>
    requires { items.now ≡ outline accepted.now.tokens }
    ensures blocks { IfOk result (λ found. map block_view found.items
        ≡ variable_blocks (number_tokens accepted.now.tokens)) }
    ensures disjoint { IfOk result (λ found. AreDisjoint 0 (map block_view found.items)) }
{
    let mut found = Vec::new(alloc);
    for number in 0..items.len() {
        let Some(block) = variable_block_at(accepted, items, number) else {
            continue;
        };
        found.push(block)?;
    }
    Ok(found)
}

/// Inserts the references of a file into the set, by its outline. A refusal leaves the set unchanged.
pub fn add_references_of(
    alloc: Global,
    accepted: &Accepted<'_, '_>,
    items: &Outline,
    into: &mut TextSet,
) -> Result<(), AllocError>
    requires { items.now ≡ outline accepted.now.tokens }
    ensures ok { OnOk result (into.new
        ≡ insert_all bytes_eq into.old (references (number_tokens accepted.now.tokens))) }
    ensures err { OnErr result (into.new ≡ into.old) }
{
    let blocks = variable_blocks(alloc, accepted, items)?;
    let tokens = accepted.tokens();
    add_references(alloc, tokens, &blocks, into)?;
    Ok(())
}
