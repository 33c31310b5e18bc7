//! The declarations of a file's top-level blocks, by its outline.

ghost use Rattle.std.specs.Prelude.{◌≡◌, ◌<◌, ◌+◌, ◌^◌, ◌∷◌, ◌++◌, [], ℕ, drop, length, map, slice_get, Some, OnOk};
ghost use Rattle.hcl_grammar.specs.Items.{outline};
ghost use Rattle.hcl_grammar.specs.Labels.{text_of};
ghost use Rattle.hcl_grammar.specs.Numbered.{number_tokens};
ghost use Rattle.hcl_grammar.specs.declared.item.Item.{Item};
ghost use Rattle.tf_facts.specs.Declarations.{attribute, with_attribute};
ghost use Rattle.tf_names.specs.Inner.Found.{listed_occurrence, stretch_seen};
ghost use Rattle.tf_names.specs.Names.{Local, attribute_stretches, declaration_of, declared_by_item, declared_by_items, declared_in_block, label_stretches, word_stretch};
ghost use Rattle.tf_names.specs.Views.{occurrence_seen};

use crate::label::{Labels, labels_from};
use crate::name::Name;
use crate::occurrence::{Occurrence, declaration_of};
use crate::stretch::{Stretch, word_stretch};
use hcl_syntax::{Accepted, Item, Outline};
use std::alloc::AllocError;
use tf_facts::{is_inside, word_at};

/// What a block with this kind and one label declares.
fn one_label<'s>(word: &str, label: Stretch<'s>) -> Option<Occurrence<'s>>
    ensures { listed_occurrence result
        ≡ declared_in_block word.now (stretch_seen label.entry ∷ []) [] }
{
    if word == "variable" {
        return Some(declaration_of(Name::Variable(label.text), label));
    }
    if word == "module" {
        return Some(declaration_of(Name::Module(label.text), label));
    }
    None
}

/// What a block with this kind and two labels declares.
fn two_labels<'s>(word: &str, kind: Stretch<'s>, label: Stretch<'s>) -> Option<Occurrence<'s>>
    ensures { listed_occurrence result
        ≡ declared_in_block word.now (stretch_seen kind.entry ∷ stretch_seen label.entry ∷ []) [] }
{
    if word == "data" {
        return Some(declaration_of(Name::Data(kind.text, label.text), label));
    }
    None
}

/// Pushes the occurrence, if there is one.
fn push_found<'s>(
    occurrence: Option<Occurrence<'s>>,
    found: &mut Vec<Occurrence<'s>>,
) -> Result<(), AllocError>
    ensures { OnOk result (map occurrence_seen found.new.items
        ≡ map occurrence_seen found.old.items ++ listed_occurrence occurrence.entry) }
{
    let Some(occurrence) = occurrence else {
        return Ok(());
    };
    found.push(occurrence)?;
    Ok(())
}

/// The declaration of an item in the body of a `locals` block.
fn local_of<'s>(accepted: &Accepted<'_, 's>, item: Item) -> Option<Occurrence<'s>>
    requires { (i : ℕ) × (slice_get (outline accepted.now.tokens) i ≡ Some item) }
    ensures { listed_occurrence result ≡ map (λ n. declaration_of (Local n.text) n)
        (map (λ a. word_stretch accepted.now.tokens a.token)
        (with_attribute (attribute (number_tokens accepted.now.tokens) item) [])) }
{
    let Item::Attribute { level, name, .. } = item else {
        return None;
    };
    if level != 1 {
        return None;
    }
    let word = word_stretch(accepted, name);
    Some(declaration_of(Name::Local(word.text), word))
}

/// Pushes the attributes of a `locals` block; its items begin at this one.
fn push_locals<'s>(
    accepted: &Accepted<'_, 's>,
    items: &Outline,
    from: usize,
    found: &mut Vec<Occurrence<'s>>,
) -> Result<(), AllocError>
    requires { items.now ≡ outline accepted.now.tokens }
    ensures { OnOk result (map occurrence_seen found.new.items
        ≡ map occurrence_seen found.old.items ++ map (λ n. declaration_of (Local n.text) n)
        (attribute_stretches accepted.now.tokens (drop from items.now))) }
{
    for number in from..items.len() {
        let item = items.get(number);
        if !is_inside(item) {
            return Ok(());
        }
        push_found(local_of(accepted, item), found)?;
    }
    Ok(())
}

/// Pushes what a block with this kind and without labels declares; its items begin at this one.
fn push_unlabelled<'s>(
    accepted: &Accepted<'_, 's>,
    items: &Outline,
    word: &str,
    from: usize,
    found: &mut Vec<Occurrence<'s>>,
) -> Result<(), AllocError>
    requires { items.now ≡ outline accepted.now.tokens }
    ensures { OnOk result (map occurrence_seen found.new.items
        ≡ map occurrence_seen found.old.items ++ declared_in_block word.now []
        (attribute_stretches accepted.now.tokens (drop from items.now))) }
{
    if word != "locals" {
        return Ok(());
    }
    push_locals(accepted, items, from, found)
}

/// Pushes what a top-level block declares, by the number of its kind and that of the item after it.
fn push_block<'s>(
    accepted: &Accepted<'_, 's>,
    items: &Outline,
    token: usize,
    from: usize,
    found: &mut Vec<Occurrence<'s>>,
) -> Result<(), AllocError>
    requires items { items.now ≡ outline accepted.now.tokens }
    requires token { token < length accepted.now.tokens }
    ensures { OnOk result (map occurrence_seen found.new.items
        ≡ map occurrence_seen found.old.items
        ++ declared_in_block (text_of (number_tokens accepted.now.tokens) token)
        (label_stretches accepted.now.tokens (drop from items.now))
        (attribute_stretches accepted.now.tokens (drop from items.now))) }
{
    let word = word_at(accepted, token);
    match labels_from(accepted, items, from) {
        Labels::None => push_unlabelled(accepted, items, word, from, found),
        Labels::One(label) => push_found(one_label(word, label), found),
        Labels::Two(kind, label) => push_found(two_labels(word, kind, label), found),
        Labels::More => Ok(()),
    }
}

/// Pushes what the item of this number declares.
fn push_item<'s>(
    accepted: &Accepted<'_, 's>,
    items: &Outline,
    number: usize,
    found: &mut Vec<Occurrence<'s>>,
) -> Result<(), AllocError>
    requires items { items.now ≡ outline accepted.now.tokens }
    requires within { number < length items.now }
    requires small { number + 1 < 2 ^ 64 }
    ensures { OnOk result ((item : Item) → slice_get items.now number ≡ Some item
        → map occurrence_seen found.new.items
        ≡ map occurrence_seen found.old.items
        ++ declared_by_item accepted.now.tokens item (drop (number + 1) items.now)) }
{
    let Item::Block { level, kind, .. } = items.get(number) else {
        return Ok(());
    };
    if level > 0 {
        return Ok(());
    }
    push_block(accepted, items, kind, number + 1, found)
}

/// Pushes what these items declare, in order.
pub fn push_declarations<'s>(
    accepted: &Accepted<'_, 's>,
    items: &Outline,
    found: &mut Vec<Occurrence<'s>>,
) -> Result<(), AllocError>
    requires { items.now ≡ outline accepted.now.tokens }
    ensures { OnOk result (map occurrence_seen found.new.items
        ≡ map occurrence_seen found.old.items ++ declared_by_items accepted.now.tokens items.now) }
{
    for number in 0..items.len() {
        push_item(accepted, items, number, found)?;
    }
    Ok(())
}
