//! The declarations of a file's top-level blocks, by its outline.

ghost use Rattle.std.specs.Prelude.{◌≡◌, ◌<◌, ◌≤◌, ◌+◌, ◌^◌, ◌==◌, ◌++◌, [], ℕ, List, codes, drop, length, map, slice_get, Option, Some, None, IfOk, IfSome, OnOk, if◌then◌else◌};
ghost use Rattle.std.specs.Option.{option_map};
ghost use Rattle.hcl_grammar.specs.Items.{outline};
ghost use Rattle.hcl_grammar.specs.Labels.{text_of};
ghost use Rattle.hcl_grammar.specs.Numbered.{number_tokens};
ghost use Rattle.hcl_grammar.specs.declared.item.Item.{Item};
ghost use Rattle.tf_facts.specs.Declarations.{Attribute, attribute, attributes_in, by_declarer, declarations, declarer, is_empty, is_kind, labels_in, of_block, of_item, of_local, source_of_attribute, with_attribute};
ghost use Rattle.tf_facts.specs.Found.{declaration, found_source};
ghost use Rattle.tf_facts.specs.Inner.FoundViews.{declarer_of, declared_list};
ghost use Rattle.tf_facts.specs.Inner.Labelled.{AreNames};
ghost use Rattle.tf_facts.specs.Inner.Values.{value_of_attribute};

use crate::block::{body, is_inside, names, word_at};
use crate::declaration_kind::DeclarationKind;
use crate::found::{Declared, Declarer, FoundSource};
use crate::names::Names;
use crate::plain_text::plain_text;
use crate::source::source_of;
use crate::value::Value;
use hcl_grammar::{Accepted, Item, Outline};
use std::alloc::{AllocError, Global};

/// What a block with this word as its kind declares, and how many labels it must have.
fn declarer(word: &str) -> Option<Declarer>
    ensures is { option_map declarer_of result ≡ declarer word.now }
    ensures few { IfSome result (λ d. d.labels ≤ 2) }
{
    if word == "variable" {
        return Some(Declarer {
            kind: DeclarationKind::Variable,
            labels: 1,
        });
    }
    if word == "output" {
        return Some(Declarer {
            kind: DeclarationKind::Output,
            labels: 1,
        });
    }
    if word == "module" {
        return Some(Declarer {
            kind: DeclarationKind::Module,
            labels: 1,
        });
    }
    if word == "resource" {
        return Some(Declarer {
            kind: DeclarationKind::Resource,
            labels: 2,
        });
    }
    if word == "data" {
        return Some(Declarer {
            kind: DeclarationKind::Data,
            labels: 2,
        });
    }
    None
}

/// Whether there are this many labels.
fn are_as_many(names: Names<'_>, labels: usize) -> bool
    requires { labels ≤ 2 }
    ensures { (texts : List (List ℕ)) → AreNames names.entry texts
        → result ≡ (length texts == labels) }
{
    match names {
        Names::None => labels == 0,
        Names::One(_) => labels == 1,
        Names::Two(_, _) => labels == 2,
        Names::More => false,
    }
}

fn is_module(kind: DeclarationKind) -> bool
    ensures { result ≡ is_kind DeclarationKind.Module kind }
{
    matches!(kind, DeclarationKind::Module)
}

/// The source in the value of the first attribute `source`, if that is a plain text.
fn module_source(accepted: &Accepted<'_, '_>, value: Option<Value>) -> Option<FoundSource>
    requires { IfSome value (λ v. v.end ≤ length accepted.now.tokens) }
    ensures { (a : Option Attribute) → option_map value_of_attribute a ≡ value
        → option_map found_source result
        ≡ source_of_attribute (number_tokens accepted.now.tokens) a }
{
    let Some(value) = value else {
        return None;
    };
    let tokens = accepted.tokens();
    let Some(plain) = plain_text(tokens, value.first, value.end) else {
        return None;
    };
    Some(FoundSource {
        source: source_of(plain.text.as_bytes()),
        at: plain.quote,
    })
}

/// The source of a block that declares a module.
fn source_in(
    accepted: &Accepted<'_, '_>,
    value: Option<Value>,
    kind: DeclarationKind,
) -> Option<FoundSource>
    requires { IfSome value (λ v. v.end ≤ length accepted.now.tokens) }
    ensures { (a : Option Attribute) → option_map value_of_attribute a ≡ value
        → option_map found_source result
        ≡ (if is_kind DeclarationKind.Module kind
        then source_of_attribute (number_tokens accepted.now.tokens) a else None) }
{
    if is_module(kind) {
        return module_source(accepted, value);
    }
    None
}

/// The declaration of a top-level block other than `locals`, by the number of its kind and that of the item after it.
fn declared_by<'s>(
    accepted: &Accepted<'_, 's>,
    items: &Outline,
    token: usize,
    from: usize,
) -> Option<Declared<'s>>
    requires items { items.now ≡ outline accepted.now.tokens }
    requires token { token < length accepted.now.tokens }
    ensures { declared_list result ≡ by_declarer (number_tokens accepted.now.tokens) token
        (labels_in (number_tokens accepted.now.tokens) (drop from items.now))
        (attributes_in (number_tokens accepted.now.tokens) (drop from items.now))
        (declarer (text_of (number_tokens accepted.now.tokens) token)) }
{
    let Some(declarer) = declarer(word_at(accepted, token)) else {
        return None;
    };
    let names = names(accepted, items, from);
    if !are_as_many(names, declarer.labels) {
        return None;
    }
    let body = body(accepted, items, from);
    let source = source_in(accepted, body.source, declarer.kind);
    Some(Declared {
        kind: declarer.kind,
        names,
        at: token,
        is_described: body.is_described,
        is_typed: body.is_typed,
        is_versioned: body.is_versioned,
        source,
    })
}

/// Pushes the declaration, if there is one.
fn push_declaration<'s>(
    declared: Option<Declared<'s>>,
    found: &mut Vec<Declared<'s>>,
) -> Result<(), AllocError>
    ensures { OnOk result (map declaration found.new.items
        ≡ map declaration found.old.items ++ declared_list declared.entry) }
{
    let Some(declared) = declared else {
        return Ok(());
    };
    found.push(declared)?;
    Ok(())
}

/// The declaration of an item in the body of a `locals` block.
fn local_of<'s>(accepted: &Accepted<'_, 's>, item: Item) -> Option<Declared<'s>>
    requires { (i : ℕ) × (slice_get (outline accepted.now.tokens) i ≡ Some item) }
    ensures { declared_list result ≡ map of_local
        (with_attribute (attribute (number_tokens accepted.now.tokens) item) []) }
{
    let Item::Attribute { level, name, .. } = item else {
        return None;
    };
    if level != 1 {
        return None;
    }
    Some(Declared {
        kind: DeclarationKind::Local,
        names: Names::One(word_at(accepted, name)),
        at: name,
        is_described: false,
        is_typed: false,
        is_versioned: false,
        source: None,
    })
}

/// Pushes the attributes of a `locals` block; its items begin at this one.
fn push_locals<'s>(
    accepted: &Accepted<'_, 's>,
    items: &Outline,
    from: usize,
    found: &mut Vec<Declared<'s>>,
) -> Result<(), AllocError>
    requires { items.now ≡ outline accepted.now.tokens }
    ensures { OnOk result (map declaration found.new.items
        ≡ map declaration found.old.items
        ++ map of_local (attributes_in (number_tokens accepted.now.tokens) (drop from items.now))) }
{
    for number in from..items.len() {
        let item = items.get(number);
        if !is_inside(item) {
            return Ok(());
        }
        push_declaration(local_of(accepted, item), found)?;
    }
    Ok(())
}

/// Whether there is no label.
fn is_unlabelled(names: Names<'_>) -> bool
    ensures { (texts : List (List ℕ)) → AreNames names.entry texts → result ≡ is_empty texts }
{
    matches!(names, Names::None)
}

/// Pushes the declarations of a top-level block, by the number of its kind and that of the item after it.
fn push_block<'s>(
    accepted: &Accepted<'_, 's>,
    items: &Outline,
    token: usize,
    from: usize,
    found: &mut Vec<Declared<'s>>,
) -> Result<(), AllocError>
    requires items { items.now ≡ outline accepted.now.tokens }
    requires token { token < length accepted.now.tokens }
    ensures { OnOk result (map declaration found.new.items ≡ map declaration found.old.items
        ++ of_block (number_tokens accepted.now.tokens) token
        (labels_in (number_tokens accepted.now.tokens) (drop from items.now))
        (attributes_in (number_tokens accepted.now.tokens) (drop from items.now))) }
{
    if word_at(accepted, token) != "locals" {
        return push_declaration(declared_by(accepted, items, token, from), found);
    }
    if !is_unlabelled(names(accepted, items, from)) {
        return Ok(());
    }
    push_locals(accepted, items, from, found)
}

/// Pushes the declarations of the item of this number.
fn push_item<'s>(
    accepted: &Accepted<'_, 's>,
    items: &Outline,
    number: usize,
    found: &mut Vec<Declared<'s>>,
) -> Result<(), AllocError>
    requires items { items.now ≡ outline accepted.now.tokens }
    requires within { number < length items.now }
    requires small { number + 1 < 2 ^ 64 }
    ensures { OnOk result ((item : Item) → slice_get items.now number ≡ Some item
        → map declaration found.new.items
        ≡ map declaration found.old.items
        ++ of_item (number_tokens accepted.now.tokens) item (drop (number + 1) items.now)) }
{
    let Item::Block { level, kind, .. } = items.get(number) else {
        return Ok(());
    };
    if level > 0 {
        return Ok(());
    }
    push_block(accepted, items, kind, number + 1, found)
}

/// How many items of an outline there are for each declaration that the list has room for at first. Most files have
/// five to ten items for each declaration; with fewer the list grows.
const ITEMS_A_DECLARATION: usize = 6;

/// How many declarations the list has room for at first, at most. The room is a multiple of four, since a list's own
/// first room is for four.
const MOST_ROOM: usize = 256;

/// The declarations of a file, in order, by its outline.
pub fn declarations<'s>(
    alloc: Global,
    accepted: &Accepted<'_, 's>,
    items: &Outline,
) -> Result<Vec<Declared<'s>>, AllocError>
    requires { items.now ≡ outline accepted.now.tokens }
    ensures { IfOk result (λ found. map declaration found.items
        ≡ declarations (number_tokens accepted.now.tokens)) }
{
    let room = (items.len() / ITEMS_A_DECLARATION / 4 * 4).min(MOST_ROOM);
    let mut found = Vec::with_capacity(alloc, room)?;
    for number in 0..items.len() {
        push_item(accepted, items, number, &mut found)?;
    }
    Ok(found)
}
