//! The items after a block in the outline of a file: its labels, and the attributes directly in its body.

ghost use Rattle.std.specs.Prelude.{◌≡◌, ◌<◌, ◌≤◌, ◌+◌, ◌∷◌, ℕ, [], drop, length, slice_get, List, MatchOption, None, Some, false};
ghost use Rattle.hcl_grammar.specs.Items.{outline};
ghost use Rattle.hcl_grammar.specs.Labels.{text_of};
ghost use Rattle.hcl_grammar.specs.Numbered.{Numbered, number_tokens};
ghost use Rattle.tf_facts.specs.Declarations.{attribute, attributes_in, is_inside, labels_in, with_attribute};
ghost use Rattle.tf_facts.specs.Inner.Labelled.{AreNames};
ghost use Rattle.tf_facts.specs.Inner.Values.{body_of, append_bodies};

use crate::names::Names;
use crate::value::{Body, Value};
use hcl_grammar::{Accepted, Item, Outline, label_text};

/// The text of a label, and the number of the item after it.
#[derive(Clone, Copy)]
struct LabelAt<'s> {
    text: &'s str,
    next: usize,
}

/// The label of this number in the outline, if it is one.
fn label_at<'s>(accepted: &Accepted<'_, 's>, items: &Outline, number: usize) -> Option<LabelAt<'s>>
    requires { items.now ≡ outline accepted.now.tokens }
    ensures { MatchOption result
        (labels_in (number_tokens accepted.now.tokens) (drop number items.now)
        ≡ [])
        (λ label. labels_in (number_tokens accepted.now.tokens) (drop number items.now)
        ≡ label.text.now
        ∷ labels_in (number_tokens accepted.now.tokens) (drop label.next items.now)) }
{
    if number >= items.len() {
        return None;
    }
    match items.get(number) {
        Item::Label(label) => Some(LabelAt {
            text: label_text(accepted, &label),
            next: number + 1,
        }),
        Item::Attribute { .. } => None,
        Item::Block { .. } => None,
    }
}

/// The labels of the block whose items begin at this one.
pub fn names<'s>(accepted: &Accepted<'_, 's>, items: &Outline, from: usize) -> Names<'s>
    requires { items.now ≡ outline accepted.now.tokens }
    ensures { AreNames result
        (labels_in (number_tokens accepted.now.tokens) (drop from items.now)) }
{
    let Some(first) = label_at(accepted, items, from) else {
        return Names::None;
    };
    let Some(second) = label_at(accepted, items, first.next) else {
        return Names::One(first.text);
    };
    let Some(_third) = label_at(accepted, items, second.next) else {
        return Names::Two(first.text, second.text);
    };
    Names::More
}

/// Whether an item is in a block or is one of its labels.
pub fn is_inside(item: Item) -> bool
    ensures { result ≡ is_inside item }
{
    match item {
        Item::Attribute { level, .. } => level > 0,
        Item::Block { level, .. } => level > 0,
        Item::Label(_) => true,
    }
}

/// The text of the token of this number.
pub fn word_at<'s>(accepted: &Accepted<'_, 's>, number: usize) -> &'s str
    requires { number < length accepted.now.tokens }
    ensures { result.now ≡ text_of (number_tokens accepted.now.tokens) number }
{
    let tokens = accepted.tokens();
    let token = tokens.get(number);
    token.text
}

/// The body without any attribute.
fn no_body() -> Body
    ensures { result ≡ body_of [] }
{
    Body {
        is_described: false,
        is_typed: false,
        is_versioned: false,
        source: None,
    }
}

/// Whether an item is an attribute. No other item matters here.
fn is_attribute(item: Item) -> bool
    ensures { result ≡ false → (ts : List Numbered) → attribute ts item ≡ None }
{
    matches!(item, Item::Attribute { .. })
}

/// The body with this item alone, if it is an attribute directly in the body of a top-level block.
fn body_of_item(accepted: &Accepted<'_, '_>, item: Item) -> Body
    requires { (i : ℕ) × (slice_get (outline accepted.now.tokens) i ≡ Some item) }
    ensures { result
        ≡ body_of (with_attribute (attribute (number_tokens accepted.now.tokens) item) []) }
{
    let Item::Attribute {
        level,
        name,
        first,
        end,
    } = item
    else {
        return no_body();
    };
    if level != 1 {
        return no_body();
    }
    let word = word_at(accepted, name);
    Body {
        is_described: word == "description",
        is_typed: word == "type",
        is_versioned: word == "version",
        source: (word == "source").then_some(Value { first, end }),
    }
}

/// The body of two bodies, one after the other.
fn both(one: Body, other: Body) -> Body
    ensures { result ≡ append_bodies one other }
{
    Body {
        is_described: one.is_described || other.is_described,
        is_typed: one.is_typed || other.is_typed,
        is_versioned: one.is_versioned || other.is_versioned,
        source: one.source.or(other.source),
    }
}

/// The body of the block whose items begin at this one, from the attributes directly in it.
pub fn body(accepted: &Accepted<'_, '_>, items: &Outline, from: usize) -> Body
    requires { items.now ≡ outline accepted.now.tokens }
    ensures { result ≡ body_of (attributes_in (number_tokens accepted.now.tokens)
        (drop from items.now)) }
{
    let mut body = no_body();
    for number in from..items.len() {
        let item = items.get(number);
        if !is_inside(item) {
            return body;
        }
        if !is_attribute(item) {
            continue;
        }
        body = both(body, body_of_item(accepted, item));
    }
    body
}
