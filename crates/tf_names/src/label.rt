//! The items after a block in the outline of a file: its labels, and the items in it.

ghost use Rattle.std.specs.Prelude.{◌≡◌, ◌∷◌, [], drop, MatchOption};
ghost use Rattle.hcl_grammar.specs.Items.{outline};
ghost use Rattle.tf_names.specs.Inner.Found.{stretch_seen};
ghost use Rattle.tf_names.specs.Inner.Labelled.{AreLabels};
ghost use Rattle.tf_names.specs.Names.{label_stretches};

use crate::stretch::{Stretch, label_stretch};
use hcl_syntax::{Accepted, Item, Outline};

/// The labels of a block: at most two, or more.
#[derive(Clone, Copy)]
pub enum Labels<'s> {
    None,
    One(Stretch<'s>),
    Two(Stretch<'s>, Stretch<'s>),
    More,
}

/// A label, and the number of the item after it.
#[derive(Clone, Copy)]
struct LabelAt<'s> {
    label: Stretch<'s>,
    next: usize,
}

/// The label of this number in the outline, if it is one.
fn label_at<'s>(accepted: &Accepted<'_, 's>, items: &Outline, number: usize) -> Option<LabelAt<'s>>
    requires { items.now ≡ outline accepted.now.tokens }
    ensures { MatchOption result (label_stretches accepted.now.tokens (drop number items.now) ≡ [])
        (λ found. label_stretches accepted.now.tokens (drop number items.now)
        ≡ stretch_seen found.label
        ∷ label_stretches accepted.now.tokens (drop found.next items.now)) }
{
    if number >= items.len() {
        return None;
    }
    match items.get(number) {
        Item::Label(label) => Some(LabelAt {
            label: label_stretch(accepted, label),
            next: number + 1,
        }),
        Item::Attribute { .. } => None,
        Item::Block { .. } => None,
    }
}

/// The labels of the block whose items begin at this one.
pub fn labels_from<'s>(accepted: &Accepted<'_, 's>, items: &Outline, from: usize) -> Labels<'s>
    requires { items.now ≡ outline accepted.now.tokens }
    ensures { AreLabels result (label_stretches accepted.now.tokens (drop from items.now)) }
{
    let Some(first) = label_at(accepted, items, from) else {
        return Labels::None;
    };
    let Some(second) = label_at(accepted, items, first.next) else {
        return Labels::One(first.label);
    };
    let Some(_third) = label_at(accepted, items, second.next) else {
        return Labels::Two(first.label, second.label);
    };
    Labels::More
}
