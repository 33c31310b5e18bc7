//! The outlines of small files, worked out by hand, and the texts of their labels.

use crate::checks::holds_at;
use hcl_scan::{Source, scan};
use hcl_syntax::{Accepted, Item, Label, Outline, accepts, label_text, outline};
use std::alloc::{AllocError, Global};
use std::process::Abort;
use std::test::Fail;

/// The item of this number, if there is one.
fn item_at(items: &Outline, i: usize) -> Option<Item> {
    if i < items.len() {
        Some(items.get(i))
    } else {
        None
    }
}

/// Checks the item of this number.
fn is_item(rt: &impl Abort, found: Option<Item>, wanted: Item, text: &str, i: usize) {
    assert_eq!(rt; found, Some(wanted), "{text}: {i}");
}

/// Checks the items of a text.
fn are_items(rt: &impl Abort, items: &Outline, wanted: &[Item], text: &str) {
    holds_at(rt, items.len() == wanted.len(), "count of items", text);
    let is_empty = items.is_empty();
    holds_at(rt, is_empty == wanted.is_empty(), "emptiness", text);
    for i in 0..wanted.len() {
        is_item(rt, item_at(items, i), wanted[i], text, i);
    }
}

/// The outline of a text that is a file.
fn outline_of(rt: &impl Abort, alloc: Global, text: &str) -> Result<Outline, Fail> {
    let source = Source::from_bytes(alloc, text.as_bytes())?;
    let tokens = scan(alloc, &source)?;
    let Ok(accepted) = accepts(&tokens) else {
        rt.panic(text)
    };
    Ok(outline(alloc, &accepted)?)
}

/// Checks the items of a text.
fn has_outline(rt: &impl Abort, alloc: Global, text: &str, wanted: &[Item]) -> Result<(), Fail> {
    let items = outline_of(rt, alloc, text)?;
    are_items(rt, &items, wanted, text);
    Ok(())
}

/// The texts of the labels among the items, each with a comma after it.
fn labels(
    alloc: Global,
    accepted: &Accepted<'_, '_>,
    items: &Outline,
) -> Result<String, AllocError> {
    let mut texts = String::new(alloc);
    let count = accepted.tokens().len();
    for i in 0..items.len() {
        if let Item::Label(label) = items.get(i) {
            if label.first < count {
                texts.push_str(label_text(accepted, &label))?;
                texts.push(',')?;
            }
        }
    }
    Ok(texts)
}

/// The texts of the labels of a text that is a file.
fn labels_of(alloc: Global, text: &str) -> Result<String, Fail> {
    let source = Source::from_bytes(alloc, text.as_bytes())?;
    let tokens = scan(alloc, &source)?;
    let accepted = accepts(&tokens)?;
    let items = outline(alloc, &accepted)?;
    Ok(labels(alloc, &accepted, &items)?)
}

#[test]
fn outlines_a_block(rt: HostRuntime) -> Result<(), Fail> {
    has_outline(
        &rt,
        rt.alloc(),
        "b \"x\" {\n  c = 1\n}\n",
        &[
            Item::Block {
                level: 0,
                kind: 0,
                end: 11,
            },
            Item::Label(Label { first: 1, last: 3 }),
            Item::Attribute {
                level: 1,
                name: 6,
                first: 8,
                end: 9,
            },
        ],
    )
}

#[test]
fn outlines_comments_and_levels(rt: HostRuntime) -> Result<(), Fail> {
    has_outline(
        &rt,
        rt.alloc(),
        "# c\nb \"x\" y \"\" { # d\n  c = { # e\n    f = 1\n  } # g\n  h {\n  }\n}\ni = \"\"\n",
        &[
            Item::Block {
                level: 0,
                kind: 2,
                end: 30,
            },
            Item::Label(Label { first: 3, last: 5 }),
            Item::Label(Label { first: 6, last: 6 }),
            Item::Label(Label { first: 7, last: 8 }),
            Item::Attribute {
                level: 1,
                name: 12,
                first: 14,
                end: 22,
            },
            Item::Block {
                level: 1,
                kind: 24,
                end: 28,
            },
            Item::Attribute {
                level: 0,
                name: 31,
                first: 33,
                end: 35,
            },
        ],
    )
}

#[test]
fn outlines_nothing(rt: HostRuntime) -> Result<(), Fail> {
    for text in ["", "\n\n", "# only a comment\n"] {
        has_outline(&rt, rt.alloc(), text, &[])?;
    }
    Ok(())
}

#[test]
fn labels_have_their_texts(rt: HostRuntime) -> Result<(), Fail> {
    let texts = labels_of(rt.alloc(), "b \"x-1\" y \"\" {\n  c \"\\n\" {}\n}\n")?;
    assert_eq!(&rt; texts.as_str(), "x-1,y,,\\n,");
    Ok(())
}
