//! Items as an outline stores them.

ghost use Rattle.std.specs.Prelude.{◌≡◌};
ghost use Rattle.hcl_grammar.specs.Inner.Entries.{item_in};

use crate::item::{Item, Label};

/// An item whose numbers take four bytes each, half as many as in an `Item`.
#[derive(Clone, Copy)]
pub enum ItemEntry {
    Attribute {
        level: u32,
        name: u32,
        first: u32,
        end: u32,
    },
    Block {
        level: u32,
        kind: u32,
        end: u32,
    },
    Label {
        first: u32,
        last: u32,
    },
}

const _: () = prove!(size_of::<ItemEntry>() <= 20);

impl ItemEntry {
    pub fn item(self) -> Item
        ensures { result ≡ item_in self }
    {
        match self {
            ItemEntry::Attribute {
                level,
                name,
                first,
                end,
            } => Item::Attribute {
                level: level as usize,
                name: name as usize,
                first: first as usize,
                end: end as usize,
            },
            ItemEntry::Block { level, kind, end } => Item::Block {
                level: level as usize,
                kind: kind as usize,
                end: end as usize,
            },
            ItemEntry::Label { first, last } => Item::Label(Label {
                first: first as usize,
                last: last as usize,
            }),
        }
    }
}
