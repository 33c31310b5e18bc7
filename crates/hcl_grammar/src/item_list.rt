//! The list of a file's items.

ghost use Rattle.std.specs.Prelude.{◌≡◌, ◌<◌, ◌==◌, ◌∷◌, ◌++◌, [], length, slice_get, IfOk, OnErr, OnOk, Some};
ghost use Rattle.hcl_grammar.specs.Inner.Entries.{item_in};
ghost use Rattle.hcl_grammar.specs.declared.item.Item.TheVariants as item;

use crate::entry::ItemEntry;
use crate::item::Item;
use std::alloc::{AllocError, Global};
use std::marker::Model;

/// The items of a file in order: each block is followed by its labels, and then by the items of its body, one level
/// deeper.
#[derive(Drop)]
pub struct Outline {
    entries: Vec<ItemEntry>,
}

impl Model for Outline {
    ghost use Rattle.std.specs.Prelude.{List};
    ghost use Rattle.hcl_grammar.specs.declared.item.Item.{Item};

    ghost Value = { List Item };

    ghost use Rattle.hcl_grammar.specs.Inner.Entries.{items_in};

    ghost view = { λ o. items_in o.entries.items };
}

impl Outline {
    /// No items.
    pub fn new(alloc: Global) -> Outline
        ensures { result ≡ [] }
    {
        Outline {
            entries: Vec::new(alloc),
        }
    }

    /// No items, with room for this many.
    pub fn with_room(alloc: Global, count: usize) -> Result<Outline, AllocError>
        ensures { IfOk result (λ items. items ≡ []) }
    {
        Ok(Outline {
            entries: Vec::with_capacity(alloc, count)?,
        })
    }

    fn push(&mut self, entry: ItemEntry) -> Result<(), AllocError>
        ensures pushed { OnOk result (self.new ≡ self.old ++ item_in entry ∷ []) }
        ensures unchanged { OnErr result (self.new ≡ self.old) }
    {
        self.entries.push(entry)?;
        Ok(())
    }

    /// Pushes an attribute. A refused growth leaves the items unchanged.
    pub fn push_attribute(
        &mut self,
        level: u32,
        name: u32,
        first: u32,
        end: u32,
    ) -> Result<(), AllocError>
        ensures pushed { OnOk result (self.new
            ≡ self.old ++ item.Attribute level name first end ∷ []) }
        ensures unchanged { OnErr result (self.new ≡ self.old) }
    {
        self.push(ItemEntry::Attribute {
            level,
            name,
            first,
            end,
        })
    }

    /// Pushes a block. A refused growth leaves the items unchanged.
    pub fn push_block(&mut self, level: u32, kind: u32, end: u32) -> Result<(), AllocError>
        ensures pushed { OnOk result (self.new ≡ self.old ++ item.Block level kind end ∷ []) }
        ensures unchanged { OnErr result (self.new ≡ self.old) }
    {
        self.push(ItemEntry::Block { level, kind, end })
    }

    /// Pushes a label. A refused growth leaves the items unchanged.
    pub fn push_label(&mut self, first: u32, last: u32) -> Result<(), AllocError>
        ensures pushed { OnOk result (self.new
            ≡ self.old ++ item.Label (record { first = first; last = last }) ∷ []) }
        ensures unchanged { OnErr result (self.new ≡ self.old) }
    {
        self.push(ItemEntry::Label { first, last })
    }

    /// How many items there are.
    pub fn len(&self) -> usize
        ensures { result ≡ length self.now }
    {
        self.entries.len()
    }

    /// Whether there is no item.
    pub fn is_empty(&self) -> bool
        ensures { result ≡ (length self.now == 0) }
    {
        self.entries.is_empty()
    }

    /// The item of this number.
    pub fn get(&self, i: usize) -> Item
        requires { i < length self.now }
        ensures { slice_get self.now i ≡ Some result }
    {
        self.entries[i].item()
    }
}
