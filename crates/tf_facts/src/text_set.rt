//! Texts, each once, in the order of their insertion.

ghost use Rattle.std.specs.Prelude.{◌≡◌, length, take, IfOk, OnOk, OnErr, []};
ghost use Rattle.std.specs.List.{list_any};
ghost use Rattle.std.specs.String.{string_bytes};
ghost use Rattle.std.specs.Str.{bytes_eq};
ghost use Rattle.indexmap.specs.IndexSet.{insert_key};

use crate::hashing::Hashing;
use indexmap::IndexSet;
use std::alloc::{AllocError, Global};
use std::marker::Model;

/// Texts, each once.
#[derive(Drop)]
pub struct TextSet {
    texts: IndexSet<String, Hashing>,
}

impl Model for TextSet {
    ghost use Rattle.std.specs.Prelude.{List, ℕ, map};
    ghost use Rattle.std.specs.String.{string_bytes};

    ghost Value = { List (List ℕ) };

    ghost view = { λ s. map string_bytes s.texts.keys };
}

impl TextSet {
    /// No text. Texts are hashed by a seed that all runs share.
    pub fn new(alloc: Global) -> TextSet
        ensures { result ≡ [] }
    {
        TextSet::with_hashing(alloc, Hashing::with_shared_seed())
    }

    /// No text.
    pub fn with_hashing(alloc: Global, hashing: Hashing) -> TextSet
        ensures { result ≡ [] }
    {
        TextSet {
            texts: IndexSet::with_hasher(alloc, hashing),
        }
    }

    /// How many texts there are.
    pub fn len(&self) -> usize
        ensures { result ≡ length self.now }
    {
        self.texts.len()
    }

    /// Whether the text is among them.
    pub fn contains(&self, text: &str) -> bool
        ensures { result ≡ list_any (bytes_eq text.now) self.now }
    {
        self.texts.contains(text)
    }

    /// Inserts a text, unless it is there.
    pub(crate) fn insert(&mut self, text: String) -> Result<(), AllocError>
        ensures ok { OnOk result (self.new ≡ insert_key bytes_eq self.old (string_bytes text)) }
        ensures err { OnErr result (self.new ≡ self.old) }
    {
        let Ok(_) = self.texts.insert(text) else {
            return Err(AllocError);
        };
        Ok(())
    }

    /// Inserts a copy of a text, unless it is there. The copy is made before the lookup: that takes less time than two
    /// lookups.
    pub fn insert_copy(&mut self, alloc: Global, text: &str) -> Result<(), AllocError>
        ensures ok { OnOk result (self.new ≡ insert_key bytes_eq self.old text.now) }
        ensures err { OnErr result (self.new ≡ self.old) }
    {
        let copy = String::from_str(alloc, text)?;
        self.insert(copy)
    }

    /// Drops all but the first texts.
    pub(crate) fn truncate(&mut self, len: usize)
        ensures { self.new ≡ take len self.old }
    {
        self.texts.truncate(len);
    }
}
