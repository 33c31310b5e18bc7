//! Entries, packed into 8 bytes each; long tokens have their spans in a second list.

ghost use Rattle.std.specs.Prelude.{◌≡◌, ◌≤◌, ◌<◌, ◌==◌, ◌++◌, ◌∷◌, [], length, slice_get, Some, IfOk, OnErr, OnOk};
ghost use Rattle.hcl_source.specs.Load.{max_source};
ghost use Rattle.hcl_tokens.specs.declared.token.TokenEntry.{TokenEntry};
ghost use Rattle.hcl_tokens.specs.Inner.StoredEntries.{HasSpan};

use crate::token::{Kind, TokenEntry};
use std::alloc::{AllocError, Global};
use std::marker::Model;

/// The length that marks a long token: a token of at least this length is long.
const LONG: u16 = u16::MAX;

/// An entry as it is stored. For a long token it has the index of the token's span in the second list.
#[derive(Clone, Copy, Debug)]
struct StoredEntry {
    /// Where the token begins, or for a long token the index of its span.
    place: u32,
    /// How many bytes the token has, or `LONG`.
    length: u16,
    kind: Kind,
    inside_heredoc: bool,
}

const _: () = prove!(size_of::<StoredEntry>() == 8);

/// Where a token begins, and how many bytes it has: with its end in their place, each length would be a subtraction.
#[derive(Clone, Copy, Debug)]
pub struct Span {
    pub start: u32,
    pub length: u32,
}

/// A list of entries, as a scan fills it.
#[derive(Debug, Drop)]
pub struct Entries {
    kept: Vec<StoredEntry>,
    /// The spans of the long tokens.
    long: Vec<Span>,
}

impl Model for Entries {
    ghost use Rattle.std.specs.Prelude.{◌≤◌, List, All, length};
    ghost use Rattle.hcl_tokens.specs.declared.token.TokenEntry.{TokenEntry};

    ghost Value = { List TokenEntry };

    ghost use Rattle.hcl_tokens.specs.Inner.StoredEntries.{entries_of, IsStored};

    ghost view = { λ e. entries_of e.long.items e.kept.items };

    ghost invariant = { λ e. All (IsStored e.long.items) e.kept.items
        × (length e.long.items ≤ length e.kept.items) };
}

impl Entries {
    /// No entries.
    pub fn new(alloc: Global) -> Entries
        ensures { result ≡ [] }
    {
        Entries {
            kept: Vec::new(alloc),
            long: Vec::new(alloc),
        }
    }

    /// No entries, with room for this many that aren't long.
    pub fn with_room(alloc: Global, count: usize) -> Result<Entries, AllocError>
        ensures { IfOk result (λ entries. entries ≡ []) }
    {
        Ok(Entries {
            kept: Vec::with_capacity(alloc, count)?,
            long: Vec::new(alloc),
        })
    }

    pub(crate) fn len(&self) -> usize
        ensures { result ≡ length self.now }
    {
        self.kept.len()
    }

    pub(crate) fn is_empty(&self) -> bool
        ensures { result ≡ (length self.now == 0) }
    {
        self.kept.is_empty()
    }

    /// The span of the entry of this number.
    #[inline(always)]
    pub(crate) fn span(&self, i: usize) -> Span
        requires { i < length self.now }
        ensures { (e : TokenEntry) → slice_get self.now i ≡ Some e → HasSpan e result }
    {
        let kept = self.kept[i];
        if kept.length == LONG {
            return self.long[kept.place as usize];
        }
        Span {
            start: kept.place,
            length: kept.length as u32,
        }
    }

    /// The kind of the entry of this number. Both kinds of entries store it in the same place.
    #[inline(always)]
    pub(crate) fn kind(&self, i: usize) -> Kind
        requires { i < length self.now }
        ensures { (e : TokenEntry) → slice_get self.now i ≡ Some e → result ≡ e.kind }
    {
        self.kept[i].kind
    }

    /// Whether the entry of this number is inside a heredoc.
    #[inline(always)]
    pub(crate) fn is_inside_heredoc(&self, i: usize) -> bool
        requires { i < length self.now }
        ensures { (e : TokenEntry) → slice_get self.now i ≡ Some e → result ≡ e.inside_heredoc }
    {
        self.kept[i].inside_heredoc
    }

    /// Pushes an entry. There are no more entries than the source has bytes. A refused growth leaves the list
    /// unchanged.
    pub fn push(&mut self, entry: TokenEntry) -> Result<(), AllocError>
        requires order { entry.start ≤ entry.end }
        requires room { length self.old < max_source }
        ensures pushed { OnOk result (self.new ≡ self.old ++ entry ∷ []) }
        ensures unchanged { OnErr result (self.new ≡ self.old) }
    {
        let length = entry.end - entry.start;
        if length >= LONG as u32 {
            return self.push_long(entry);
        }
        let at = self.kept.len();
        self.kept.push(StoredEntry {
            place: 0,
            length: 0,
            kind: Kind::Newline,
            inside_heredoc: false,
        })?;
        // Each field is written in place: building a whole entry first takes twice the instructions.
        let kept = &mut self.kept[at];
        kept.place = entry.start;
        kept.length = length as u16;
        kept.kind = entry.kind;
        kept.inside_heredoc = entry.inside_heredoc;
        Ok(())
    }

    /// Pushes the entry of a long token.
    fn push_long(&mut self, entry: TokenEntry) -> Result<(), AllocError>
        requires order { entry.start ≤ entry.end }
        requires room { length self.old < max_source }
        ensures pushed { OnOk result (self.new ≡ self.old ++ entry ∷ []) }
        ensures unchanged { OnErr result (self.new ≡ self.old) }
    {
        let count = self.kept.len();
        self.kept.push(StoredEntry {
            place: self.long.len() as u32,
            length: LONG,
            kind: entry.kind,
            inside_heredoc: entry.inside_heredoc,
        })?;
        let span = Span {
            start: entry.start,
            length: entry.end - entry.start,
        };
        match self.long.push(span) {
            Ok(()) => Ok(()),
            Err(_) => {
                self.kept.truncate(count);
                Err(AllocError)
            }
        }
    }
}
