//! The symbols of a text.

ghost use Rattle.std.specs.Prelude.{◌≡◌, ◌<◌, ◌+◌, ◌^◌, ◌++◌, IfOk, OnOk, drop, length, map};
ghost use Rattle.hcl_grammar.specs.Items.{outline};
ghost use Rattle.hcl_source.specs.Load.{IsText};
ghost use Rattle.text_outline.specs.Inner.Found.{found_symbols};
ghost use Rattle.text_outline.specs.Symbols.{HasSymbols, symbols_in, symbols_of};
ghost use Rattle.text_outline.specs.Views.{symbol_seen};

use crate::name::block_name;
use crate::token_range::{range_between, word_at};
use hcl_scan::{LoadError, ScanError, Source, scan};
use hcl_syntax::{Accepted, Item, Outline, accepts, outline};
use std::alloc::{AllocError, Global};
use text_places::{PlaceIndex, Range, Units};

/// What a symbol is.
#[derive(Clone, Copy)]
pub enum SymbolKind {
    Block,
    Attribute,
}

/// A block or an attribute of a file (Language Server Protocol 3.17, "Document Symbols Request").
#[derive(Drop)]
pub struct Symbol {
    /// The name of the attribute, or the kind of the block and its labels in quotes.
    pub name: String,
    pub kind: SymbolKind,
    /// How many blocks are around it.
    pub level: usize,
    /// From its first token to its last.
    pub range: Range,
    /// Its first token.
    pub selection: Range,
}

/// The symbol of the item with this number, if it is no label.
fn symbol_at(
    alloc: Global,
    accepted: &Accepted<'_, '_>,
    items: &Outline,
    places: &PlaceIndex<'_>,
    number: usize,
) -> Result<Option<Symbol>, AllocError>
    requires items { items.now ≡ outline accepted.now.tokens }
    requires text { places.now.text ≡ accepted.now.text }
    requires within { number < length items.now }
    requires small { number + 1 < 2 ^ 64 }
    ensures { IfOk result (λ found.
        symbols_in places.now.units accepted.now (drop number items.now)
        ≡ found_symbols found
        ++ symbols_in places.now.units accepted.now (drop (number + 1) items.now)) }
{
    match items.get(number) {
        Item::Attribute {
            level,
            name,
            end,
            ..
        } => Ok(Some(Symbol {
            name: String::from_str(alloc, word_at(accepted, name))?,
            kind: SymbolKind::Attribute,
            level,
            range: range_between(accepted, places, name, end.saturating_sub(1)),
            selection: range_between(accepted, places, name, name),
        })),
        Item::Block { level, kind, end } => Ok(Some(Symbol {
            name: block_name(alloc, accepted, items, kind, number + 1)?,
            kind: SymbolKind::Block,
            level,
            range: range_between(accepted, places, kind, end.saturating_sub(1)),
            selection: range_between(accepted, places, kind, kind),
        })),
        Item::Label(_) => Ok(None),
    }
}

/// Pushes the symbol, if there is one.
fn push_symbol(found: Option<Symbol>, symbols: &mut Vec<Symbol>) -> Result<(), AllocError>
    ensures { OnOk result (map symbol_seen symbols.new.items
        ≡ map symbol_seen symbols.old.items ++ found_symbols found) }
{
    let Some(symbol) = found else {
        return Ok(());
    };
    symbols.push(symbol)?;
    Ok(())
}

/// The symbols of these items.
fn item_symbols(
    alloc: Global,
    accepted: &Accepted<'_, '_>,
    items: &Outline,
    places: &PlaceIndex<'_>,
) -> Result<Vec<Symbol>, AllocError>
    requires items { items.now ≡ outline accepted.now.tokens }
    requires text { places.now.text ≡ accepted.now.text }
    ensures { IfOk result (λ symbols. map symbol_seen symbols.items
        ≡ symbols_in places.now.units accepted.now items.now) }
{
    let mut symbols = Vec::new(alloc);
    for number in 0..items.len() {
        let found = symbol_at(alloc, accepted, items, places, number)?;
        push_symbol(found, &mut symbols)?;
    }
    Ok(symbols)
}

/// The symbols of a file.
fn file_symbols(
    alloc: Global,
    units: Units,
    accepted: &Accepted<'_, '_>,
) -> Result<Vec<Symbol>, AllocError>
    ensures { IfOk result (λ symbols. map symbol_seen symbols.items
        ≡ symbols_of units accepted.now) }
{
    let items = outline(alloc, accepted)?;
    let source = accepted.tokens().source();
    let places = PlaceIndex::new(alloc, units, source.text())?;
    item_symbols(alloc, accepted, &items, &places)
}

/// The symbols of a source.
fn source_symbols(alloc: Global, units: Units, source: &Source) -> Result<Vec<Symbol>, AllocError>
    requires { IsText source.now }
    ensures { IfOk result (λ symbols. HasSymbols units source.now
        (map symbol_seen symbols.items)) }
{
    let tokens = match scan(alloc, source) {
        Ok(tokens) => tokens,
        Err(ScanError::OutOfMemory) => return Err(AllocError),
        Err(ScanError::Fault(_)) => return Ok(Vec::new(alloc)),
    };
    match accepts(&tokens) {
        Ok(accepted) => file_symbols(alloc, units, &accepted),
        Err(_) => Ok(Vec::new(alloc)),
    }
}

/// The symbols of a text, in order, with places in these units; none if the text is refused. An error means that memory
/// ran out.
pub fn symbols_of(alloc: Global, units: Units, text: &str) -> Result<Vec<Symbol>, AllocError>
    ensures { IfOk result (λ symbols. HasSymbols units text.now (map symbol_seen symbols.items)) }
{
    match Source::from_bytes(alloc, text.as_bytes()) {
        Ok(source) => source_symbols(alloc, units, &source),
        Err(LoadError::Fault(_)) => Ok(Vec::new(alloc)),
        Err(_) => Err(AllocError),
    }
}
