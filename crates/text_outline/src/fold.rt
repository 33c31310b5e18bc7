//! The folds of a text.

ghost use Rattle.std.specs.Prelude.{◌≡◌, ◌≤◌, ◌<◌, ◌+◌, ◌++◌, IfOk, OnOk, drop, flat_map, length};
ghost use Rattle.hcl_grammar.specs.Items.{outline};
ghost use Rattle.hcl_source.specs.Load.{IsText};
ghost use Rattle.text_outline.specs.Folds.{HasFolds, fold_between, fold_from, fold_of, folds_of};
ghost use Rattle.text_outline.specs.Inner.Found.{found_folds};

use crate::token_range::line_of_token;
use hcl_scan::{LoadError, ScanError, Source, scan};
use hcl_syntax::{Accepted, Item, Outline, accepts, outline};
use std::alloc::{AllocError, Global};
use text_places::{PlaceIndex, Units};

/// Lines of a text that can be folded, from 0: the first stays in sight (Language Server Protocol 3.17, "Folding Range
/// Request").
#[derive(Clone, Copy)]
pub struct Fold {
    pub first: usize,
    pub last: usize,
}

/// The fold of an item from one line to another, which stays in sight.
fn fold_between(first: usize, last: usize) -> Option<Fold>
    ensures { found_folds result ≡ fold_between first last }
{
    if last.saturating_sub(first) < 2 {
        return None;
    }
    Some(Fold {
        first,
        last: last - 1,
    })
}

/// The fold of an item by its first token, and the token after its last.
fn fold_from(
    accepted: &Accepted<'_, '_>,
    places: &PlaceIndex<'_>,
    first: usize,
    end: usize,
) -> Option<Fold>
    requires units { places.now.units ≡ Units.Bytes }
    requires text { places.now.text ≡ accepted.now.text }
    requires first { first < length accepted.now.tokens }
    requires end { end ≤ length accepted.now.tokens }
    ensures { found_folds result ≡ fold_from accepted.now first end }
{
    let last = end.saturating_sub(1);
    fold_between(
        line_of_token(accepted, places, first),
        line_of_token(accepted, places, last),
    )
}

/// The fold of the item with this number, if it has one.
fn fold_at(
    accepted: &Accepted<'_, '_>,
    items: &Outline,
    places: &PlaceIndex<'_>,
    number: usize,
) -> Option<Fold>
    requires items { items.now ≡ outline accepted.now.tokens }
    requires units { places.now.units ≡ Units.Bytes }
    requires text { places.now.text ≡ accepted.now.text }
    requires within { number < length items.now }
    ensures { flat_map (fold_of accepted.now) (drop number items.now)
        ≡ found_folds result ++ flat_map (fold_of accepted.now) (drop (number + 1) items.now) }
{
    match items.get(number) {
        Item::Attribute { name, end, .. } => fold_from(accepted, places, name, end),
        Item::Block { kind, end, .. } => fold_from(accepted, places, kind, end),
        Item::Label(_) => None,
    }
}

/// Pushes the fold, if there is one.
fn push_fold(found: Option<Fold>, folds: &mut Vec<Fold>) -> Result<(), AllocError>
    ensures { OnOk result (folds.new.items ≡ folds.old.items ++ found_folds found) }
{
    let Some(fold) = found else {
        return Ok(());
    };
    folds.push(fold)?;
    Ok(())
}

/// The folds of these items.
fn item_folds(
    alloc: Global,
    accepted: &Accepted<'_, '_>,
    items: &Outline,
    places: &PlaceIndex<'_>,
) -> Result<Vec<Fold>, AllocError>
    requires items { items.now ≡ outline accepted.now.tokens }
    requires units { places.now.units ≡ Units.Bytes }
    requires text { places.now.text ≡ accepted.now.text }
    ensures { IfOk result (λ folds. folds.items ≡ flat_map (fold_of accepted.now) items.now) }
{
    let mut folds = Vec::new(alloc);
    for number in 0..items.len() {
        push_fold(fold_at(accepted, items, places, number), &mut folds)?;
    }
    Ok(folds)
}

/// The folds of a file.
fn file_folds(alloc: Global, accepted: &Accepted<'_, '_>) -> Result<Vec<Fold>, AllocError>
    ensures { IfOk result (λ folds. folds.items ≡ folds_of accepted.now) }
{
    let items = outline(alloc, accepted)?;
    let source = accepted.tokens().source();
    let places = PlaceIndex::new(alloc, Units::Bytes, source.text())?;
    item_folds(alloc, accepted, &items, &places)
}

/// The folds of a source.
fn source_folds(alloc: Global, source: &Source) -> Result<Vec<Fold>, AllocError>
    requires { IsText source.now }
    ensures { IfOk result (λ folds. HasFolds source.now folds.items) }
{
    let tokens = match scan(alloc, source) {
        Ok(tokens) => tokens,
        Err(ScanError::OutOfMemory) => return Err(AllocError),
        Err(ScanError::Fault(_)) => return Ok(Vec::new(alloc)),
    };
    match accepts(&tokens) {
        Ok(accepted) => file_folds(alloc, &accepted),
        Err(_) => Ok(Vec::new(alloc)),
    }
}

/// The folds of a text, in order; none if the text is refused. An error means that memory ran out.
pub fn folds_of(alloc: Global, text: &str) -> Result<Vec<Fold>, AllocError>
    ensures { IfOk result (λ folds. HasFolds text.now folds.items) }
{
    match Source::from_bytes(alloc, text.as_bytes()) {
        Ok(source) => source_folds(alloc, &source),
        Err(LoadError::Fault(_)) => Ok(Vec::new(alloc)),
        Err(_) => Err(AllocError),
    }
}
