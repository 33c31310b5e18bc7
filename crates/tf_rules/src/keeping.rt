//! The facts that were found in a file, as they are stored: with places, and with names that own their texts.

ghost use Rattle.std.specs.Prelude.{◌≡◌, ◌<◌, [], ◌∷◌, ℕ, length, map, slice_get, Some, IfOk, OnOk};
ghost use Rattle.std.specs.List.{flat_map};
ghost use Rattle.std.specs.Option.{option_map};
ghost use Rattle.tf_rules.specs.Issues.{comment_at, place_in};
ghost use Rattle.tf_rules.specs.Stored.{declaration_at, source_at};
ghost use Rattle.tf_facts.specs.Found.{declaration, texts_of};
ghost use Rattle.tf_facts.specs.Found as found;
ghost use Rattle.tf_rules.specs.Inner.StoredViews.{stored_comment, stored_declaration, stored_names, stored_source, place_of};
ghost use Rattle.tf_rules.specs.Inner.Locating.{CanAdvance, advance, numbers_of, quotes};

use crate::locator::Locator;
use crate::stored::{
    StoredComment, StoredDeclaration, StoredName, StoredNames, StoredSource, TokenPlace,
};
use std::alloc::{AllocError, Global};
use tf_facts::{Declared, FoundComment, FoundSource, Names};

/// The places of the tokens of these numbers.
pub fn places(
    alloc: Global,
    numbers: &[usize],
    mut locator: Locator<'_, '_>,
) -> Result<Vec<TokenPlace>, AllocError>
    requires { CanAdvance locator numbers.now }
    ensures { IfOk result (λ kept. map place_of kept.items
        ≡ map (place_in locator.entry.file) numbers.now) }
{
    let mut kept = Vec::with_capacity(alloc, numbers.len())?;
    for number in numbers {
        kept.push(locator.place(*number))?;
    }
    Ok(kept)
}

fn stored_comment(comment: FoundComment, locator: &mut Locator<'_, '_>) -> StoredComment
    requires { CanAdvance locator.old (comment.at ∷ []) }
    ensures kept { stored_comment result
        ≡ comment_at (place_in locator.old.file) (found.comment comment) }
    ensures moved { locator.new ≡ advance locator.old (comment.at ∷ []) }
{
    StoredComment {
        at: locator.place(comment.at),
        has_slashes: comment.has_slashes,
        silences: comment.silences,
    }
}

/// Comments as they are stored.
pub fn stored_comments(
    alloc: Global,
    comments: &[FoundComment],
    mut locator: Locator<'_, '_>,
) -> Result<Vec<StoredComment>, AllocError>
    requires { CanAdvance locator (map (λ c. c.at) comments.now) }
    ensures { IfOk result (λ kept. map stored_comment kept.items
        ≡ map (λ c. comment_at (place_in locator.entry.file) (found.comment c)) comments.now) }
{
    let mut kept = Vec::with_capacity(alloc, comments.len())?;
    for comment in comments {
        kept.push(stored_comment(*comment, &mut locator))?;
    }
    Ok(kept)
}

/// A copy of the labels of a block.
fn stored_names(alloc: Global, names: Names<'_>) -> Result<StoredNames, AllocError>
    ensures { IfOk result (λ kept. stored_names kept ≡ texts_of names.entry) }
{
    match names {
        Names::None => Ok(StoredNames::None),
        Names::One(name) => Ok(StoredNames::One(StoredName::new(alloc, name)?)),
        Names::Two(first, second) => {
            let first = StoredName::new(alloc, first)?;
            let second = StoredName::new(alloc, second)?;
            Ok(StoredNames::Two(first, second))
        }
        Names::More => Ok(StoredNames::More),
    }
}

fn stored_source(source: Option<FoundSource>, locator: &mut Locator<'_, '_>) -> Option<StoredSource>
    requires { CanAdvance locator.old (quotes (option_map found.found_source source)) }
    ensures kept { option_map stored_source result
        ≡ source_at (place_in locator.old.file) (option_map found.found_source source) }
    ensures moved { locator.new
        ≡ advance locator.old (quotes (option_map found.found_source source)) }
{
    let Some(source) = source else {
        return None;
    };
    Some(StoredSource {
        source: source.source,
        at: locator.place(source.at),
    })
}

fn stored_declaration(
    alloc: Global,
    declared: Declared<'_>,
    locator: &mut Locator<'_, '_>,
) -> Result<StoredDeclaration, AllocError>
    requires { CanAdvance locator.old (numbers_of (declaration declared)) }
    ensures kept { IfOk result (λ kept. stored_declaration kept
        ≡ declaration_at (place_in locator.old.file) (declaration declared.entry)) }
    ensures moved { OnOk result (locator.new
        ≡ advance locator.old (numbers_of (declaration declared.entry))) }
{
    let names = stored_names(alloc, declared.names)?;
    let at = locator.place(declared.at);
    let source = stored_source(declared.source, locator);
    Ok(StoredDeclaration {
        kind: declared.kind,
        names,
        at,
        is_described: declared.is_described,
        is_typed: declared.is_typed,
        is_versioned: declared.is_versioned,
        source,
    })
}

/// Declarations as they are stored.
pub fn stored_declarations(
    alloc: Global,
    declarations: &[Declared<'_>],
    mut locator: Locator<'_, '_>,
) -> Result<Vec<StoredDeclaration>, AllocError>
    requires { CanAdvance locator (flat_map (λ d. numbers_of (declaration d)) declarations.now) }
    ensures { IfOk result (λ kept. map stored_declaration kept.items
        ≡ map (λ d. declaration_at (place_in locator.entry.file) (declaration d))
        declarations.now) }
{
    let mut kept = Vec::with_capacity(alloc, declarations.len())?;
    for declared in declarations {
        kept.push(stored_declaration(alloc, *declared, &mut locator)?)?;
    }
    Ok(kept)
}
