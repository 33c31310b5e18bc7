//! What an editor is told of documents alone.

ghost use Rattle.std.specs.Prelude.{◌≡◌, ◌∷◌, [], IfOk, OnOk, map, string_bytes};
ghost use Rattle.editor_modules.specs.Inner.Added.{AddTexts};
ghost use Rattle.editor_modules.specs.Messages.{TellTexts, message_seen};
ghost use Rattle.editor_modules.specs.Shown.{other_uris};

use crate::message::{ToldMessage, message_alone};
use open_files::Documents;
use std::alloc::{AllocError, Global};
use text_places::Units;

/// Adds the message about a document alone.
fn add_alone(
    alloc: Global,
    units: Units,
    documents: &Documents,
    uri: &str,
    all: &mut Vec<ToldMessage>,
) -> Result<(), AllocError>
    ensures { OnOk result (AddTexts units documents.now (uri.now ∷ [])
        (map message_seen all.old.items) (map message_seen all.new.items)) }
{
    let message = message_alone(alloc, units, documents, uri)?;
    match all.push(message) {
        Ok(()) => Ok(()),
        Err(_) => Err(AllocError),
    }
}

/// Adds the message about a document alone, unless its URI is this one.
fn add_other(
    alloc: Global,
    units: Units,
    documents: &Documents,
    uri: &str,
    other: &str,
    all: &mut Vec<ToldMessage>,
) -> Result<(), AllocError>
    ensures { OnOk result (AddTexts units documents.now (other_uris uri.now (other.now ∷ []))
        (map message_seen all.old.items) (map message_seen all.new.items)) }
{
    if *uri == *other {
        return Ok(());
    }
    add_alone(alloc, units, documents, other, all)
}

/// The messages about a document and then those of these that have another URI, each alone. An error means that memory
/// ran out.
pub fn text_messages(
    alloc: Global,
    units: Units,
    documents: &Documents,
    uri: &str,
    others: &[String],
) -> Result<Vec<ToldMessage>, AllocError>
    ensures { IfOk result (λ all. TellTexts units documents.now
        (uri.now ∷ other_uris uri.now (map string_bytes others.now))
        (map message_seen all.items)) }
{
    let mut all = Vec::new(alloc);
    add_alone(alloc, units, documents, uri, &mut all)?;
    for other in others {
        add_other(alloc, units, documents, uri, other.as_str(), &mut all)?;
    }
    Ok(all)
}
