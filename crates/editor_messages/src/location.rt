//! The reply with the places of a name.

ghost use Rattle.std.specs.Prelude.{◌≡◌, IfOk, map};
ghost use Rattle.json.specs.Tree.{HasNumbers, json_tokens};
ghost use Rattle.lint_forms.specs.AddsTokens.{AddsTokens};
ghost use Rattle.lint_forms.specs.JsonValues.{json_text};
ghost use Rattle.editor_messages.specs.Inner.Named.{locations_tokens, ranges_tokens};
ghost use Rattle.editor_messages.specs.Names.{locations_json, range_location};
ghost use Rattle.editor_messages.specs.Replies.{result_json};
ghost use Rattle.editor_messages.specs.Views.{document_ranges_seen, id_seen};

use crate::message::Id;
use crate::range::{DocumentRanges, write_range};
use crate::reply::{write_end, write_head};
use json::Writer;
use lint_forms::{JsonPart, write_parts};
use std::alloc::{AllocError, Global};
use text_places::Range;

/// Writes a range in the document that has this URI.
fn write_location(writer: &mut Writer, uri: &str, range: Range) -> Result<(), AllocError>
    ensures { AddsTokens result writer.old writer.new
        (json_tokens (range_location uri.now range)) }
{
    write_parts(
        writer,
        &[
            JsonPart::Object,
            JsonPart::TextAt("uri", uri),
            JsonPart::Key("range"),
        ],
    )?;
    write_range(writer, range)?;
    write_parts(writer, &[JsonPart::EndObject])
}

/// Writes ranges in the document that has this URI.
fn write_ranges(writer: &mut Writer, uri: &str, ranges: &[Range]) -> Result<(), AllocError>
    ensures { AddsTokens result writer.old writer.new (ranges_tokens uri.now ranges.now) }
{
    for range in ranges {
        write_location(writer, uri, *range)?;
    }
    Ok(())
}

/// Writes the ranges of a document.
fn write_document(writer: &mut Writer, document: &DocumentRanges) -> Result<(), AllocError>
    ensures { let d = document_ranges_seen document.now in
        AddsTokens result writer.old writer.new (ranges_tokens d.uri d.ranges) }
{
    let uri = document.uri.as_str();
    write_ranges(writer, uri, document.ranges.as_slice())
}

fn write_documents(writer: &mut Writer, documents: &[DocumentRanges]) -> Result<(), AllocError>
    ensures { AddsTokens result writer.old writer.new
        (locations_tokens (map document_ranges_seen documents.now)) }
{
    for document in documents {
        write_document(writer, document)?;
    }
    Ok(())
}

/// Writes the array of places.
fn write_array(writer: &mut Writer, documents: &[DocumentRanges]) -> Result<(), AllocError>
    ensures { AddsTokens result writer.old writer.new
        (json_tokens (locations_json (map document_ranges_seen documents.now))) }
{
    write_parts(writer, &[JsonPart::Array])?;
    write_documents(writer, documents)?;
    write_parts(writer, &[JsonPart::EndArray])
}

fn write_locations_reply(
    writer: &mut Writer,
    id: Id<'_>,
    documents: &[DocumentRanges],
) -> Result<(), AllocError>
    requires { HasNumbers (id_seen id) }
    ensures { AddsTokens result writer.old writer.new
        (json_tokens (result_json (id_seen id.entry)
        (locations_json (map document_ranges_seen documents.now)))) }
{
    write_head(writer, id, "result")?;
    write_array(writer, documents)?;
    write_end(writer)
}

/// The reply whose result is these ranges of documents, in order. An error means that memory ran out.
pub fn locations_reply(
    alloc: Global,
    id: Id<'_>,
    documents: &[DocumentRanges],
) -> Result<Vec<u8>, AllocError>
    requires { HasNumbers (id_seen id) }
    ensures { IfOk result (λ reply. reply.items
        ≡ json_text (result_json (id_seen id.entry)
        (locations_json (map document_ranges_seen documents.now)))) }
{
    let mut writer = Writer::new(Vec::new(alloc));
    write_locations_reply(&mut writer, id, documents)?;
    Ok(writer.into_inner())
}
