//! The replies to the requests that change a name.

ghost use Rattle.std.specs.Prelude.{◌≡◌, IfOk, false, map, true};
ghost use Rattle.json.specs.Tree.{HasNumbers, json_tokens};
ghost use Rattle.lint_forms.specs.AddsTokens.{AddsTokens};
ghost use Rattle.lint_forms.specs.JsonValues.{json_text};
ghost use Rattle.editor_messages.specs.Inner.Named.{change_tokens, changes_tokens, renaming_tokens, versioned_tokens};
ghost use Rattle.editor_messages.specs.Names.{prepared_json, rename_json, renaming_edits, version_json, versioned_edits};
ghost use Rattle.editor_messages.specs.Replies.{result_json};
ghost use Rattle.editor_messages.specs.Views.{document_ranges_seen, id_seen};

use crate::message::Id;
use crate::range::{DocumentRanges, write_range};
use crate::reply::{write_edit, write_end, write_head};
use json::Writer;
use lint_forms::{JsonPart, write_parts};
use std::alloc::{AllocError, Global};
use text_places::Range;

fn write_renamings(writer: &mut Writer, name: &str, ranges: &[Range]) -> Result<(), AllocError>
    ensures { AddsTokens result writer.old writer.new (renaming_tokens name.now ranges.now) }
{
    for range in ranges {
        write_edit(writer, *range, name)?;
    }
    Ok(())
}

/// Writes the array of edits that put a name in place of these ranges.
fn write_edits(writer: &mut Writer, name: &str, ranges: &[Range]) -> Result<(), AllocError>
    ensures { AddsTokens result writer.old writer.new
        (json_tokens (renaming_edits name.now ranges.now)) }
{
    write_parts(writer, &[JsonPart::Array])?;
    write_renamings(writer, name, ranges)?;
    write_parts(writer, &[JsonPart::EndArray])
}

/// Writes the version of a document, or null.
fn write_version(writer: &mut Writer, version: Option<u64>) -> Result<(), AllocError>
    ensures { AddsTokens result writer.old writer.new (json_tokens (version_json version)) }
{
    match version {
        Some(number) => writer.u64(number),
        None => writer.null(),
    }
}

/// Writes the edits of a document of a version.
fn write_versioned(
    writer: &mut Writer,
    name: &str,
    document: &DocumentRanges,
) -> Result<(), AllocError>
    ensures { AddsTokens result writer.old writer.new
        (json_tokens (versioned_edits name.now (document_ranges_seen document.now))) }
{
    let uri = document.uri.as_str();
    write_parts(
        writer,
        &[
            JsonPart::Object,
            JsonPart::ObjectAt("textDocument"),
            JsonPart::TextAt("uri", uri),
            JsonPart::Key("version"),
        ],
    )?;
    write_version(writer, document.version)?;
    write_parts(writer, &[JsonPart::EndObject, JsonPart::Key("edits")])?;
    write_edits(writer, name, document.ranges.as_slice())?;
    write_parts(writer, &[JsonPart::EndObject])
}

fn write_versioned_documents(
    writer: &mut Writer,
    name: &str,
    documents: &[DocumentRanges],
) -> Result<(), AllocError>
    ensures { AddsTokens result writer.old writer.new
        (versioned_tokens name.now (map document_ranges_seen documents.now)) }
{
    for document in documents {
        write_versioned(writer, name, document)?;
    }
    Ok(())
}

/// Writes the edits of a document after its URI.
fn write_change(
    writer: &mut Writer,
    name: &str,
    document: &DocumentRanges,
) -> Result<(), AllocError>
    ensures { AddsTokens result writer.old writer.new
        (change_tokens name.now (document_ranges_seen document.now)) }
{
    let uri = document.uri.as_str();
    write_parts(writer, &[JsonPart::Key(uri)])?;
    write_edits(writer, name, document.ranges.as_slice())
}

fn write_changes(
    writer: &mut Writer,
    name: &str,
    documents: &[DocumentRanges],
) -> Result<(), AllocError>
    ensures { AddsTokens result writer.old writer.new
        (changes_tokens name.now (map document_ranges_seen documents.now)) }
{
    for document in documents {
        write_change(writer, name, document)?;
    }
    Ok(())
}

/// Writes the edits of documents of versions.
fn write_with_versions(
    writer: &mut Writer,
    name: &str,
    documents: &[DocumentRanges],
) -> Result<(), AllocError>
    ensures { AddsTokens result writer.old writer.new
        (json_tokens (rename_json true name.now (map document_ranges_seen documents.now))) }
{
    write_parts(
        writer,
        &[JsonPart::Object, JsonPart::ArrayAt("documentChanges")],
    )?;
    write_versioned_documents(writer, name, documents)?;
    write_parts(writer, &[JsonPart::EndArray, JsonPart::EndObject])
}

/// Writes the edits of documents by their URIs.
fn write_without_versions(
    writer: &mut Writer,
    name: &str,
    documents: &[DocumentRanges],
) -> Result<(), AllocError>
    ensures { AddsTokens result writer.old writer.new
        (json_tokens (rename_json false name.now (map document_ranges_seen documents.now))) }
{
    write_parts(writer, &[JsonPart::Object, JsonPart::ObjectAt("changes")])?;
    write_changes(writer, name, documents)?;
    write_parts(writer, &[JsonPart::EndObject, JsonPart::EndObject])
}

/// Writes the edits by which a name is changed to this one.
fn write_rename(
    writer: &mut Writer,
    takes_versions: bool,
    name: &str,
    documents: &[DocumentRanges],
) -> Result<(), AllocError>
    ensures { AddsTokens result writer.old writer.new
        (json_tokens (rename_json takes_versions name.now
        (map document_ranges_seen documents.now))) }
{
    if takes_versions {
        write_with_versions(writer, name, documents)
    } else {
        write_without_versions(writer, name, documents)
    }
}

fn write_rename_reply(
    writer: &mut Writer,
    id: Id<'_>,
    takes_versions: bool,
    name: &str,
    documents: &[DocumentRanges],
) -> Result<(), AllocError>
    requires { HasNumbers (id_seen id) }
    ensures { AddsTokens result writer.old writer.new
        (json_tokens (result_json (id_seen id.entry)
        (rename_json takes_versions name.now (map document_ranges_seen documents.now)))) }
{
    write_head(writer, id, "result")?;
    write_rename(writer, takes_versions, name, documents)?;
    write_end(writer)
}

/// The reply whose result puts a new name in place of these ranges of documents, with their versions if the editor takes
/// versions (Language Server Protocol 3.17, "WorkspaceEdit"). An error means that memory ran out.
pub fn rename_reply(
    alloc: Global,
    id: Id<'_>,
    takes_versions: bool,
    name: &str,
    documents: &[DocumentRanges],
) -> Result<Vec<u8>, AllocError>
    requires { HasNumbers (id_seen id) }
    ensures { IfOk result (λ reply. reply.items
        ≡ json_text (result_json (id_seen id.entry)
        (rename_json takes_versions name.now (map document_ranges_seen documents.now)))) }
{
    let mut writer = Writer::new(Vec::new(alloc));
    write_rename_reply(&mut writer, id, takes_versions, name, documents)?;
    Ok(writer.into_inner())
}

/// Writes the range of a name that can be changed, and what the editor shows in it.
fn write_prepared(writer: &mut Writer, range: Range, placeholder: &str) -> Result<(), AllocError>
    ensures { AddsTokens result writer.old writer.new
        (json_tokens (prepared_json range placeholder.now)) }
{
    write_parts(writer, &[JsonPart::Object, JsonPart::Key("range")])?;
    write_range(writer, range)?;
    write_parts(
        writer,
        &[
            JsonPart::TextAt("placeholder", placeholder),
            JsonPart::EndObject,
        ],
    )
}

fn write_prepared_reply(
    writer: &mut Writer,
    id: Id<'_>,
    range: Range,
    placeholder: &str,
) -> Result<(), AllocError>
    requires { HasNumbers (id_seen id) }
    ensures { AddsTokens result writer.old writer.new
        (json_tokens (result_json (id_seen id.entry) (prepared_json range placeholder.now))) }
{
    write_head(writer, id, "result")?;
    write_prepared(writer, range, placeholder)?;
    write_end(writer)
}

/// The reply whose result is the range of a name that can be changed, and what the editor shows in it before it is
/// changed. An error means that memory ran out.
pub fn prepared_reply(
    alloc: Global,
    id: Id<'_>,
    range: Range,
    placeholder: &str,
) -> Result<Vec<u8>, AllocError>
    requires { HasNumbers (id_seen id) }
    ensures { IfOk result (λ reply. reply.items
        ≡ json_text (result_json (id_seen id.entry) (prepared_json range placeholder.now))) }
{
    let mut writer = Writer::new(Vec::new(alloc));
    write_prepared_reply(&mut writer, id, range, placeholder)?;
    Ok(writer.into_inner())
}
