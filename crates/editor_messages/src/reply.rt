//! The replies to an editor.

ghost use Rattle.std.specs.Prelude.{◌≡◌, ◌<◌, ◌^◌, ◌∷◌, [], IfOk, length, map};
ghost use Rattle.json.specs.Json.{null};
ghost use Rattle.json.specs.Print.{IsNumber};
ghost use Rattle.json.specs.Token.{end_object};
ghost use Rattle.json.specs.Token as Token;
ghost use Rattle.json.specs.Tree.{HasNumbers, json_tokens};
ghost use Rattle.lint_forms.specs.AddsTokens.{AddsTokens};
ghost use Rattle.lint_forms.specs.JsonValues.{json_text};
ghost use Rattle.text_places.specs.Edits.{EditsAscend, edit_of};
ghost use Rattle.text_places.specs.PlacedEdits.{in_range, placed_edits};
ghost use Rattle.editor_messages.specs.Inner.Heads.{capabilities_head, capabilities_tail, edits_tokens, reply_head};
ghost use Rattle.editor_messages.specs.Replies.{capabilities_json, edit_json, edits_json, encoding_name, error_json, error_value, rename_ability, result_json};
ghost use Rattle.editor_messages.specs.Views.{id_seen};

use crate::error::ReplyError;
use crate::message::{Abilities, Id};
use crate::range::write_range;
use json::Writer;
use lint_forms::{JsonPart, write_parts};
use std::alloc::{AllocError, Global};
use text_places::{Range, TextEdit, Units, Walk, place_edit};

fn write_id(writer: &mut Writer, id: Id<'_>) -> Result<(), AllocError>
    requires { HasNumbers (id_seen id) }
    ensures { AddsTokens result writer.old writer.new (json_tokens (id_seen id.entry)) }
{
    match id {
        Id::Null => writer.null(),
        Id::Number(text) => writer.number(text),
        Id::Text(text) => writer.string(text),
    }
}

/// Begins a reply, up to the member of this name.
pub(crate) fn write_head(writer: &mut Writer, id: Id<'_>, name: &str) -> Result<(), AllocError>
    requires { HasNumbers (id_seen id) }
    ensures { AddsTokens result writer.old writer.new (reply_head (id_seen id.entry) name.now) }
{
    write_parts(
        writer,
        &[
            JsonPart::Object,
            JsonPart::TextAt("jsonrpc", "2.0"),
            JsonPart::Key("id"),
        ],
    )?;
    write_id(writer, id)?;
    write_parts(writer, &[JsonPart::Key(name)])
}

/// Ends a reply.
pub(crate) fn write_end(writer: &mut Writer) -> Result<(), AllocError>
    ensures { AddsTokens result writer.old writer.new (end_object ∷ []) }
{
    writer.end_object()
}

fn write_number(writer: &mut Writer, number: &str) -> Result<(), AllocError>
    requires { IsNumber number.now }
    ensures { AddsTokens result writer.old writer.new (Token.number number.now ∷ []) }
{
    writer.number(number)
}

fn write_error_value(writer: &mut Writer, error: ReplyError) -> Result<(), AllocError>
    ensures { AddsTokens result writer.old writer.new (json_tokens (error_value error)) }
{
    write_parts(writer, &[JsonPart::Object, JsonPart::Key("code")])?;
    write_number(writer, error.code())?;
    let text = error.text();
    write_parts(
        writer,
        &[JsonPart::TextAt("message", text), JsonPart::EndObject],
    )
}

fn write_error(writer: &mut Writer, id: Id<'_>, error: ReplyError) -> Result<(), AllocError>
    requires { HasNumbers (id_seen id) }
    ensures { AddsTokens result writer.old writer.new
        (json_tokens (error_json (id_seen id.entry) error)) }
{
    write_head(writer, id, "error")?;
    write_error_value(writer, error)?;
    write_end(writer)
}

/// The reply that is this error. An error of its own means that memory ran out.
pub fn error_reply(alloc: Global, id: Id<'_>, error: ReplyError) -> Result<Vec<u8>, AllocError>
    requires { HasNumbers (id_seen id) }
    ensures { IfOk result (λ text. text.items ≡ json_text (error_json (id_seen id.entry) error)) }
{
    let mut writer = Writer::new(Vec::new(alloc));
    write_error(&mut writer, id, error)?;
    Ok(writer.into_inner())
}

fn write_null(writer: &mut Writer, id: Id<'_>) -> Result<(), AllocError>
    requires { HasNumbers (id_seen id) }
    ensures { AddsTokens result writer.old writer.new
        (json_tokens (result_json (id_seen id.entry) null)) }
{
    write_head(writer, id, "result")?;
    writer.null()?;
    write_end(writer)
}

/// The reply whose result is null.
pub fn null_reply(alloc: Global, id: Id<'_>) -> Result<Vec<u8>, AllocError>
    requires { HasNumbers (id_seen id) }
    ensures { IfOk result (λ text. text.items ≡ json_text (result_json (id_seen id.entry) null)) }
{
    let mut writer = Writer::new(Vec::new(alloc));
    write_null(&mut writer, id)?;
    Ok(writer.into_inner())
}

fn encoding_name(units: Units) -> &'static str
    ensures { result.now ≡ encoding_name units }
{
    match units {
        Units::Bytes => "utf-8",
        Units::Utf16 => "utf-16",
    }
}

/// Writes how the server can change names.
fn write_rename_ability(writer: &mut Writer, prepares: bool) -> Result<(), AllocError>
    ensures { AddsTokens result writer.old writer.new (json_tokens (rename_ability prepares)) }
{
    if prepares {
        return write_parts(
            writer,
            &[
                JsonPart::Object,
                JsonPart::FlagAt("prepareProvider", true),
                JsonPart::EndObject,
            ],
        );
    }
    writer.boolean(true)
}

/// Writes what the server can do, up to how it can change names.
fn write_capabilities_head(writer: &mut Writer, encoding: &str) -> Result<(), AllocError>
    ensures { AddsTokens result writer.old writer.new (capabilities_head encoding.now) }
{
    write_parts(
        writer,
        &[
            JsonPart::Object,
            JsonPart::ObjectAt("capabilities"),
            JsonPart::TextAt("positionEncoding", encoding),
            JsonPart::ObjectAt("textDocumentSync"),
            JsonPart::FlagAt("openClose", true),
            JsonPart::NumberAt("change", 1),
            JsonPart::EndObject,
            JsonPart::FlagAt("documentFormattingProvider", true),
            JsonPart::FlagAt("documentSymbolProvider", true),
            JsonPart::FlagAt("foldingRangeProvider", true),
            JsonPart::FlagAt("definitionProvider", true),
            JsonPart::FlagAt("referencesProvider", true),
            JsonPart::Key("renameProvider"),
        ],
    )
}

/// Writes the rest, with the version of the server.
fn write_capabilities_tail(writer: &mut Writer, version: &str) -> Result<(), AllocError>
    ensures { AddsTokens result writer.old writer.new (capabilities_tail version.now) }
{
    write_parts(
        writer,
        &[
            JsonPart::EndObject,
            JsonPart::ObjectAt("serverInfo"),
            JsonPart::TextAt("name", "tfls"),
            JsonPart::TextAt("version", version),
            JsonPart::EndObject,
            JsonPart::EndObject,
        ],
    )
}

fn write_capabilities(
    writer: &mut Writer,
    version: &str,
    abilities: Abilities,
) -> Result<(), AllocError>
    ensures { AddsTokens result writer.old writer.new
        (json_tokens (capabilities_json version.now abilities)) }
{
    let encoding = encoding_name(abilities.units);
    write_capabilities_head(writer, encoding)?;
    write_rename_ability(writer, abilities.prepares_renames)?;
    write_capabilities_tail(writer, version)
}

fn write_capabilities_reply(
    writer: &mut Writer,
    id: Id<'_>,
    version: &str,
    abilities: Abilities,
) -> Result<(), AllocError>
    requires { HasNumbers (id_seen id) }
    ensures { AddsTokens result writer.old writer.new
        (json_tokens (result_json (id_seen id.entry) (capabilities_json version.now abilities))) }
{
    write_head(writer, id, "result")?;
    write_capabilities(writer, version, abilities)?;
    write_end(writer)
}

/// The reply that tells what this version of the server can do, for an editor that can do this.
pub fn capabilities_reply(
    alloc: Global,
    id: Id<'_>,
    version: &str,
    abilities: Abilities,
) -> Result<Vec<u8>, AllocError>
    requires { HasNumbers (id_seen id) }
    ensures { IfOk result (λ text. text.items
        ≡ json_text (result_json (id_seen id.entry) (capabilities_json version.now abilities))) }
{
    let mut writer = Writer::new(Vec::new(alloc));
    write_capabilities_reply(&mut writer, id, version, abilities)?;
    Ok(writer.into_inner())
}

/// Writes an edit: this text in place of a range.
pub(crate) fn write_edit<'a>(
    writer: &mut Writer,
    range: Range,
    text: &'a str,
) -> Result<(), AllocError>
    ensures { AddsTokens result writer.old writer.new
        (json_tokens (edit_json (in_range range text.now))) }
{
    write_parts(writer, &[JsonPart::Object, JsonPart::Key("range")])?;
    write_range(writer, range)?;
    write_parts(
        writer,
        &[JsonPart::TextAt("newText", text), JsonPart::EndObject],
    )
}

/// Writes edits of a text, their places by one walk through it.
fn write_edits(
    writer: &mut Writer,
    units: Units,
    text: &[u8],
    edits: &[TextEdit<'_>],
) -> Result<(), AllocError>
    requires small { length text.now < 2 ^ 32 }
    requires ascend { EditsAscend 0 (length text.now) (map edit_of edits.now) }
    ensures { AddsTokens result writer.old writer.new
        (edits_tokens (placed_edits units text.now (map edit_of edits.now))) }
{
    let mut walk = Walk::start();
    for edit in edits {
        let (further, range) = place_edit(walk, units, text, edit);
        write_edit(writer, range, edit.text)?;
        walk = further;
    }
    Ok(())
}

/// Writes the array of edits of a text.
fn write_array(
    writer: &mut Writer,
    units: Units,
    text: &[u8],
    edits: &[TextEdit<'_>],
) -> Result<(), AllocError>
    requires small { length text.now < 2 ^ 32 }
    requires ascend { EditsAscend 0 (length text.now) (map edit_of edits.now) }
    ensures { AddsTokens result writer.old writer.new
        (json_tokens (edits_json (placed_edits units text.now (map edit_of edits.now)))) }
{
    write_parts(writer, &[JsonPart::Array])?;
    write_edits(writer, units, text, edits)?;
    write_parts(writer, &[JsonPart::EndArray])
}

fn write_edits_reply(
    writer: &mut Writer,
    id: Id<'_>,
    units: Units,
    text: &[u8],
    edits: &[TextEdit<'_>],
) -> Result<(), AllocError>
    requires id { HasNumbers (id_seen id) }
    requires small { length text.now < 2 ^ 32 }
    requires ascend { EditsAscend 0 (length text.now) (map edit_of edits.now) }
    ensures { AddsTokens result writer.old writer.new
        (json_tokens (result_json (id_seen id.entry)
        (edits_json (placed_edits units text.now (map edit_of edits.now))))) }
{
    write_head(writer, id, "result")?;
    write_array(writer, units, text, edits)?;
    write_end(writer)
}

/// The reply whose result is these edits of a text.
pub fn edits_reply(
    alloc: Global,
    id: Id<'_>,
    units: Units,
    text: &[u8],
    edits: &[TextEdit<'_>],
) -> Result<Vec<u8>, AllocError>
    requires id { HasNumbers (id_seen id) }
    requires small { length text.now < 2 ^ 32 }
    requires ascend { EditsAscend 0 (length text.now) (map edit_of edits.now) }
    ensures { IfOk result (λ reply. reply.items
        ≡ json_text (result_json (id_seen id.entry)
        (edits_json (placed_edits units text.now (map edit_of edits.now))))) }
{
    let mut writer = Writer::new(Vec::new(alloc));
    write_edits_reply(&mut writer, id, units, text, edits)?;
    Ok(writer.into_inner())
}
