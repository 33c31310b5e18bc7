//! The reply with the symbols of a document.

ghost use Rattle.std.specs.Prelude.{◌≡◌, IfOk, OnOk, length, map, reverse};
ghost use Rattle.json.specs.Tree.{HasNumbers, items_tokens, json_tokens};
ghost use Rattle.lint_forms.specs.AddsTokens.{AddsTokens};
ghost use Rattle.lint_forms.specs.JsonValues.{json_text};
ghost use Rattle.text_outline.specs.Views.{symbol_seen};
ghost use Rattle.editor_messages.specs.Inner.Nesting.{ends, levels_left, name_tokens, symbol_front};
ghost use Rattle.editor_messages.specs.Outlines.{nested_items, symbol_number, symbols_json};
ghost use Rattle.editor_messages.specs.Replies.{result_json};
ghost use Rattle.editor_messages.specs.Views.{id_seen};

use crate::message::Id;
use crate::range::write_range;
use crate::reply::{write_end, write_head};
use json::Writer;
use lint_forms::{JsonPart, write_parts};
use std::alloc::{AllocError, Global};
use text_outline::{Symbol, SymbolKind};

/// The protocol's number for what a symbol is.
fn symbol_number(kind: SymbolKind) -> u64
    ensures { result ≡ symbol_number kind }
{
    match kind {
        SymbolKind::Block => 5,
        SymbolKind::Attribute => 7,
    }
}

/// Writes the name of a symbol and what it is.
fn write_name(writer: &mut Writer, name: &str, number: u64) -> Result<(), AllocError>
    ensures { AddsTokens result writer.old writer.new (name_tokens name.now number) }
{
    write_parts(
        writer,
        &[
            JsonPart::Object,
            JsonPart::TextAt("name", name),
            JsonPart::NumberAt("kind", number),
            JsonPart::Key("range"),
        ],
    )
}

/// Writes a symbol up to its children.
fn write_front(writer: &mut Writer, symbol: &Symbol) -> Result<(), AllocError>
    ensures { AddsTokens result writer.old writer.new (symbol_front (symbol_seen symbol.now)) }
{
    let name = symbol.name.as_str();
    let number = symbol_number(symbol.kind);
    write_name(writer, name, number)?;
    write_range(writer, symbol.range)?;
    write_parts(writer, &[JsonPart::Key("selectionRange")])?;
    write_range(writer, symbol.selection)?;
    write_parts(writer, &[JsonPart::ArrayAt("children")])
}

/// Ends the open symbols to which one of this level is no child. Their levels are stored, the innermost last.
fn write_ends(writer: &mut Writer, levels: &mut Vec<usize>, level: usize) -> Result<(), AllocError>
    ensures tokens { AddsTokens result writer.old writer.new
        (ends level (reverse levels.old.items)) }
    ensures left { OnOk result
        (reverse levels.new.items ≡ levels_left level (reverse levels.old.items)) }
{
    while let Some(last) = levels.last() {
        if *last < level {
            return Ok(());
        }
        write_parts(writer, &[JsonPart::EndArray, JsonPart::EndObject])?;
        levels.pop();
    }
    Ok(())
}

/// Writes symbols, each with its children, and the end of their array.
fn write_symbols(alloc: Global, writer: &mut Writer, symbols: &[Symbol]) -> Result<(), AllocError>
    ensures { AddsTokens result writer.old writer.new
        (items_tokens (nested_items (length symbols.now) (map symbol_seen symbols.now))) }
{
    let mut levels = Vec::new(alloc);
    for symbol in symbols {
        write_ends(writer, &mut levels, symbol.level)?;
        write_front(writer, symbol)?;
        levels.push(symbol.level)?;
    }
    write_ends(writer, &mut levels, 0)?;
    write_parts(writer, &[JsonPart::EndArray])
}

/// Writes the array of symbols.
fn write_array(alloc: Global, writer: &mut Writer, symbols: &[Symbol]) -> Result<(), AllocError>
    ensures { AddsTokens result writer.old writer.new
        (json_tokens (symbols_json (map symbol_seen symbols.now))) }
{
    write_parts(writer, &[JsonPart::Array])?;
    write_symbols(alloc, writer, symbols)
}

fn write_symbols_reply(
    alloc: Global,
    writer: &mut Writer,
    id: Id<'_>,
    symbols: &[Symbol],
) -> Result<(), AllocError>
    requires { HasNumbers (id_seen id) }
    ensures { AddsTokens result writer.old writer.new
        (json_tokens (result_json (id_seen id.entry)
        (symbols_json (map symbol_seen symbols.now)))) }
{
    write_head(writer, id, "result")?;
    write_array(alloc, writer, symbols)?;
    write_end(writer)
}

/// The reply whose result is these symbols, nested by their levels (Language Server Protocol 3.17, "Document Symbols
/// Request"). An error means that memory ran out.
pub fn symbols_reply(alloc: Global, id: Id<'_>, symbols: &[Symbol]) -> Result<Vec<u8>, AllocError>
    requires { HasNumbers (id_seen id) }
    ensures { IfOk result (λ reply. reply.items
        ≡ json_text (result_json (id_seen id.entry)
        (symbols_json (map symbol_seen symbols.now)))) }
{
    let mut writer = Writer::new(Vec::new(alloc));
    write_symbols_reply(alloc, &mut writer, id, symbols)?;
    Ok(writer.into_inner())
}
