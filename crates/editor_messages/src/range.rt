//! Ranges of a document.

ghost use Rattle.json.specs.Tree.{json_tokens};
ghost use Rattle.lint_forms.specs.AddsTokens.{AddsTokens};
ghost use Rattle.editor_messages.specs.Replies.{range_json};

use json::Writer;
use lint_forms::{JsonPart, write_parts};
use std::alloc::AllocError;
use text_places::Range;

/// Ranges of the document that has this URI, and its version if one is known.
#[derive(Drop)]
pub struct DocumentRanges {
    pub uri: String,
    pub version: Option<u64>,
    pub ranges: Vec<Range>,
}

pub(crate) fn write_range(writer: &mut Writer, range: Range) -> Result<(), AllocError>
    ensures { AddsTokens result writer.old writer.new
        (json_tokens (range_json range.start range.end)) }
{
    write_parts(
        writer,
        &[
            JsonPart::Object,
            JsonPart::ObjectAt("start"),
            JsonPart::NumberAt("line", range.start.line as u64),
            JsonPart::NumberAt("character", range.start.character as u64),
            JsonPart::EndObject,
            JsonPart::ObjectAt("end"),
            JsonPart::NumberAt("line", range.end.line as u64),
            JsonPart::NumberAt("character", range.end.character as u64),
            JsonPart::EndObject,
            JsonPart::EndObject,
        ],
    )
}
