//! JSON, written part by part.

ghost use Rattle.std.specs.Prelude.{◌≡◌, ◌++◌, IfOk, flat_map};
ghost use Rattle.json.specs.Print.{print};
ghost use Rattle.lint_forms.specs.AddsTokens.{AddsTokens};
ghost use Rattle.lint_forms.specs.JsonParts.{part_tokens};

use crate::json_part::JsonPart;
use json::Writer;
use std::alloc::AllocError;

fn write_part(writer: &mut Writer, part: JsonPart<'_>) -> Result<(), AllocError>
    ensures { AddsTokens result writer.old writer.new (part_tokens part.entry) }
{
    match part {
        JsonPart::Object => writer.begin_object(),
        JsonPart::EndObject => writer.end_object(),
        JsonPart::Array => writer.begin_array(),
        JsonPart::EndArray => writer.end_array(),
        JsonPart::Key(key) => writer.key(key),
        JsonPart::ObjectAt(key) => {
            writer.key(key)?;
            writer.begin_object()
        }
        JsonPart::ArrayAt(key) => {
            writer.key(key)?;
            writer.begin_array()
        }
        JsonPart::TextAt(key, text) => {
            writer.key(key)?;
            writer.string(text)
        }
        JsonPart::NumberAt(key, number) => {
            writer.key(key)?;
            writer.u64(number)
        }
        JsonPart::FlagAt(key, flag) => {
            writer.key(key)?;
            writer.boolean(flag)
        }
    }
}

/// Writes parts.
pub fn write_parts(writer: &mut Writer, parts: &[JsonPart<'_>]) -> Result<(), AllocError>
    ensures { AddsTokens result writer.old writer.new (flat_map part_tokens parts.now) }
{
    for part in parts {
        write_part(writer, *part)?;
    }
    Ok(())
}

/// A text with these parts appended.
pub(crate) fn with_parts(text: Vec<u8>, parts: &[JsonPart<'_>]) -> Result<Vec<u8>, AllocError>
    ensures { IfOk result (λ l. l.items ≡ text.items ++ print (flat_map part_tokens parts.now)) }
{
    let mut writer = Writer::new(text);
    write_parts(&mut writer, parts)?;
    Ok(writer.into_inner())
}
