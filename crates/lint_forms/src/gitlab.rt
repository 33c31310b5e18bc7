//! The report of GitLab's code quality.

ghost use Rattle.std.specs.Prelude.{◌≡◌, ◌++◌, ◌∷◌, [], IfOk};
ghost use Rattle.json.specs.Print.{print};
ghost use Rattle.json.specs.Token.{begin_array, end_array};
ghost use Rattle.lint_forms.specs.Gitlab.{quality_json};
ghost use Rattle.lint_forms.specs.Inner.Shapes.{entry_by};
ghost use Rattle.lint_forms.specs.JsonValues.{json_text};

use crate::entry::MarkedRemark;
use crate::json_part::JsonPart;
use crate::json_parts::with_parts;
use crate::words::{quality_word, rule_id};
use std::alloc::{AllocError, Global};

/// A text with an entry appended.
pub(crate) fn with_entry(text: Vec<u8>, entry: &MarkedRemark<'_>) -> Result<Vec<u8>, AllocError>
    ensures { IfOk result (λ l. l.items
        ≡ text.items ++ json_text (quality_json (entry_by entry.now))) }
{
    let name = rule_id(entry.said.subject);
    let severity = quality_word(entry.said.subject);
    let mark = entry.mark.as_str();
    with_parts(
        text,
        &[
            JsonPart::Object,
            JsonPart::TextAt("description", entry.said.text),
            JsonPart::TextAt("check_name", name),
            JsonPart::TextAt("fingerprint", mark),
            JsonPart::TextAt("severity", severity),
            JsonPart::ObjectAt("location"),
            JsonPart::TextAt("path", entry.said.file),
            JsonPart::ObjectAt("lines"),
            JsonPart::NumberAt("begin", entry.said.line as u64),
            JsonPart::EndObject,
            JsonPart::EndObject,
            JsonPart::EndObject,
        ],
    )
}

/// The text before the entries.
pub(crate) fn head(alloc: Global) -> Result<Vec<u8>, AllocError>
    ensures { IfOk result (λ text. text.items ≡ print (begin_array ∷ [])) }
{
    with_parts(Vec::new(alloc), &[JsonPart::Array])
}

/// A text with the end of the form appended.
pub(crate) fn with_foot(text: Vec<u8>) -> Result<Vec<u8>, AllocError>
    ensures { IfOk result (λ l. l.items ≡ text.items ++ print (end_array ∷ [])) }
{
    with_parts(text, &[JsonPart::EndArray])
}
