//! The form of TFLint's own JSON.

ghost use Rattle.std.specs.Prelude.{◌≡◌, ◌++◌, IfOk};
ghost use Rattle.lint_forms.specs.Remarks.{said_by};
ghost use Rattle.lint_forms.specs.Tflint.{error_json, issue_json};
ghost use Rattle.lint_forms.specs.JsonValues.{json_text};

use crate::json_part::JsonPart;
use crate::json_parts::with_parts;
use crate::remark::Remark;
use crate::words::{rule_id, severity_word};
use std::alloc::AllocError;

/// A text with an issue appended.
pub(crate) fn with_issue(text: Vec<u8>, remark: Remark<'_>) -> Result<Vec<u8>, AllocError>
    ensures { IfOk result (λ l. l.items
        ≡ text.items ++ json_text (issue_json (said_by remark.entry))) }
{
    let name = rule_id(remark.subject);
    let severity = severity_word(remark.subject);
    with_parts(
        text,
        &[
            JsonPart::Object,
            JsonPart::ObjectAt("rule"),
            JsonPart::TextAt("name", name),
            JsonPart::TextAt("severity", severity),
            JsonPart::TextAt("link", ""),
            JsonPart::EndObject,
            JsonPart::TextAt("message", remark.text),
            JsonPart::ObjectAt("range"),
            JsonPart::TextAt("filename", remark.file),
            JsonPart::ObjectAt("start"),
            JsonPart::NumberAt("line", remark.line as u64),
            JsonPart::NumberAt("column", remark.column as u64),
            JsonPart::EndObject,
            JsonPart::ObjectAt("end"),
            JsonPart::NumberAt("line", remark.line as u64),
            JsonPart::NumberAt("column", remark.column as u64),
            JsonPart::EndObject,
            JsonPart::EndObject,
            JsonPart::ArrayAt("callers"),
            JsonPart::EndArray,
            JsonPart::EndObject,
        ],
    )
}

/// A text with the reason appended why a file is refused.
pub(crate) fn with_error(text: Vec<u8>, remark: Remark<'_>) -> Result<Vec<u8>, AllocError>
    ensures { IfOk result (λ l. l.items
        ≡ text.items ++ json_text (error_json (said_by remark.entry))) }
{
    with_parts(
        text,
        &[
            JsonPart::Object,
            JsonPart::TextAt("message", remark.text),
            JsonPart::TextAt("severity", "error"),
            JsonPart::ObjectAt("range"),
            JsonPart::TextAt("filename", remark.file),
            JsonPart::ObjectAt("start"),
            JsonPart::NumberAt("line", remark.line as u64),
            JsonPart::NumberAt("column", remark.column as u64),
            JsonPart::EndObject,
            JsonPart::ObjectAt("end"),
            JsonPart::NumberAt("line", remark.line as u64),
            JsonPart::NumberAt("column", remark.column as u64),
            JsonPart::EndObject,
            JsonPart::EndObject,
            JsonPart::EndObject,
        ],
    )
}
