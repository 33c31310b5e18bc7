//! The frame around the issues in the form of TFLint's own JSON.

ghost use Rattle.std.specs.Prelude.{◌≡◌, IfOk, map};
ghost use Rattle.lint_forms.specs.Remarks.{said_by};
ghost use Rattle.lint_forms.specs.Forms.{tflint_foot, tflint_head};

use crate::json_part::JsonPart;
use crate::json_parts::with_parts;
use crate::remark::Remark;
use crate::shape::Shape;
use crate::values::with_remarks;
use std::alloc::{AllocError, Global};

/// The text before the issues.
pub(crate) fn head(alloc: Global) -> Result<Vec<u8>, AllocError>
    ensures { IfOk result (λ text. text.items ≡ tflint_head) }
{
    with_parts(
        Vec::new(alloc),
        &[JsonPart::Object, JsonPart::ArrayAt("issues")],
    )
}

/// The text after them: these refusals.
pub(crate) fn foot(alloc: Global, remarks: &[Remark<'_>]) -> Result<Vec<u8>, AllocError>
    ensures { IfOk result (λ text. text.items ≡ tflint_foot (map said_by remarks.now)) }
{
    let start = with_parts(
        Vec::new(alloc),
        &[JsonPart::EndArray, JsonPart::ArrayAt("errors")],
    )?;
    let longer = with_remarks(alloc, Shape::TflintError, false, start, remarks)?;
    with_parts(longer, &[JsonPart::EndArray, JsonPart::EndObject])
}
