//! Entries in a JSON array, in turn.

ghost use Rattle.std.specs.Prelude.{◌≡◌, ◌++◌, IfOk, map};
ghost use Rattle.lint_forms.specs.Inner.Shapes.{entry_text, shape_json, shape_text, shapes_text};
ghost use Rattle.lint_forms.specs.Marks.{entries};
ghost use Rattle.lint_forms.specs.Remarks.{said_by};
ghost use Rattle.lint_forms.specs.Values.{array_text, comma};

use crate::entry::{MarkedRemark, entries_of};
use crate::gitlab::with_entry;
use crate::remark::Remark;
use crate::sarif::with_result;
use crate::shape::Shape;
use crate::tflint::{with_error, with_issue};
use std::alloc::{AllocError, Global};

/// A text with an entry appended.
fn with_value(
    alloc: Global,
    shape: Shape,
    text: Vec<u8>,
    entry: &MarkedRemark<'_>,
) -> Result<Vec<u8>, AllocError>
    ensures { IfOk result (λ l. l.items ≡ text.items ++ entry_text shape entry.now) }
{
    match shape {
        Shape::TflintIssue => with_issue(text, entry.said),
        Shape::TflintError => with_error(text, entry.said),
        Shape::SarifResult => with_result(alloc, text, entry),
        Shape::GitlabEntry => with_entry(text, entry),
    }
}

/// A text, with a comma appended if another value comes before the next one.
fn with_comma(is_after: bool, mut text: Vec<u8>) -> Result<Vec<u8>, AllocError>
    ensures { IfOk result (λ longer. longer.items ≡ text.items ++ comma is_after) }
{
    if is_after {
        text.push(b',')?;
    }
    Ok(text)
}

/// A text with an entry appended, after a comma if it follows another value.
fn with_next(
    alloc: Global,
    shape: Shape,
    is_after: bool,
    text: Vec<u8>,
    entry: &MarkedRemark<'_>,
) -> Result<Vec<u8>, AllocError>
    ensures { IfOk result (λ l. l.items ≡ text.items ++ shape_text shape is_after entry.now) }
{
    let longer = with_comma(is_after, text)?;
    with_value(alloc, shape, longer, entry)
}

/// A text with these entries appended, after a comma if the first follows another value.
fn with_values(
    alloc: Global,
    shape: Shape,
    is_after: bool,
    text: Vec<u8>,
    entries: &[MarkedRemark<'_>],
) -> Result<Vec<u8>, AllocError>
    ensures { IfOk result (λ l. l.items ≡ text.items ++ shapes_text shape is_after entries.now) }
{
    let mut longer = text;
    let mut goes_on = is_after;
    for entry in entries {
        longer = with_next(alloc, shape, goes_on, longer, entry)?;
        goes_on = true;
    }
    Ok(longer)
}

/// A text with these remarks appended in this shape, after a comma if the first follows another value.
pub(crate) fn with_remarks(
    alloc: Global,
    shape: Shape,
    is_after: bool,
    text: Vec<u8>,
    remarks: &[Remark<'_>],
) -> Result<Vec<u8>, AllocError>
    ensures { IfOk result (λ l. l.items ≡ text.items
        ++ array_text is_after (map (shape_json shape) (entries (map said_by remarks.now)))) }
{
    let all = entries_of(alloc, remarks)?;
    with_values(alloc, shape, is_after, text, all.as_slice())
}
