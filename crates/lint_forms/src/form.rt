//! The forms, and their parts.

ghost use Rattle.std.specs.Prelude.{◌≡◌, ◌++◌, IfOk, map};
ghost use Rattle.lint_forms.specs.Forms.{form_foot, form_head, module_text};
ghost use Rattle.lint_forms.specs.Inner.Shapes.{shape_json};
ghost use Rattle.lint_forms.specs.Marks.{entries};
ghost use Rattle.lint_forms.specs.Remarks.{said_by};
ghost use Rattle.lint_forms.specs.Values.{array_text};

use crate::kind::Form;
use crate::lines::module_lines;
use crate::remark::Remark;
use crate::shape::Shape;
use crate::values::with_remarks;
use crate::xml::{last_suite, module_files, suite};
use crate::{gitlab, sarif, tflint_frame};
use std::alloc::{AllocError, Global};

static CHECKSTYLE_HEAD: &str =
    "<?xml version=\"1.0\" encoding=\"UTF-8\"?>\n<checkstyle version=\"4.3\">\n";

static JUNIT_HEAD: &str = "<?xml version=\"1.0\" encoding=\"UTF-8\"?>\n<testsuites>\n";

/// The bytes of a text.
fn bytes_of(alloc: Global, text: &str) -> Result<Vec<u8>, AllocError>
    ensures { IfOk result (λ bytes. bytes.items ≡ text.now) }
{
    let mut bytes = Vec::new(alloc);
    bytes.extend_from_slice(text.as_bytes())?;
    Ok(bytes)
}

/// The text before all modules, in the form of this version of the program.
pub fn head(alloc: Global, form: Form, version: &str) -> Result<Vec<u8>, AllocError>
    ensures { IfOk result (λ text. text.items ≡ form_head form version.now) }
{
    match form {
        Form::Json => tflint_frame::head(alloc),
        Form::Sarif => sarif::head(alloc, version),
        Form::Checkstyle => bytes_of(alloc, CHECKSTYLE_HEAD),
        Form::Junit => bytes_of(alloc, JUNIT_HEAD),
        Form::Gitlab => gitlab::head(alloc),
        Form::Github => Ok(Vec::new(alloc)),
    }
}

/// Remarks in this shape, in a JSON array.
fn values_of(
    alloc: Global,
    shape: Shape,
    is_after: bool,
    remarks: &[Remark<'_>],
) -> Result<Vec<u8>, AllocError>
    ensures { IfOk result (λ l. l.items
        ≡ array_text is_after (map (shape_json shape) (entries (map said_by remarks.now)))) }
{
    with_remarks(alloc, shape, is_after, Vec::new(alloc), remarks)
}

/// The issues of a module, after those of others or as the first.
pub fn module_text(
    alloc: Global,
    form: Form,
    is_after: bool,
    remarks: &[Remark<'_>],
) -> Result<Vec<u8>, AllocError>
    ensures { IfOk result (λ l. l.items
        ≡ module_text form is_after (map said_by remarks.now)) }
{
    match form {
        Form::Json => values_of(alloc, Shape::TflintIssue, is_after, remarks),
        Form::Sarif => values_of(alloc, Shape::SarifResult, is_after, remarks),
        Form::Checkstyle => module_files(alloc, remarks),
        Form::Junit => suite(alloc, remarks),
        Form::Gitlab => values_of(alloc, Shape::GitlabEntry, is_after, remarks),
        Form::Github => module_lines(alloc, remarks),
    }
}

/// A text with these bytes appended.
fn with_end(text: Vec<u8>, end: &str) -> Result<Vec<u8>, AllocError>
    ensures { IfOk result (λ l. l.items ≡ text.items ++ end.now) }
{
    let mut longer = text;
    longer.extend_from_slice(end.as_bytes())?;
    Ok(longer)
}

/// The text after all modules, in a run of this status: these refusals, after issues or without any, and the end.
pub fn foot(
    alloc: Global,
    form: Form,
    status: u8,
    is_after: bool,
    refusals: &[Remark<'_>],
) -> Result<Vec<u8>, AllocError>
    ensures { IfOk result (λ text. text.items
        ≡ form_foot form status is_after (map said_by refusals.now)) }
{
    match form {
        Form::Json => tflint_frame::foot(alloc, refusals),
        Form::Sarif => sarif::with_foot(
            values_of(alloc, Shape::SarifResult, is_after, refusals)?,
            status,
        ),
        Form::Checkstyle => with_end(module_files(alloc, refusals)?, "</checkstyle>\n"),
        Form::Junit => with_end(last_suite(alloc, is_after, refusals)?, "</testsuites>\n"),
        Form::Gitlab => {
            gitlab::with_foot(values_of(alloc, Shape::GitlabEntry, is_after, refusals)?)
        }
        Form::Github => module_lines(alloc, refusals),
    }
}
