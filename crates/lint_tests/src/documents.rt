//! Whole documents of forms, and their comparison, proved once.

use crate::checks::holds;
use crate::form_rows::Module;
use lint_forms::form::{foot, head, module_text};
use lint_forms::{Form, Remark};
use std::alloc::{AllocError, Global};
use std::process::Abort;

/// The document of the issues of modules and of refusals in a form, as a run writes it.
pub fn document(
    alloc: Global,
    form: Form,
    status: u8,
    modules: &[Module],
    refusals: &[Remark<'static>],
) -> Result<Vec<u8>, AllocError> {
    let mut text = head(alloc, form, "1.2.3")?;
    let mut is_after = false;
    for issues in modules {
        let more = module_text(alloc, form, is_after, issues)?;
        text.extend_from_slice(more.as_slice())?;
        is_after = is_after || !issues.is_empty();
    }
    let last = foot(alloc, form, status, is_after, refusals)?;
    text.extend_from_slice(last.as_slice())?;
    Ok(text)
}

/// Checks that there is a text, and that it is this one.
pub fn same_text(rt: &impl Abort, found: Result<Vec<u8>, AllocError>, wanted: &str) {
    let is_same = match found {
        Ok(found) => found.as_slice() == wanted.as_bytes(),
        Err(_) => false,
    };
    holds(rt, is_same, "the text", wanted);
}
