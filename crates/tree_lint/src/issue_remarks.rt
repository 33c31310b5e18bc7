//! The issues and the comments of a module, as remarks.

ghost use Rattle.std.specs.Prelude.{◌≡◌, ◌++◌, [], IfOk, OnOk, Some, get_or, map, string_bytes};
ghost use Rattle.tree_lint.specs.CommentFaults.{fault_view};
ghost use Rattle.lint_forms.specs.Remarks.{said_by};
ghost use Rattle.tree_lint.specs.Inner.Showing.{linted_view};
ghost use Rattle.tree_lint.specs.Runs.{comment_remark, issue_remark, remarks_by};
ghost use Rattle.lint_forms.specs.Forms.{module_text};

use crate::comment_fault::CommentFault;
use crate::linted::Linted;
use lint_forms::form::module_text;
use lint_forms::{Form, Remark, Subject};
use std::alloc::{AllocError, Global};
use tf_rules::{Issue, owned_issues};

/// The name of this number.
pub(crate) fn name_of(names: &[String], number: u32) -> &str
    ensures { result.now ≡ get_or (map string_bytes names.now) number [] }
{
    match names.get(number as usize) {
        Some(name) => name.as_str(),
        None => "",
    }
}

fn remark_of<'a>(names: &'a [String], issue: &'a Issue) -> Remark<'a>
    ensures { said_by result ≡ issue_remark (map string_bytes names.entry.now) issue.entry.now }
{
    Remark {
        file: name_of(names, issue.file),
        line: issue.at.line,
        column: issue.at.column,
        subject: Subject::Rule(issue.rule),
        text: issue.message.as_str(),
    }
}

fn remarks_of<'a>(
    alloc: Global,
    names: &'a [String],
    issues: &'a [Issue],
) -> Result<Vec<Remark<'a>>, AllocError>
    ensures { IfOk result (λ all. map said_by all.items
        ≡ map (issue_remark (map string_bytes names.entry.now)) issues.entry.now) }
{
    let mut all = Vec::with_capacity(alloc, issues.len())?;
    for issue in issues {
        all.push(remark_of(names, issue))?;
    }
    Ok(all)
}

fn comment_remark<'a>(names: &'a [String], fault: &'a CommentFault) -> Remark<'a>
    ensures { said_by result
        ≡ comment_remark (map string_bytes names.entry.now) (fault_view fault.entry.now) }
{
    Remark {
        file: name_of(names, fault.file),
        line: fault.at.line,
        column: fault.at.column,
        subject: Subject::Comment,
        text: fault.text.as_str(),
    }
}

/// Adds the remarks about comments.
fn add_comments<'a>(
    names: &'a [String],
    comments: &'a [CommentFault],
    all: &mut Vec<Remark<'a>>,
) -> Result<(), AllocError>
    ensures { OnOk result (map said_by all.new.items ≡ map said_by all.old.items
        ++ map (λ f. comment_remark (map string_bytes names.entry.now) (fault_view f))
        comments.entry.now) }
{
    for fault in comments {
        all.push(comment_remark(names, fault))?;
    }
    Ok(())
}

/// The remarks of linted files with these names, in a form, after the outputs of others or as the first.
pub(crate) fn linted_text(
    alloc: Global,
    form: Form,
    is_after: bool,
    names: &[String],
    linted: Linted<'_, '_>,
) -> Result<Vec<u8>, AllocError>
    ensures { IfOk result (λ text. text.items ≡ module_text form is_after
        (remarks_by (map string_bytes names.now) (linted_view linted.entry))) }
{
    let owned = owned_issues(alloc, linted.issues)?;
    let mut remarks = remarks_of(alloc, names, owned.as_slice())?;
    add_comments(names, linted.comments, &mut remarks)?;
    module_text(alloc, form, is_after, remarks.as_slice())
}
