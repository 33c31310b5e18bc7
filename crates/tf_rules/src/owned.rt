//! Issues with messages that own their texts.

ghost use Rattle.std.specs.Prelude.{◌≡◌, IfOk};
ghost use Rattle.tf_rules.specs.Answers.{listed_issue};

use crate::issue::{Issue, Message};
use crate::issue_list::IssueList;
use crate::listed_issue::ListedIssue;
use crate::message_text::message_text;
use std::alloc::{AllocError, Global};

fn owned_issue(alloc: Global, listed_issue_of: ListedIssue<'_>) -> Result<Issue, AllocError>
    ensures { IfOk result (λ issue. issue ≡ listed_issue listed_issue_of.entry) }
{
    let text = message_text(alloc, listed_issue_of.message)?;
    Ok(Issue {
        file: listed_issue_of.file,
        at: listed_issue_of.at,
        rule: listed_issue_of.rule,
        message: Message::new(text),
    })
}

/// The issues of a list, each with a message that is built for it.
pub fn owned_issues(alloc: Global, list: &IssueList<'_>) -> Result<Vec<Issue>, AllocError>
    ensures { IfOk result (λ issues. issues.items ≡ list.now) }
{
    let mut issues = Vec::with_capacity(alloc, list.len())?;
    for number in 0..list.len() {
        let issue = owned_issue(alloc, list.get(number))?;
        issues.push(issue)?;
    }
    Ok(issues)
}
