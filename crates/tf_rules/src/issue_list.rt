//! The issues of a module, as a list.

ghost use Rattle.std.specs.Prelude.{◌≡◌, ◌<◌, ◌==◌, length, map, slice_get, Some};
ghost use Rattle.tf_rules.specs.Answers.{listed_issue};
ghost use Rattle.tf_rules.specs.Inner.Entries.{shown_of};

use crate::entry::IssueEntry;
use crate::listed_issue::ListedIssue;
use crate::statement::message_parts;
use std::marker::Model;

/// The entry of this number.
fn entry_at<'f>(entries: &[IssueEntry<'f>], i: usize) -> IssueEntry<'f>
    requires { i < length entries.now }
    ensures { slice_get entries.now i ≡ Some result }
{
    entries[i]
}

/// An entry as a list gives it.
#[inline(always)]
fn listed_issue_of<'f>(entry: IssueEntry<'f>) -> ListedIssue<'f>
    ensures { listed_issue result ≡ shown_of entry.entry }
{
    ListedIssue {
        file: entry.at.file,
        at: entry.at.at,
        rule: entry.rule,
        message: message_parts(entry.statement),
    }
}

/// The issues of a module in order. Their messages are in parts, which are texts of the stored facts.
#[derive(Drop)]
pub struct IssueList<'f> {
    entries: Vec<IssueEntry<'f>>,
}

impl<'f> Model for IssueList<'f> {
    ghost use Rattle.std.specs.Prelude.{List, map};
    ghost use Rattle.tf_rules.specs.declared.issue.Issue.{Issue};
    ghost use Rattle.tf_rules.specs.Inner.Entries.{shown_of};

    ghost Value = { List Issue };

    ghost view = { λ l. map shown_of l.entries.items };
}

impl<'f> IssueList<'f> {
    /// The issues of these entries.
    pub(crate) fn new(entries: Vec<IssueEntry<'f>>) -> IssueList<'f>
        ensures { result ≡ map shown_of entries.entry.items }
    {
        IssueList { entries }
    }

    /// How many issues there are.
    pub fn len(&self) -> usize
        ensures { result ≡ length self.now }
    {
        self.entries.len()
    }

    /// Whether there is no issue.
    pub fn is_empty(&self) -> bool
        ensures { result ≡ (length self.now == 0) }
    {
        self.entries.is_empty()
    }

    /// The issue of this number.
    #[inline(always)]
    pub fn get(&self, i: usize) -> ListedIssue<'f>
        requires { i < length self.now }
        ensures { slice_get self.now i ≡ Some (listed_issue result) }
    {
        listed_issue_of(entry_at(&self.entries, i))
    }
}
