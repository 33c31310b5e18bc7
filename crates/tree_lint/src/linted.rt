//! The result for a linted module.

ghost use Rattle.std.specs.Prelude.{◌≡◌, Ok, Some};
ghost use Rattle.tree_lint.specs.Runs.{has_output, verdict_status};
ghost use Rattle.tree_lint.specs.Inner.Showing.{is_nothing, linted_view};
ghost use Rattle.tfrules_command.specs.Report.{status};
ghost use Rattle.tree_lint.specs.Runs.{failing_under};

use crate::comment_fault::CommentFault;
use hcl_scan::Source;
use lint_forms::Form;
use module_find::Policy;
use tf_rules::IssueList;
use tfrules_command::report::has_severe;

/// The result for a linted module.
#[derive(Clone, Copy)]
pub(crate) struct Linted<'a, 'f> {
    pub issues: &'a IssueList<'f>,
    /// The comments that are meant to silence a rule and don't, if they are checked.
    pub comments: &'a [CommentFault],
    /// The texts of the files, if lines of them are shown.
    pub texts: &'a [Source],
}

/// The status of a module with these issues.
fn status_of(policy: Policy, issues: &IssueList<'_>) -> u8
    ensures { result ≡ status (failing_under policy) issues.now }
{
    if !policy.force && has_severe(policy.minimum, issues) {
        return 2;
    }
    0
}

impl<'a, 'f> Linted<'a, 'f> {
    /// Whether nothing is found.
    pub(crate) fn is_nothing(self) -> bool
        ensures { result ≡ is_nothing (linted_view self.entry) }
    {
        self.issues.is_empty() && self.comments.is_empty()
    }

    /// Whether any of it goes to standard output.
    pub(crate) fn has_output(self, form: Option<Form>) -> bool
        ensures { result ≡ has_output form (linted_view self.entry) }
    {
        match form {
            Some(_) => !self.issues.is_empty() || !self.comments.is_empty(),
            None => !self.issues.is_empty(),
        }
    }

    /// The status of the module.
    pub(crate) fn status(self, policy: Policy) -> u8
        ensures { result ≡ verdict_status policy (Ok (linted_view self.entry)) }
    {
        if !policy.force && !self.comments.is_empty() {
            return 2;
        }
        status_of(policy, self.issues)
    }
}
