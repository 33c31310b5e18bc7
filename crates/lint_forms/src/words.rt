//! The words of the forms for a remark's subject, and for its severity.

ghost use Rattle.std.specs.Prelude.{◌≡◌};
ghost use Rattle.lint_forms.specs.Words.{is_issue, level_word, quality_word, rule_id, severity_of, severity_word};

use crate::subject::Subject;
use rule_set::Severity;

/// Whether a remark on it is among the issues, and not among the refusals.
pub(crate) fn is_issue(subject: Subject) -> bool
    ensures { result ≡ is_issue subject }
{
    match subject {
        Subject::Rule(_) | Subject::Comment => true,
        Subject::Refusal => false,
    }
}

/// The name of the rule, or of its substitute.
pub(crate) fn rule_id(subject: Subject) -> &'static str
    ensures { result.now ≡ rule_id subject }
{
    match subject {
        Subject::Rule(rule) => rule.name(),
        Subject::Comment => "silencing_comment",
        Subject::Refusal => "refused_file",
    }
}

/// The severity of a remark on it.
pub(crate) fn severity_of(subject: Subject) -> Severity
    ensures { result ≡ severity_of subject }
{
    match subject {
        Subject::Rule(rule) => rule.severity(),
        Subject::Comment | Subject::Refusal => Severity::Error,
    }
}

/// The word of TFLint and of Checkstyle for the severity.
pub(crate) fn severity_word(subject: Subject) -> &'static str
    ensures { result.now ≡ severity_word subject }
{
    match severity_of(subject) {
        Severity::Notice => "info",
        Severity::Warning => "warning",
        Severity::Error => "error",
    }
}

/// SARIF's word for it.
pub(crate) fn level_word(subject: Subject) -> &'static str
    ensures { result.now ≡ level_word subject }
{
    match severity_of(subject) {
        Severity::Notice => "note",
        Severity::Warning => "warning",
        Severity::Error => "error",
    }
}

/// The word of GitLab's code quality for it.
pub(crate) fn quality_word(subject: Subject) -> &'static str
    ensures { result.now ≡ quality_word subject }
{
    match severity_of(subject) {
        Severity::Notice => "info",
        Severity::Warning => "minor",
        Severity::Error => "major",
    }
}
