//! The forms.

/// A form for forges or editors.
#[derive(Clone, Copy)]
pub enum Form {
    /// TFLint's own JSON.
    Json,
    /// SARIF 2.1.0, for code scanning.
    Sarif,
    /// XML in the form of Checkstyle.
    Checkstyle,
    /// XML in the form of JUnit: each issue is a failed test.
    Junit,
    /// The report of GitLab's code quality.
    Gitlab,
    /// Commands for the log of a GitHub workflow.
    Github,
}
