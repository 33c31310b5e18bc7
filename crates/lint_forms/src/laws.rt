//! Laws of the definitions alone. No program calls these functions: their contracts are the laws.

ghost use Rattle.lint_forms.specs.Laws.{GitlabReadsBack, SarifReadsBack, TflintReadsBack};

/// The output in TFLint's form is, by the rules of JSON, the document of all issues and refusals, in order.
pub fn tflint_reads_back()
    ensures { TflintReadsBack }
{}

/// The output as SARIF is the document of all results, in order.
pub fn sarif_reads_back()
    ensures { SarifReadsBack }
{}

/// The output for GitLab is the document of all entries, in order.
pub fn gitlab_reads_back()
    ensures { GitlabReadsBack }
{}
