//! What each rule reports, and why: in the words of `docs/RULES.md`.

ghost use Rattle.std.specs.Prelude.{◌≡◌};
ghost use Rattle.lint_forms.specs.RuleTexts.{reason, reports};

use rule_set::Rule;

/// The reports of a rule, as the end of a sentence.
pub fn reports(rule: Rule) -> &'static str
    ensures { result.now ≡ reports rule }
{
    match rule {
        Rule::CommentSyntax => "comments that begin with `//`",
        Rule::DeprecatedIndex => "`list.0` instead of `list[0]`",
        Rule::DeprecatedInterpolation => "`\"${var.name}\"` instead of `var.name`",
        Rule::DocumentedOutputs => "outputs without a description",
        Rule::DocumentedVariables => "variables without a description",
        Rule::ModulePinnedSource => "modules from git or Mercurial at no fixed revision",
        Rule::ModuleVersion => "modules from a registry without a version",
        Rule::NamingConvention => "names that don't follow the naming",
        Rule::TypedVariables => "variables without a type",
        Rule::UnusedDeclarations => "variables, locals and data sources that nothing refers to",
    }
}

/// Why a rule reports them.
pub fn reason(rule: Rule) -> &'static str
    ensures { result.now ≡ reason rule }
{
    match rule {
        Rule::CommentSyntax =>
            "Both marks mean the same; using only one is easier to read, and Terraform's own style guide asks for `#`.",
        Rule::DeprecatedIndex =>
            "This is how an element of a list was written before Terraform 0.12; `terraform fmt` leaves it, and readers take it for a name.",
        Rule::DeprecatedInterpolation =>
            "Since Terraform 0.12 an expression needs no quotes around it; the quotes make a reader believe that the value is a text.",
        Rule::DocumentedOutputs =>
            "Users of a module see its outputs in the registry and in plans, and have only the description to understand them.",
        Rule::DocumentedVariables =>
            "Callers of a module see its variables by name and description.",
        Rule::ModulePinnedSource =>
            "What is fetched changes although the configuration doesn't: plans of today and tomorrow differ for no reason that the repository shows.",
        Rule::ModuleVersion =>
            "Without a version each `terraform init` takes the newest, whatever that breaks.",
        Rule::NamingConvention =>
            "With one naming throughout, a reader of a reference need not wonder how its name is written.",
        Rule::TypedVariables =>
            "Without a type any value is accepted, and a wrong one fails far from where it was set.",
        Rule::UnusedDeclarations =>
            "What nothing refers to can be removed, and a data source that nothing refers to is still read in each plan.",
    }
}
