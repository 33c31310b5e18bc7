//! The rules, their names, and the severity of their issues.

ghost use Rattle.std.specs.Prelude.{◌≡◌, ◌<◌, MatchOption, find, None};
ghost use Rattle.std.specs.Str.{bytes_eq};
ghost use Rattle.rule_set.specs.Rules.{all_rules, rank, rule_name, severity, severity_text};

/// A rule. The variants are in the order of the names.
#[derive(Clone, Copy, Debug, PartialEq, Eq)]
pub enum Rule {
    CommentSyntax,
    DeprecatedIndex,
    DeprecatedInterpolation,
    DocumentedOutputs,
    DocumentedVariables,
    ModulePinnedSource,
    ModuleVersion,
    NamingConvention,
    TypedVariables,
    UnusedDeclarations,
}

/// All rules, in the order of their names.
pub const ALL_RULES: [Rule; 10] = [
    Rule::CommentSyntax,
    Rule::DeprecatedIndex,
    Rule::DeprecatedInterpolation,
    Rule::DocumentedOutputs,
    Rule::DocumentedVariables,
    Rule::ModulePinnedSource,
    Rule::ModuleVersion,
    Rule::NamingConvention,
    Rule::TypedVariables,
    Rule::UnusedDeclarations,
];

/// How much an issue matters, in rising order.
#[derive(Clone, Copy, Debug, PartialEq, Eq, PartialOrd, Ord)]
pub enum Severity {
    Notice,
    Warning,
    Error,
}

impl Severity {
    /// Its word in a report.
    pub fn text(self) -> &'static str
        ensures { result.now ≡ severity_text self }
    {
        match self {
            Severity::Notice => "Notice",
            Severity::Warning => "Warning",
            Severity::Error => "Error",
        }
    }
}

fn equals(text: &[u8], other: &[u8]) -> bool
    ensures { result ≡ bytes_eq text.now other.now }
{
    text == other
}

/// The first of these rules that has this name.
pub fn rule_named(rules: &[Rule], name: &[u8]) -> Option<Rule>
    ensures { result ≡ find (λ rule. bytes_eq (rule_name rule) name.now) rules.now }
{
    rules
        .iter()
        .copied()
        .find(|rule| equals(rule.name().as_bytes(), name))
}

impl Rule {
    /// The name by which users ask for the rule.
    pub fn name(self) -> &'static str
        ensures { result.now ≡ rule_name self }
    {
        match self {
            Rule::CommentSyntax => "terraform_comment_syntax",
            Rule::DeprecatedIndex => "terraform_deprecated_index",
            Rule::DeprecatedInterpolation => "terraform_deprecated_interpolation",
            Rule::DocumentedOutputs => "terraform_documented_outputs",
            Rule::DocumentedVariables => "terraform_documented_variables",
            Rule::ModulePinnedSource => "terraform_module_pinned_source",
            Rule::ModuleVersion => "terraform_module_version",
            Rule::NamingConvention => "terraform_naming_convention",
            Rule::TypedVariables => "terraform_typed_variables",
            Rule::UnusedDeclarations => "terraform_unused_declarations",
        }
    }

    /// The severity of its issues.
    pub fn severity(self) -> Severity
        ensures { result ≡ severity self }
    {
        match self {
            Rule::DocumentedOutputs | Rule::DocumentedVariables | Rule::NamingConvention => {
                Severity::Notice
            }
            _ => Severity::Warning,
        }
    }

    /// The rule of this name, if there is one.
    pub fn from_name(name: &str) -> Option<Rule>
        ensures { MatchOption result ((rule : Rule) → rule_name rule ≡ name.now → ⊥)
            (λ rule. rule_name rule ≡ name.now) }
    {
        rule_named(&ALL_RULES, name.as_bytes())
    }
}

/// A rule's place in the order of the names, from 0 on.
pub fn rank(rule: Rule) -> usize
    ensures rank { result ≡ rank rule }
    ensures few { result < 10 }
{
    match rule {
        Rule::CommentSyntax => 0,
        Rule::DeprecatedIndex => 1,
        Rule::DeprecatedInterpolation => 2,
        Rule::DocumentedOutputs => 3,
        Rule::DocumentedVariables => 4,
        Rule::ModulePinnedSource => 5,
        Rule::ModuleVersion => 6,
        Rule::NamingConvention => 7,
        Rule::TypedVariables => 8,
        Rule::UnusedDeclarations => 9,
    }
}
