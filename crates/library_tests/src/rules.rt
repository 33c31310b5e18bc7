//! The rules' names, severities and sets, from the table that users read.

use crate::checks::holds_at;
use rule_set::{Rule, RuleSet, Severity};
use std::process::Abort;

/// Checks that the name is the rule's, and the rule the name's.
fn is_named(rt: &impl Abort, name: &str, rule: Rule) {
    holds_at(rt, rule.name() == name, "name", name);
    holds_at(rt, Rule::from_name(name) == Some(rule), "rule", name);
}

/// Checks that the rule is in the expected sets.
fn is_in_sets(rt: &impl Abort, name: &str, rule: Rule, recommended: bool) {
    let is_recommended = RuleSet::recommended().holds(rule);
    holds_at(rt, is_recommended == recommended, "recommended", name);
    holds_at(rt, RuleSet::all().holds(rule), "among all", name);
    holds_at(rt, !RuleSet::none().holds(rule), "not in none", name);
    holds_at(rt, RuleSet::none().with(rule).holds(rule), "put in", name);
}

/// Each rule's name, the rule, its severity, and whether it is recommended.
static RULES: &[(&str, Rule, Severity, bool)] = &[
    (
        "terraform_comment_syntax",
        Rule::CommentSyntax,
        Severity::Warning,
        false,
    ),
    (
        "terraform_deprecated_index",
        Rule::DeprecatedIndex,
        Severity::Warning,
        true,
    ),
    (
        "terraform_deprecated_interpolation",
        Rule::DeprecatedInterpolation,
        Severity::Warning,
        true,
    ),
    (
        "terraform_documented_outputs",
        Rule::DocumentedOutputs,
        Severity::Notice,
        false,
    ),
    (
        "terraform_documented_variables",
        Rule::DocumentedVariables,
        Severity::Notice,
        false,
    ),
    (
        "terraform_module_pinned_source",
        Rule::ModulePinnedSource,
        Severity::Warning,
        true,
    ),
    (
        "terraform_module_version",
        Rule::ModuleVersion,
        Severity::Warning,
        true,
    ),
    (
        "terraform_naming_convention",
        Rule::NamingConvention,
        Severity::Notice,
        false,
    ),
    (
        "terraform_typed_variables",
        Rule::TypedVariables,
        Severity::Warning,
        true,
    ),
    (
        "terraform_unused_declarations",
        Rule::UnusedDeclarations,
        Severity::Warning,
        true,
    ),
];

#[test]
fn rules_have_their_names(rt: HostRuntime) {
    for (name, rule, severity, recommended) in RULES {
        is_named(&rt, *name, *rule);
        is_in_sets(&rt, *name, *rule, *recommended);
        holds_at(&rt, rule.severity() == *severity, "severity", *name);
    }
}

#[test]
fn other_names_are_no_rules(rt: HostRuntime) {
    static NAMES: &[&str] = &[
        "",
        "all",
        "terraform_",
        "terraform_module_versions",
        "Terraform_module_version",
    ];
    for name in NAMES {
        holds_at(&rt, Rule::from_name(*name) == None, "no rule", *name);
    }
}

#[test]
fn words_are_as_users_write_them(rt: HostRuntime) {
    static WORDS: &[(Severity, &str)] = &[
        (Severity::Notice, "Notice"),
        (Severity::Warning, "Warning"),
        (Severity::Error, "Error"),
    ];
    for (severity, word) in WORDS {
        holds_at(&rt, severity.text() == *word, "word", *word);
    }
    let is_ordered = Severity::Notice < Severity::Warning && Severity::Warning < Severity::Error;
    holds_at(&rt, is_ordered, "severities", "in order");
}
