//! Lists of rules, as users write them.

use crate::checks::holds;
use module_config::{ListFault, rules_in};
use rule_set::{Rule, RuleSet};

/// A list and its rules.
static LISTS: &[(&str, &[Rule])] = &[
    (
        "default",
        &[
            Rule::DeprecatedIndex,
            Rule::DeprecatedInterpolation,
            Rule::ModulePinnedSource,
            Rule::ModuleVersion,
            Rule::TypedVariables,
            Rule::UnusedDeclarations,
        ],
    ),
    (
        "default,-terraform_typed_variables,-terraform_module_version",
        &[
            Rule::DeprecatedIndex,
            Rule::DeprecatedInterpolation,
            Rule::ModulePinnedSource,
            Rule::UnusedDeclarations,
        ],
    ),
    (
        "all,-default",
        &[
            Rule::CommentSyntax,
            Rule::DocumentedOutputs,
            Rule::DocumentedVariables,
            Rule::NamingConvention,
        ],
    ),
    ("-all,terraform_comment_syntax", &[Rule::CommentSyntax]),
    (
        "terraform_typed_variables,-terraform_typed_variables,terraform_typed_variables",
        &[Rule::TypedVariables],
    ),
];

/// Texts that aren't lists.
static FAULTS: &[(&str, ListFault)] = &[
    ("", ListFault::UnknownRule),
    ("all,", ListFault::UnknownRule),
    ("all, default", ListFault::UnknownRule),
    ("--terraform_typed_variables", ListFault::UnknownRule),
    ("all,-terraform_type", ListFault::UnknownRule),
    ("-all,terraform_type", ListFault::UnknownRule),
    ("-", ListFault::UnknownRule),
    ("-terraform_typed_variables", ListFault::NoneLeft),
    ("all,-all", ListFault::NoneLeft),
    (
        "terraform_comment_syntax,-default,-terraform_comment_syntax",
        ListFault::NoneLeft,
    ),
];

/// The set of these rules.
fn set_of(rules: &[Rule]) -> RuleSet {
    let mut set = RuleSet::none();
    for rule in rules {
        set = set.with(*rule);
    }
    set
}

#[test]
fn lists_stand_for_their_rules(rt: HostRuntime) {
    for (list, rules) in LISTS {
        holds(
            &rt,
            rules_in(*list) == Ok(set_of(*rules)),
            "its rules",
            *list,
        );
    }
}

#[test]
fn a_rule_of_all_can_be_taken_away(rt: HostRuntime) {
    let left = rules_in("all,-terraform_typed_variables");
    let is_left = match left {
        Ok(set) => set.with(Rule::TypedVariables) == RuleSet::all()
            && !set.holds(Rule::TypedVariables),
        Err(_) => false,
    };
    holds(
        &rt,
        is_left,
        "all but one",
        "all,-terraform_typed_variables",
    );
}

#[test]
fn other_texts_are_no_lists(rt: HostRuntime) {
    for (list, fault) in FAULTS {
        holds(&rt, rules_in(*list) == Err(*fault), "its fault", *list);
    }
}
