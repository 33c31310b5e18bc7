//! The settings by which the issues of a module are told.

ghost use Rattle.std.specs.Prelude.{◌≡◌};
ghost use Rattle.module_check.specs.Checks.{settings_told};
ghost use Rattle.tf_rules.specs.Issues.{asked_of};

use crate::state::{FileState, are_good};
use rule_set::{Rule, RuleSet, rules_without};
use tf_rules::Settings;

/// The settings, without the rule on unused declarations unless each file is one of the language.
pub(crate) fn settings_told(settings: Settings, states: &[FileState]) -> Settings
    ensures { asked_of result ≡ settings_told settings states.now }
{
    if are_good(states) {
        return settings;
    }
    let unused = RuleSet::none().with(Rule::UnusedDeclarations);
    Settings {
        rules: rules_without(settings.rules, unused),
        naming: settings.naming,
    }
}
