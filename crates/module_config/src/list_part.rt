//! One part of a list.

ghost use Rattle.std.specs.Prelude.{◌≡◌, ◌++◌, ◌∷◌, [], ℕ, List, true, false};
ghost use Rattle.rule_set.specs.RuleSets.{holds};
ghost use Rattle.rule_set.specs.declared.rule.Rule.{Rule};
ghost use Rattle.module_config.specs.Lists.{is_known_part, is_rule_named, part_name, stands_for};
ghost use Rattle.module_config.specs.Inner.Listed.{IsSetByName, Listed};

use rule_set::{Rule, RuleSet, rules_of_both, rules_without};

/// The rule of this name alone, or none.
fn rule_alone(name: &str) -> RuleSet
    ensures { (rule : Rule) → holds result rule ≡ is_rule_named name.now rule }
{
    match Rule::from_name(name) {
        Some(rule) => RuleSet::none().with(rule),
        None => RuleSet::none(),
    }
}

/// The rules of a name.
fn rules_of_name(name: &str) -> RuleSet
    ensures { (rule : Rule) → holds result rule ≡ stands_for name.now rule }
{
    if name == "all" {
        return RuleSet::all();
    }
    if name == "default" {
        return RuleSet::recommended();
    }
    rule_alone(name)
}

/// The set with the rules of a name, or nothing if it has none.
fn with_name(set: RuleSet, name: &str) -> Option<RuleSet>
    ensures { IsSetByName true name.now set result }
{
    let named = rules_of_name(name);
    if named.holds_any() {
        return Some(rules_of_both(set, named));
    }
    None
}

/// The set without the rules of a name, or nothing if it has none.
fn without_name(set: RuleSet, name: &str) -> Option<RuleSet>
    ensures { IsSetByName false name.now set result }
{
    let named = rules_of_name(name);
    if named.holds_any() {
        return Some(rules_without(set, named));
    }
    None
}

/// The name in a part of a list.
pub fn part_name(part: &str) -> &str
    ensures { result.now ≡ part_name part.now }
{
    match part.strip_prefix('-') {
        Some(name) => name,
        None => part,
    }
}

/// Whether a part names a rule.
pub fn is_known_part(part: &str) -> bool
    ensures { result ≡ is_known_part part.now }
{
    rules_of_name(part_name(part)).holds_any()
}

/// The set after another part, or nothing if a part names no rule.
pub fn with_part(set: Option<RuleSet>, part: &str) -> Option<RuleSet>
    ensures { (parts : List (List ℕ)) → Listed parts set → Listed (parts ++ part.now ∷ []) result }
{
    let Some(set) = set else {
        return None;
    };
    match part.strip_prefix('-') {
        Some(name) => without_name(set, name),
        None => with_name(set, part),
    }
}
