//! Sets of rules.

ghost use Rattle.std.specs.Prelude.{◌≡◌, ◌||◌, ◌&&◌, not, false, true};
ghost use Rattle.std.specs.List.{list_any};
ghost use Rattle.rule_set.specs.Rules.{all_rules, is_recommended, is_rule};
ghost use Rattle.rule_set.specs.RuleSets.{holds};

use crate::rule::{Rule, rank};

/// A set of rules.
#[derive(Clone, Copy, PartialEq, Eq)]
pub struct RuleSet {
    held: [bool; 10],
}

fn either(one: bool, other: bool) -> bool
    ensures { result ≡ (one || other) }
{
    one || other
}

impl RuleSet {
    /// No rule.
    pub fn none() -> RuleSet
        ensures { (rule : Rule) → holds result rule ≡ false }
    {
        RuleSet { held: [false; 10] }
    }

    /// The default rules.
    pub fn recommended() -> RuleSet
        ensures { (rule : Rule) → holds result rule ≡ is_recommended rule }
    {
        RuleSet {
            held: [
                false, true, true, false, false, true, true, false, true, true,
            ],
        }
    }

    /// Every rule.
    pub fn all() -> RuleSet
        ensures { (rule : Rule) → holds result rule ≡ true }
    {
        RuleSet { held: [true; 10] }
    }

    /// The set with another rule.
    pub fn with(self, rule: Rule) -> RuleSet
        ensures { (other : Rule) → holds result other ≡ (holds self other || is_rule other rule) }
    {
        let mut held = self.held;
        held[rank(rule)] = true;
        RuleSet { held }
    }

    /// Whether a rule is in the set. All are looked at, whatever the first ones are, so that nothing branches.
    pub fn holds_any(self) -> bool
        ensures { result ≡ list_any (holds self) all_rules }
    {
        let held = self.held;
        held[0]
            | held[1]
            | held[2]
            | held[3]
            | held[4]
            | held[5]
            | held[6]
            | held[7]
            | held[8]
            | held[9]
    }

    /// Whether the rule is in the set.
    pub fn holds(self, rule: Rule) -> bool
        ensures { result ≡ holds self rule }
    {
        self.held[rank(rule)]
    }
}

/// The rules of two sets.
pub fn rules_of_both(one: RuleSet, other: RuleSet) -> RuleSet
    ensures { (rule : Rule) → holds result rule ≡ (holds one rule || holds other rule) }
{
    let mut joined = one.held;
    for number in 0..10 {
        joined[number] = either(one.held[number], other.held[number]);
    }
    RuleSet { held: joined }
}

fn first_alone(one: bool, other: bool) -> bool
    ensures { result ≡ (one && not other) }
{
    one && !other
}

/// The rules of one set that another lacks.
pub fn rules_without(one: RuleSet, other: RuleSet) -> RuleSet
    ensures { (rule : Rule) → holds result rule ≡ (holds one rule && not (holds other rule)) }
{
    let mut left = one.held;
    for number in 0..10 {
        left[number] = first_alone(one.held[number], other.held[number]);
    }
    RuleSet { held: left }
}
