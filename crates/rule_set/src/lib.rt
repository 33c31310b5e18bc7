//! The ten rules of the linter, their names and severities, and sets of them.
//!
//! The module [`laws`] has laws of the definitions alone.
#![tactic(auto)]

pub mod laws;
mod rule;
mod rule_set;

pub use rule::{ALL_RULES, Rule, Severity, rank, rule_named};
pub use rule_set::{RuleSet, rules_of_both, rules_without};
