//! The request to the linter.

use crate::naming::Naming;
use rule_set::RuleSet;

/// The rules that are requested, and how names are to be written.
#[derive(Clone, Copy)]
pub struct Settings {
    pub rules: RuleSet,
    pub naming: Naming,
}
