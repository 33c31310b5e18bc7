//! The given options.

use tf_rules::{Naming, RuleSet, Severity};

/// The options given by the lines of a file.
#[derive(Clone, Copy)]
pub struct Said {
    /// The rules to check.
    pub rules: Option<RuleSet>,
    /// The naming.
    pub naming: Option<Naming>,
    /// The severity from which on an issue fails the run.
    pub minimum: Option<Severity>,
    /// No issue fails the run.
    pub force: bool,
    /// Comments are checked that are meant to silence a rule and don't.
    pub checks: bool,
}

/// None.
pub const NOTHING: Said = Said {
    rules: None,
    naming: None,
    minimum: None,
    force: false,
    checks: false,
};
