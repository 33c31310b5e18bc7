//! The policies of modules.

use crate::module::Module;
use tf_rules::{Settings, Severity};

/// The policy of a module.
#[derive(Clone, Copy)]
pub struct Policy {
    /// The rules that are checked, and how names are to be written.
    pub settings: Settings,
    /// The lowest severity at which an issue fails the run.
    pub minimum: Severity,
    /// No finding fails the run.
    pub force: bool,
    /// Comments are checked: those are found that are meant to silence a rule and don't.
    pub checks: bool,
}

/// A module, and its policy.
#[derive(Drop)]
pub struct Governed {
    pub module: Module,
    pub policy: Policy,
}
