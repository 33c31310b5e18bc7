//! The comparisons of these tests, with one assertion each, so that it is proved once.

use std::process::Abort;
use tree_lint::counts::Counts;
use tree_lint::written::Terminals;

/// No output is read on a terminal.
pub(crate) const PIPES: Terminals = Terminals {
    out: false,
    err: false,
};

/// The files of modules.
pub(crate) type Modules = &'static [&'static [&'static str]];

/// Ends the test unless this holds, with the expectation and the row.
pub(crate) fn holds(rt: &impl Abort, is_so: bool, what: &str, row: &str) {
    assert!(rt; is_so, "{what}: {row}");
}

/// Checks bytes of a run over modules.
pub(crate) fn same_bytes(rt: &impl Abort, found: &[u8], wanted: &[u8], modules: Modules) {
    assert_eq!(rt; found, wanted, "over {modules:?}");
}

/// Checks a number of a run over modules.
pub(crate) fn same_number(rt: &impl Abort, found: u64, wanted: u64, modules: Modules) {
    assert_eq!(rt; found, wanted, "over {modules:?}");
}

/// Checks numbers of a run over modules.
pub(crate) fn same_counts(rt: &impl Abort, found: Counts, wanted: Counts, modules: Modules) {
    assert_eq!(rt; found, wanted, "over {modules:?}");
}
