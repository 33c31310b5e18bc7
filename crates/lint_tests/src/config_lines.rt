//! The contents of the lines of a `.tfrules`.

use crate::checks::holds;
use module_config::{BadLine, Config, Said, config_in};
use rule_set::{Rule, RuleSet, Severity};
use std::alloc::Global;
use std::process::Abort;
use tf_rules::Naming;

/// The contents of a text: its good lines, and its bad ones.
struct Row {
    text: &'static str,
    naming: Option<Naming>,
    minimum: Option<Severity>,
    force: bool,
    checks: bool,
    has_rules: bool,
    faults: &'static [(usize, &'static str)],
}

static ROWS: [Row; 8] = [
    Row {
        text: "",
        naming: None,
        minimum: None,
        force: false,
        checks: false,
        has_rules: false,
        faults: &[],
    },
    Row {
        text: " # --force\r\n\n",
        naming: None,
        minimum: None,
        force: false,
        checks: false,
        has_rules: false,
        faults: &[],
    },
    Row {
        text: "--force # so\r\n--naming\tmixed_snake_case\r\n--minimum-failure-severity=warning\n --check-comments ",
        naming: Some(Naming::MixedSnakeCase),
        minimum: Some(Severity::Warning),
        force: true,
        checks: true,
        has_rules: false,
        faults: &[],
    },
    Row {
        text: "--rules all,-terraform_typed_variables\n",
        has_rules: true,
        naming: None,
        minimum: None,
        force: false,
        checks: false,
        faults: &[],
    },
    Row {
        text: "--force\n--bogus\nforce\n--null\n",
        force: true,
        checks: false,
        faults: &[
            (2, "no option of a project: \"--bogus\""),
            (3, "no option of a project: \"force\""),
            (4, "no option of a project: \"--null\""),
        ],
        naming: None,
        minimum: None,
        has_rules: false,
    },
    Row {
        text: "\n--rules terraform_typed,all\n--rules\n--rules default,-all\n",
        faults: &[
            (2, "unknown rule \"terraform_typed\""),
            (3, "unknown rule \"\""),
            (4, "no rule is left by \"default,-all\""),
        ],
        naming: None,
        minimum: None,
        force: false,
        checks: false,
        has_rules: false,
    },
    Row {
        text: "--rules=all,-terraform_typed_variables\n--rules=default\n",
        has_rules: true,
        faults: &[(2, "given twice: \"--rules\"")],
        naming: None,
        minimum: None,
        force: false,
        checks: false,
    },
    Row {
        text: "--naming camel\n--minimum-failure-severity *\n--force yes",
        faults: &[
            (1, "unknown naming \"camel\""),
            (2, "unknown severity \"*\""),
            (3, "no option of a project: \"--force\""),
        ],
        naming: None,
        minimum: None,
        force: false,
        checks: false,
        has_rules: false,
    },
];

/// Whether the rules are those of a row: none, or all but one.
fn are_rules(rules: Option<RuleSet>, has_rules: bool) -> bool {
    match rules {
        Some(rules) => {
            has_rules && rules.holds(Rule::CommentSyntax) && !rules.holds(Rule::TypedVariables)
        }
        None => !has_rules,
    }
}

/// Whether these options are those of a row.
fn is_said(said: Said, row: &Row) -> bool {
    said.naming == row.naming
        && said.minimum == row.minimum
        && said.force == row.force
        && said.checks == row.checks
        && are_rules(said.rules, row.has_rules)
}

/// Whether a bad line is that of a row.
fn is_bad(bad: &BadLine, row: (usize, &str)) -> bool {
    bad.line == row.0 && bad.text.as_str() == row.1
}

/// Whether the bad lines are those of a row.
fn are_bad(faults: &[BadLine], row: &Row) -> bool {
    for number in 0..row.faults.len() {
        if number >= faults.len() || !is_bad(&faults[number], row.faults[number]) {
            return false;
        }
    }
    faults.len() == row.faults.len()
}

/// Whether a text has the contents of its row.
fn says(config: &Config, row: &Row) -> bool {
    is_said(config.said, row) && are_bad(config.faults.as_slice(), row)
}

/// Reads the text of a row, and compares its contents.
fn reads(rt: &impl Abort, alloc: Global, row: &Row) {
    let config = config_in(alloc, row.text).expect(rt, "memory");
    holds(rt, says(&config, row), "contents", row.text);
}

#[test]
fn rows_are_read(rt: HostRuntime) {
    for row in &ROWS {
        reads(&rt, rt.alloc(), row);
    }
}
