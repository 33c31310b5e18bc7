//! The issues of a module as a text, with a line for each, and the files by number.

use crate::checks::same_text;
use hcl_scan::{Source, Tokens, scan};
use hcl_syntax::accepts;
use std::alloc::{AllocError, Global};
use std::process::Abort;
use std::test::Fail;
use tf_rules::{Facts, Issue, Naming, RuleSet, Settings};

/// These rules with names in snake case.
pub(crate) fn settings_for(rules: RuleSet) -> Settings {
    Settings {
        rules,
        naming: Naming::SnakeCase,
    }
}

fn add_tokens(
    facts: &mut Facts,
    number: u32,
    tokens: &Tokens<'_>,
) -> Result<Result<(), AllocError>, Fail> {
    let accepted = accepts(tokens)?;
    Ok(facts.add_file(number, &accepted))
}

fn add_source(
    alloc: Global,
    facts: &mut Facts,
    number: u32,
    source: &Source,
) -> Result<Result<(), AllocError>, Fail> {
    let tokens = scan(alloc, source)?;
    add_tokens(facts, number, &tokens)
}

/// Adds a file with this text, which is in the language.
pub(crate) fn add(
    alloc: Global,
    facts: &mut Facts,
    number: u32,
    text: &str,
) -> Result<Result<(), AllocError>, Fail> {
    let source = Source::from_bytes(alloc, text.as_bytes())?;
    add_source(alloc, facts, number, &source)
}

fn push_issue(told: &mut String, issue: &Issue) -> Result<(), AllocError> {
    let file = issue.file;
    let line = issue.at.line;
    let column = issue.at.column;
    let severity = issue.rule.severity().text();
    let message = issue.message.as_str();
    let name = issue.rule.name();
    write!(
        told,
        "{file}:{line}:{column}: {severity} - {message} ({name})\n"
    )
}

fn push_issues(told: &mut String, issues: &[Issue]) -> Result<(), AllocError> {
    for issue in issues {
        push_issue(told, issue)?;
    }
    Ok(())
}

/// The issues of the added files, by these settings.
fn push_report(told: &mut String, facts: &Facts, settings: &Settings) -> Result<(), AllocError> {
    let issues = facts.issues(settings)?;
    push_issues(told, &issues)
}

/// Checks the issues of the added files.
pub(crate) fn has_issues(
    rt: &impl Abort,
    alloc: Global,
    facts: &Facts,
    settings: &Settings,
    (wanted, what): (&str, &str),
) -> Result<(), AllocError> {
    let mut told = String::new(alloc);
    push_report(&mut told, facts, settings)?;
    same_text(rt, told.as_str(), wanted, what);
    Ok(())
}
