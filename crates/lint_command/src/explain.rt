//! The texts about the rules.

ghost use Rattle.std.specs.Prelude.{◌≡◌, ◌++◌, IfOk, OnOk, flat_map, string_bytes};
ghost use Rattle.rule_set.specs.Rules.{is_recommended};
ghost use Rattle.lint_command.specs.Explained.{default_word, explanation_of, rule_line, rule_list, why_and_how};

use lint_forms::rule_texts::{reason, reports};
use rule_set::{ALL_RULES, Rule, RuleSet};
use std::alloc::{AllocError, Global};

/// The word that marks a default rule.
fn default_word(recommended: bool) -> &'static str
    ensures { result.now ≡ default_word recommended }
{
    if recommended { ", default" } else { "" }
}

/// Whether a rule is a default one.
fn is_default(rule: Rule) -> bool
    ensures { result ≡ is_recommended rule }
{
    RuleSet::recommended().holds(rule)
}

/// The line about a rule: what it reports.
fn rule_line(alloc: Global, rule: Rule) -> Result<String, AllocError>
    ensures { IfOk result (λ text. string_bytes text ≡ rule_line rule) }
{
    let name = rule.name();
    let severity = rule.severity().text();
    let default = default_word(is_default(rule));
    let what = reports(rule);
    format!(in alloc; "{} ({}{}): {}\n", name, severity, default, what)
}

/// Why the rule reports it, and how to silence an issue.
fn why_and_how(alloc: Global, rule: Rule) -> Result<String, AllocError>
    ensures { IfOk result (λ text. string_bytes text ≡ why_and_how rule) }
{
    let why = reason(rule);
    let name = rule.name();
    format!(in alloc;
        "\n{}\n\nA comment on the line of an issue, or on the line above it, silences it:\n\n  # tflint-ignore: {}\n",
        why, name
    )
}

/// The explanation of a rule.
pub(crate) fn explanation_of(alloc: Global, rule: Rule) -> Result<String, AllocError>
    ensures { IfOk result (λ text. string_bytes text ≡ explanation_of rule) }
{
    let mut text = rule_line(alloc, rule)?;
    let more = why_and_how(alloc, rule)?;
    text.push_str(more.as_str())?;
    Ok(text)
}

/// Adds the line for a rule.
fn push_line(alloc: Global, rule: Rule, text: &mut String) -> Result<(), AllocError>
    ensures { OnOk result (string_bytes text.new ≡ string_bytes text.old ++ rule_line rule) }
{
    let line = rule_line(alloc, rule)?;
    text.push_str(line.as_str())
}

/// A line for each of these rules.
fn lines_of(alloc: Global, rules: &[Rule]) -> Result<String, AllocError>
    ensures { IfOk result (λ text. string_bytes text ≡ flat_map rule_line rules.now) }
{
    let mut text = String::new(alloc);
    for rule in rules {
        push_line(alloc, *rule, &mut text)?;
    }
    Ok(text)
}

/// The list of the rules.
pub(crate) fn rule_list(alloc: Global) -> Result<String, AllocError>
    ensures { IfOk result (λ text. string_bytes text ≡ rule_list) }
{
    lines_of(alloc, &ALL_RULES)
}
