//! The answers to words that request no run.

ghost use Rattle.std.specs.Prelude.{◌≡◌, ℕ, List, false, map};
ghost use Rattle.command_line.specs.Rows.{end_of_streams};
ghost use Rattle.lint_command.specs.Inner.Runs.{ShowsUsage};
ghost use Rattle.module_find.specs.Refusals.{tree_linter};
ghost use Rattle.lint_command.specs.declared.usage.Usage.TheVariants.{BadLine, Explain, ListRules};

use crate::explain::{explanation_of, rule_list};
use crate::linter_words::linter_words;
use crate::usage::{HELP, Usage, VERSION};
use crate::wrong_value::{unknown_rule, wrong_value};
use command_line::{Program, Streams};
use hcl_scan::ByteSink;
use rule_set::Rule;
use std::alloc::Global;
use tree_words::wrong::bad_line_text;

static UNKNOWN_RULE: &str = "unknown rule ";

static NO_RULE_LEFT: &str = "no rule is left by ";

static BAD_NAMING: &str = "unknown naming ";

static BAD_SEVERITY: &str = "unknown severity ";

static BAD_PART: &str = "--shard takes K/N, with K from 1 to N, at most 99999, not ";

static BAD_FORM: &str =
    "--format takes text, json, sarif, checkstyle, junit, gitlab or github, not ";

static BAD_JOBS: &str = "tfrules-all: error: --jobs takes a number from 1 to 9999\n";

static NAMES_TWICE: &str = "tfrules-all: error: --null takes no names on the command line\n";

/// This program, for its messages.
pub(crate) fn tree_linter() -> Program
    ensures { result ≡ tree_linter }
{
    Program::new(
        "tfrules-all",
        1,
        "tfrules-all: error: write failed\n",
        "tfrules-all: error: out of memory\n",
    )
}

/// Shows the wrong word of a wrong line, and the usage.
fn bad_line<O: ByteSink, E: ByteSink>(
    alloc: Global,
    words: &[&str],
    streams: &mut Streams<O, E>,
) -> u8
    requires out { O.failed streams.old.out ≡ false }
    requires err { E.failed streams.old.err ≡ false }
    ensures { ShowsUsage (map (λ word. word.now) words.now) BadLine
        (end_of_streams O.ByteSink E.ByteSink streams.old streams.new result) }
{
    match bad_line_text(alloc, &linter_words(), words) {
        Ok(text) => streams.tell_bytes(&tree_linter(), text.as_slice(), 1),
        Err(_) => streams.tell_out_of_memory(&tree_linter()),
    }
}

/// Shows the list of the rules.
fn list_rules<O: ByteSink, E: ByteSink>(alloc: Global, streams: &mut Streams<O, E>) -> u8
    requires out { O.failed streams.old.out ≡ false }
    requires err { E.failed streams.old.err ≡ false }
    ensures { (texts : List (List ℕ)) → ShowsUsage texts ListRules
        (end_of_streams O.ByteSink E.ByteSink streams.old streams.new result) }
{
    match rule_list(alloc) {
        Ok(text) => streams.deliver(&tree_linter(), text.as_str(), 0),
        Err(_) => streams.tell_out_of_memory(&tree_linter()),
    }
}

/// Shows the explanation of a rule.
fn explain<O: ByteSink, E: ByteSink>(alloc: Global, rule: Rule, streams: &mut Streams<O, E>) -> u8
    requires out { O.failed streams.old.out ≡ false }
    requires err { E.failed streams.old.err ≡ false }
    ensures { (texts : List (List ℕ)) → ShowsUsage texts (Explain rule)
        (end_of_streams O.ByteSink E.ByteSink streams.old streams.new result) }
{
    match explanation_of(alloc, rule) {
        Ok(text) => streams.deliver(&tree_linter(), text.as_str(), 0),
        Err(_) => streams.tell_out_of_memory(&tree_linter()),
    }
}

/// Shows the answer to words that request no run.
pub(crate) fn say<O: ByteSink, E: ByteSink>(
    alloc: Global,
    words: &[&str],
    usage: Usage,
    streams: &mut Streams<O, E>,
) -> u8
    requires out { O.failed streams.old.out ≡ false }
    requires err { E.failed streams.old.err ≡ false }
    ensures { ShowsUsage (map (λ word. word.now) words.now) usage
        (end_of_streams O.ByteSink E.ByteSink streams.old streams.new result) }
{
    match usage {
        Usage::Help => streams.deliver(&tree_linter(), HELP, 0),
        Usage::Version => streams.deliver(&tree_linter(), VERSION, 0),
        Usage::ListRules => list_rules(alloc, streams),
        Usage::Explain(rule) => explain(alloc, rule, streams),
        Usage::BadLine => bad_line(alloc, words, streams),
        Usage::UnknownRule => unknown_rule(alloc, words, streams),
        Usage::UnknownExplained => wrong_value(alloc, words, "explain", UNKNOWN_RULE, streams),
        Usage::NoRuleLeft => wrong_value(alloc, words, "rules", NO_RULE_LEFT, streams),
        Usage::BadNaming => wrong_value(alloc, words, "naming", BAD_NAMING, streams),
        Usage::BadSeverity => {
            wrong_value(
                alloc,
                words,
                "minimum-failure-severity",
                BAD_SEVERITY,
                streams,
            )
        }
        Usage::BadPart => wrong_value(alloc, words, "shard", BAD_PART, streams),
        Usage::BadForm => wrong_value(alloc, words, "format", BAD_FORM, streams),
        Usage::BadJobs => streams.tell(&tree_linter(), BAD_JOBS, 1),
        Usage::NamesTwice => streams.tell(&tree_linter(), NAMES_TWICE, 1),
        Usage::OutOfMemory => streams.tell_out_of_memory(&tree_linter()),
    }
}
