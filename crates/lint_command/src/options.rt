//! The words of the command line.

ghost use Rattle.std.specs.Prelude.{◌≡◌, ◌⊎◌, Err, IfOk, codes, length, map, option_map};
ghost use Rattle.clap.specs.Words.{app_of, first_of, found_of, rows_of};
ghost use Rattle.module_config.specs.Lists.{rules_in};
ghost use Rattle.tfrules_command.specs.Line.{naming_of_text, severity_of_text};
ghost use Rattle.lint_command.specs.Inner.Asked.{result_request, given_in, rules_view};
ghost use Rattle.lint_command.specs.Line.{request_by, request_of_rows, request_of_texts, request_with, explain_request, form_of_text, form_given, given_of_rows, given_by, rules_taken, value_or_usage, text_requested, tfrules_all};
ghost use Rattle.lint_command.specs.Inner.Asked.{is_good};
ghost use Rattle.lint_command.specs.declared.usage.Usage.TheVariants.{BadNaming, BadSeverity, OutOfMemory};

use crate::usage::Usage;
use clap::{ArgMatches, Command};
use command_line::usage_for;
use lint_forms::Form;
use module_config::{ListFault, Said, rules_in};
use rule_set::{ALL_RULES, rule_named};
use std::alloc::{AllocError, Global};
use tf_rules::{Naming, RuleSet, Severity};
use tfrules_command::options::{naming_of_text, severity_of_text};
use tree_words::argument::{Argument, command_of};
use tree_words::jobs::are_jobs_good;
use tree_words::options::{is_given, names_in};
use tree_words::shard::{Shard, shard_of};

/// The options by which modules are linted.
#[derive(Clone, Copy)]
pub struct Given {
    /// The options of the line.
    pub said: Said,
    /// Files `.tfrules` are read for the other options.
    pub reads: bool,
}

/// What the run is to do.
#[derive(Clone, Copy)]
pub struct Job {
    /// The options by which modules are linted.
    pub given: Given,
    /// No message about the run as a whole is shown.
    pub quiet: bool,
    /// The part of the folders that is taken, unless all are.
    pub shard: Option<Shard>,
    /// The form of the output; none for text.
    pub form: Option<Form>,
}

/// The request in the words.
#[derive(Drop)]
pub struct LintOptions<'a> {
    pub job: Job,
    /// The names are read from standard input.
    pub null: bool,
    /// The names of the line.
    pub names: Vec<&'a [u8]>,
}

/// The command with its options.
pub(crate) fn command<'a>(alloc: Global) -> Result<Command<'a>, AllocError>
    ensures { IfOk result (λ c. app_of c ≡ tfrules_all) }
{
    command_of(
        alloc,
        "tfrules-all",
        &[
            Argument::Value("rules"),
            Argument::Value("naming"),
            Argument::Value("minimum-failure-severity"),
            Argument::Flag("force"),
            Argument::Flag("check-comments"),
            Argument::Flag("no-config"),
            Argument::Value("format"),
            Argument::Flag("quiet"),
            Argument::Flag("version"),
            Argument::Null,
            Argument::Value("shard"),
            Argument::Jobs,
            Argument::Flag("list-rules"),
            Argument::Value("explain"),
            Argument::Names,
        ],
    )
}

/// The rules that a text requests, if there is one.
fn rules_taken(text: Option<&str>) -> Result<Option<RuleSet>, Usage>
    ensures { rules_view result
        ≡ rules_taken (option_map rules_in (option_map (λ text. text.now) text.entry)) }
{
    let Some(text) = text else {
        return Ok(None);
    };
    match rules_in(text) {
        Ok(rules) => Ok(Some(rules)),
        Err(ListFault::UnknownRule) => Err(Usage::UnknownRule),
        Err(ListFault::NoneLeft) => Err(Usage::NoRuleLeft),
    }
}

/// The naming that a text requests, if there is one.
fn naming_taken(text: Option<&str>) -> Result<Option<Naming>, Usage>
    ensures { result
        ≡ value_or_usage BadNaming
        (option_map naming_of_text (option_map (λ text. text.now) text.entry)) }
{
    let Some(text) = text else {
        return Ok(None);
    };
    match naming_of_text(text) {
        Some(naming) => Ok(Some(naming)),
        None => Err(Usage::BadNaming),
    }
}

/// The severity that a text requests, if there is one.
fn severity_taken(text: Option<&str>) -> Result<Option<Severity>, Usage>
    ensures { result
        ≡ value_or_usage BadSeverity (option_map severity_of_text
        (option_map (λ text. text.now) text.entry)) }
{
    let Some(text) = text else {
        return Ok(None);
    };
    match severity_of_text(text) {
        Some(severity) => Ok(Some(severity)),
        None => Err(Usage::BadSeverity),
    }
}

/// The options by which modules are linted, if no text of the line is refused.
fn given_by(
    rules: Result<Option<RuleSet>, Usage>,
    naming: Result<Option<Naming>, Usage>,
    minimum: Result<Option<Severity>, Usage>,
    force: bool,
    checks: bool,
    reads: bool,
) -> Result<Given, Usage>
    ensures { given_in result ≡ given_by (rules_view rules) naming minimum force checks reads }
{
    let rules = match rules {
        Ok(rules) => rules,
        Err(usage) => return Err(usage),
    };
    let naming = match naming {
        Ok(naming) => naming,
        Err(usage) => return Err(usage),
    };
    let minimum = match minimum {
        Ok(minimum) => minimum,
        Err(usage) => return Err(usage),
    };
    let said = Said {
        rules,
        naming,
        minimum,
        force,
        checks,
    };
    Ok(Given { said, reads })
}

/// The options by which modules are linted, in the matches of a line.
fn given_of(matches: &ArgMatches<'_>) -> Result<Given, Usage>
    ensures { given_in result ≡ given_of_rows (rows_of (found_of matches.now)) }
{
    let rules = rules_taken(matches.get_str("rules"));
    let naming = naming_taken(matches.get_str("naming"));
    let minimum = severity_taken(matches.get_str("minimum-failure-severity"));
    let force = is_given(matches, "force");
    let checks = is_given(matches, "check-comments");
    given_by(
        rules,
        naming,
        minimum,
        force,
        checks,
        !is_given(matches, "no-config"),
    )
}

/// The form that a text requests.
fn form_of_text(text: &str) -> Option<Option<Form>>
    ensures { result ≡ form_of_text text.now }
{
    if text == "text" {
        return Some(None);
    }
    if text == "json" {
        return Some(Some(Form::Json));
    }
    if text == "sarif" {
        return Some(Some(Form::Sarif));
    }
    if text == "checkstyle" {
        return Some(Some(Form::Checkstyle));
    }
    if text == "junit" {
        return Some(Some(Form::Junit));
    }
    if text == "gitlab" {
        return Some(Some(Form::Gitlab));
    }
    if text == "github" {
        return Some(Some(Form::Github));
    }
    None
}

/// The form that a text requests, if there is one.
fn form_taken(text: Option<&str>) -> Option<Option<Form>>
    ensures { result ≡ form_given (option_map (λ text. text.now) text.entry) }
{
    match text {
        Some(text) => form_of_text(text),
        None => Some(None),
    }
}

/// The form in the matches of a line.
fn form_of(matches: &ArgMatches<'_>) -> Option<Option<Form>>
    ensures { result ≡ form_given (first_of (codes "format") (rows_of (found_of matches.now))) }
{
    form_taken(matches.get_str("format"))
}

/// Whether names come from the line or from standard input, and not from both.
fn is_good(null: bool, names: &[&[u8]]) -> bool
    ensures { result ≡ is_good null (length names.now) }
{
    !null || names.is_empty()
}

/// The parts of a line.
#[derive(Drop)]
struct Parts<'a> {
    given: Result<Given, Usage>,
    quiet: bool,
    /// None if the text names no part.
    shard: Option<Option<Shard>>,
    /// None if the text names no form.
    form: Option<Option<Form>>,
    /// Whether the text is a number of jobs.
    are_jobs_good: bool,
    null: bool,
    names: Vec<&'a [u8]>,
}

/// The options with these parts of a line.
fn options_by<'a>(parts: Parts<'a>) -> Result<LintOptions<'a>, Usage>
    ensures { result_request result ≡ request_by (given_in parts.entry.given) parts.entry.quiet
        parts.entry.shard parts.entry.form parts.entry.are_jobs_good
        (is_good parts.entry.null (length parts.entry.names.items)) parts.entry.null
        (map (λ name. name.now) parts.entry.names.items) }
{
    let Parts {
        given,
        quiet,
        shard,
        form,
        are_jobs_good,
        null,
        names,
    } = parts;
    let given = match given {
        Ok(given) => given,
        Err(usage) => return Err(usage),
    };
    let Some(shard) = shard else {
        return Err(Usage::BadPart);
    };
    let Some(form) = form else {
        return Err(Usage::BadForm);
    };
    if !are_jobs_good {
        return Err(Usage::BadJobs);
    }
    if !is_good(null, names.as_slice()) {
        return Err(Usage::NamesTwice);
    }
    Ok(LintOptions {
        job: Job {
            given,
            quiet,
            shard,
            form,
        },
        null,
        names,
    })
}

/// The options in the matches of a line with these names.
fn options_with<'a>(
    names: Vec<&'a [u8]>,
    matches: &ArgMatches<'a>,
) -> Result<LintOptions<'a>, Usage>
    ensures { result_request result ≡ request_with (rows_of (found_of matches.now))
        (map (λ name. name.now) names.entry.items) }
{
    options_by(Parts {
        given: given_of(matches),
        quiet: is_given(matches, "quiet"),
        shard: shard_of(matches),
        form: form_of(matches),
        are_jobs_good: are_jobs_good(matches),
        null: is_given(matches, "null"),
        names,
    })
}

/// The usage for a rule that is named to be explained.
fn explain_request(name: &str) -> Usage
    ensures { result ≡ explain_request name.now }
{
    match rule_named(&ALL_RULES, name.as_bytes()) {
        Some(rule) => Usage::Explain(rule),
        None => Usage::UnknownExplained,
    }
}

/// The usage for a rule that is named to be explained, if there is one.
fn explanation_given(name: Option<&str>) -> Option<Usage>
    ensures { result ≡ option_map explain_request (option_map (λ name. name.now) name.entry) }
{
    match name {
        Some(name) => Some(explain_request(name)),
        None => None,
    }
}

/// The usage in the matches of a line that names a rule to explain.
fn explanation_asked(matches: &ArgMatches<'_>) -> Option<Usage>
    ensures { result ≡ option_map explain_request
        (first_of (codes "explain") (rows_of (found_of matches.now))) }
{
    explanation_given(matches.get_str("explain"))
}

/// The usage in the matches of a line that requests a text.
fn text_requested(matches: &ArgMatches<'_>) -> Option<Usage>
    ensures { result ≡ text_requested (rows_of (found_of matches.now)) }
{
    if is_given(matches, "version") {
        return Some(Usage::Version);
    }
    if is_given(matches, "list-rules") {
        return Some(Usage::ListRules);
    }
    explanation_asked(matches)
}

/// The options in the matches of a line, with these names besides.
fn options_of<'a>(
    alloc: Global,
    others: &[&'a [u8]],
    matches: &ArgMatches<'a>,
) -> Result<LintOptions<'a>, Usage>
    ensures { (result ≡ Err OutOfMemory)
        ⊎ (result_request result ≡ request_of_rows (map (λ name. name.now) others.now)
        (rows_of (found_of matches.now))) }
{
    if let Some(usage) = text_requested(matches) {
        return Err(usage);
    }
    match names_in(alloc, others, matches) {
        Ok(names) => options_with(names, matches),
        Err(_) => Err(Usage::OutOfMemory),
    }
}

/// The options in the words, with the program's name first, and with the other words as names, or their usage. If
/// memory runs out it returns `OutOfMemory`.
pub fn options<'a>(
    alloc: Global,
    words: &'a [&'a str],
    others: &[&'a [u8]],
) -> Result<LintOptions<'a>, Usage>
    ensures { (result ≡ Err OutOfMemory)
        ⊎ (result_request result ≡ request_of_texts (map (λ word. word.now) words.entry.now)
        (map (λ name. name.now) others.now)) }
{
    let Ok(command) = command(alloc) else {
        return Err(Usage::OutOfMemory);
    };
    match command.try_get_matches_from(words) {
        Ok(matches) => options_of(alloc, others, &matches),
        Err(error) => Err(usage_for(&error, Usage::OutOfMemory, Usage::Help, Usage::BadLine)),
    }
}
