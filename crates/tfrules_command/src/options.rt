//! The words of the command line.

ghost use Rattle.std.specs.Prelude.{◌≡◌, ◌<◌, false, ◌⊎◌, ◌==◌, ◌++◌, ◌∷◌, ◌≤◌, [], List, ℕ, Err, Some, IfOk, map, option_map, length};
ghost use Rattle.std.specs.List.{slice_split};
ghost use Rattle.clap.specs.Words.{app_of, found_of, rows_of, rule_of};
ghost use Rattle.rule_set.specs.RuleSets.{rules_of};
ghost use Rattle.tfrules_command.specs.Line.{asking_for, request_of_rows, request_with, file_rule, naming_of_text, options_of, rules_asked, severity_of_text, tfrules, value_or};
ghost use Rattle.tfrules_command.specs.Asked.{result_request};
ghost use Rattle.tfrules_command.specs.Inner.Named.{Named};
ghost use Rattle.tfrules_command.specs.declared.usage.Usage.TheVariants.{OutOfMemory};

use crate::file_names::{FileNames, MAX_FILES};
use crate::usage::Usage;
use clap::{Arg, ArgAction, ArgMatches, Command};
use command_line::{flag_named, is_flag_set, option_named, usage_for};
use std::alloc::{AllocError, Global};
use tf_rules::{Naming, Rule, RuleSet, Settings, Severity};

/// The request in the words.
#[derive(Drop)]
pub struct LintOptions<'a> {
    /// The rules to check, and the naming.
    pub settings: Settings,
    /// The severity from which on an issue fails the run.
    pub minimum: Severity,
    /// No issue fails the run.
    pub force: bool,
    /// The files of the module.
    pub files: FileNames<'a>,
}

/// One file or more.
fn file<'a>(alloc: Global) -> Arg<'a>
    ensures rule { rule_of result ≡ file_rule }
    ensures local { result.global ≡ false }
{
    Arg::new(alloc, "file")
        .action(ArgAction::Append)
        .required(true)
}

/// The command with its options.
fn command<'a>(alloc: Global) -> Result<Command<'a>, AllocError>
    ensures { IfOk result (λ c. app_of c ≡ tfrules) }
{
    Command::new(alloc, "tfrules")
        .arg(option_named(alloc, "rules"))?
        .arg(option_named(alloc, "naming"))?
        .arg(option_named(alloc, "minimum-failure-severity"))?
        .arg(flag_named(alloc, "force"))?
        .arg(file(alloc))
}

/// The set with the rule of this name, or nothing if no rule has it.
fn with_named(set: Option<RuleSet>, name: &str) -> Option<RuleSet>
    ensures { (names : List (List ℕ)) → Named names set → Named (names ++ name.now ∷ []) result }
{
    let Some(set) = set else {
        return None;
    };
    match Rule::from_name(name) {
        Some(rule) => Some(set.with(rule)),
        None => None,
    }
}

/// The set of the rules with these names, separated by commas, or nothing if a name is no rule's.
fn rules_named(list: &str) -> Option<RuleSet>
    ensures { Named (slice_split (λ b. b == 44) list.now) result }
{
    let mut set = Some(RuleSet::none());
    for name in list.split(',') {
        set = with_named(set, name);
    }
    set
}

/// The rules that a text requests.
fn rules_asked(text: &str) -> Option<RuleSet>
    ensures { option_map rules_of result ≡ rules_asked text.now }
{
    if text == "default" {
        return Some(RuleSet::recommended());
    }
    if text == "all" {
        return Some(RuleSet::all());
    }
    rules_named(text)
}

/// The naming that a text requests.
pub fn naming_of_text(text: &str) -> Option<Naming>
    ensures { result ≡ naming_of_text text.now }
{
    if text == "snake_case" {
        return Some(Naming::SnakeCase);
    }
    if text == "mixed_snake_case" {
        return Some(Naming::MixedSnakeCase);
    }
    None
}

/// The severity that a text requests.
pub fn severity_of_text(text: &str) -> Option<Severity>
    ensures { result ≡ severity_of_text text.now }
{
    if text == "error" {
        return Some(Severity::Error);
    }
    if text == "warning" {
        return Some(Severity::Warning);
    }
    if text == "notice" {
        return Some(Severity::Notice);
    }
    None
}

/// The value of an option, or the default.
fn value_or<'a>(default: &'static str, id: &str, matches: &ArgMatches<'a>) -> &'a str
    ensures { result.now ≡ value_or default.now id.now (rows_of (found_of matches.now)) }
{
    match matches.get_str(id) {
        Some(text) => text,
        None => default,
    }
}

/// The options, if no text of the line is refused.
fn options_for<'a>(
    alloc: Global,
    given: &[&'a str],
    settings: Settings,
    minimum: Severity,
    force: bool,
) -> Result<LintOptions<'a>, Usage>
    requires { 0 < length given.now }
    ensures { (result ≡ Err OutOfMemory)
        ⊎ (result_request result ≡ asking_for force (map (λ name. name.now) given.now)
        (Some (rules_of settings.rules)) (Some settings.naming) (Some minimum)) }
{
    if given.len() > MAX_FILES {
        return Err(Usage::TooManyFiles);
    }
    match FileNames::new(alloc, given) {
        Ok(files) => Ok(LintOptions {
            settings,
            minimum,
            force,
            files,
        }),
        Err(_) => Err(Usage::OutOfMemory),
    }
}

/// The options in the matches of a line with these files.
fn options_with<'a>(
    alloc: Global,
    given: &[&'a str],
    matches: &ArgMatches<'a>,
) -> Result<LintOptions<'a>, Usage>
    ensures { (result ≡ Err OutOfMemory)
        ⊎ (result_request result ≡ request_with (rows_of (found_of matches.now))
        (Some (map (λ name. name.now) given.now))) }
{
    if given.is_empty() {
        return Err(Usage::BadLine);
    }
    let rules = rules_asked(value_or("default", "rules", matches));
    let naming = naming_of_text(value_or("snake_case", "naming", matches));
    let minimum = severity_of_text(value_or("notice", "minimum-failure-severity", matches));
    let force = is_flag_set(matches, "force");
    match rules {
        Some(rules) => match naming {
            Some(naming) => match minimum {
                Some(minimum) => {
                    options_for(alloc, given, Settings { rules, naming }, minimum, force)
                }
                None => Err(Usage::BadSeverity),
            },
            None => Err(Usage::BadNaming),
        },
        None => Err(Usage::UnknownRule),
    }
}

/// The options in the matches of a line.
fn options_of<'a>(alloc: Global, matches: &ArgMatches<'a>) -> Result<LintOptions<'a>, Usage>
    ensures { (result ≡ Err OutOfMemory)
        ⊎ (result_request result ≡ request_of_rows (rows_of (found_of matches.now))) }
{
    match matches.get_strs("file") {
        Some(given) => options_with(alloc, given, matches),
        None => Err(Usage::BadLine),
    }
}

/// The options in the words, with the program's name first, or their usage. If memory runs out it returns
/// `OutOfMemory`.
pub fn options<'a>(alloc: Global, words: &'a [&'a str]) -> Result<LintOptions<'a>, Usage>
    ensures { (result ≡ Err OutOfMemory)
        ⊎ (result_request result ≡ options_of (map (λ word. word.now) words.entry.now)) }
{
    let Ok(command) = command(alloc) else {
        return Err(Usage::OutOfMemory);
    };
    match command.try_get_matches_from(words) {
        Ok(matches) => options_of(alloc, &matches),
        Err(error) => Err(usage_for(&error, Usage::OutOfMemory, Usage::Help, Usage::BadLine)),
    }
}
