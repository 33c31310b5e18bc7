//! The options by which modules are linted.

ghost use Rattle.std.specs.Prelude.{◌≡◌, ◌++◌, IfOk, OnOk, find, flat_map, map, option_map, unwrap_or};
ghost use Rattle.std.specs.Str.{bytes_eq};
ghost use Rattle.rule_set.specs.RuleSets.{rules_of};
ghost use Rattle.module_config.specs.Lines.{no_options};
ghost use Rattle.module_config.specs.Options.{options_of};
ghost use Rattle.module_config.specs.Settled.{default_rules, first_said, good_text, governed_in, pair_of, said_in, policy_of, wanted_by, wanted_of};

use crate::config_file::{ConfigFile, ConfigText};
use crate::governor::{Governor, Placed};
use crate::said::{NOTHING, Said};
use module_find::{Governed, Policy};
use rule_set::{RuleSet, Severity};
use std::alloc::{AllocError, Global};
use tf_rules::{Naming, Settings};

/// The rules of the file, or the default ones.
fn own_rules(own: Option<RuleSet>) -> RuleSet
    ensures { rules_of result ≡ unwrap_or (option_map rules_of own) default_rules }
{
    match own {
        Some(rules) => rules,
        None => RuleSet::recommended(),
    }
}

/// The rules: those of the line, or of the file, or the default ones.
fn rules_by(line: Option<RuleSet>, own: Option<RuleSet>) -> RuleSet
    ensures { rules_of result
        ≡ first_said (option_map rules_of line) (option_map rules_of own) default_rules }
{
    match line {
        Some(rules) => rules,
        None => own_rules(own),
    }
}

/// One of these: that of the line, or of the file, or the default.
fn first_said<A: Copy>(line: Option<A>, own: Option<A>, default: A) -> A
    ensures { result ≡ first_said line own default }
{
    match line {
        Some(said) => said,
        None => own.unwrap_or(default),
    }
}

/// The options of a module from those of the line and of the file.
pub fn policy_of(line: Said, own: Said) -> Policy
    ensures { wanted_of result ≡ policy_of (options_of line) (options_of own) }
{
    let rules = rules_by(line.rules, own.rules);
    let naming = first_said(line.naming, own.naming, Naming::SnakeCase);
    let minimum = first_said(line.minimum, own.minimum, Severity::Notice);
    Policy {
        settings: Settings { rules, naming },
        minimum,
        force: line.force || own.force,
        checks: line.checks || own.checks,
    }
}

/// The options in a file, if all of its lines are good.
fn good_text(text: &ConfigText) -> Option<Said>
    ensures { option_map options_of result ≡ good_text text.now }
{
    match text {
        ConfigText::Says(config) if config.faults.is_empty() => Some(config.said),
        _ => None,
    }
}

/// The file of this name.
fn file_named<'f>(files: &'f [ConfigFile], name: &[u8]) -> Option<&'f ConfigFile>
    ensures { option_map (λ file. file.now) result
        ≡ find (λ file. bytes_eq name.now file.name.items) files.now }
{
    files.iter().find(|file| *name == *file.name.as_slice())
}

/// The options in the file with this name, if all of its lines are good.
fn said_in(files: &[ConfigFile], name: &[u8]) -> Option<Said>
    ensures { option_map options_of result ≡ said_in files.now name.now }
{
    match file_named(files, name) {
        Some(file) => good_text(&file.text),
        None => None,
    }
}

/// The options of a module, if they are known.
fn policy_by(line: Said, files: &[ConfigFile], governor: &Governor) -> Option<Policy>
    ensures { option_map wanted_of result ≡ wanted_by (options_of line) files.now governor.now }
{
    match governor {
        Governor::Free => Some(policy_of(line, NOTHING)),
        Governor::File(name) => match said_in(files, name.as_slice()) {
            Some(said) => Some(policy_of(line, said)),
            None => None,
        },
        Governor::Unknown(_) => None,
    }
}

/// Appends a module with its policy, if that is known.
fn add_governed(
    line: Said,
    files: &[ConfigFile],
    placed: Placed,
    governed: &mut Vec<Governed>,
) -> Result<(), AllocError>
    ensures { OnOk result (map pair_of governed.new.items
        ≡ map pair_of governed.old.items ++ governed_in (options_of line) files.now placed) }
{
    let Some(policy) = policy_by(line, files, &placed.governor) else {
        return Ok(());
    };
    let one = Governed {
        module: placed.module,
        policy,
    };
    match governed.push(one) {
        Ok(()) => Ok(()),
        Err(_) => Err(AllocError),
    }
}

/// The modules whose policies are known.
pub(crate) fn governed_of(
    alloc: Global,
    line: Said,
    files: &[ConfigFile],
    placed: Vec<Placed>,
) -> Result<Vec<Governed>, AllocError>
    ensures { IfOk result (λ governed. map pair_of governed.items
        ≡ flat_map (governed_in (options_of line) files.now) placed.items) }
{
    let mut governed = Vec::new(alloc);
    for each in placed {
        add_governed(line, files, each, &mut governed)?;
    }
    Ok(governed)
}
