//! The contents of a line.

ghost use Rattle.std.specs.Prelude.{◌≡◌};
ghost use Rattle.module_config.specs.Lines.{with_line, with_option};
ghost use Rattle.module_config.specs.Inner.Given.{with_checks, with_force, with_minimum, with_naming, with_rules};
ghost use Rattle.module_config.specs.Options.{options_of};
ghost use Rattle.module_config.specs.Inner.Said.{said_by};

use crate::line_fault::ConfigFault;
use crate::line_parts::{parts, without_comment};
use crate::list::rules_in;
use crate::list_fault::ListFault;
use crate::said::Said;
use tfrules_command::options::{naming_of_text, severity_of_text};

/// These options and a list of rules.
fn with_rules(said: Said, list: &str) -> Result<Said, ConfigFault>
    ensures { said_by result ≡ with_rules (options_of said) list.now }
{
    if said.rules.is_some() {
        return Err(ConfigFault::GivenTwice);
    }
    match rules_in(list) {
        Ok(rules) => Ok(Said {
            rules: Some(rules),
            naming: said.naming,
            minimum: said.minimum,
            force: said.force,
            checks: said.checks,
        }),
        Err(ListFault::UnknownRule) => Err(ConfigFault::UnknownRule),
        Err(ListFault::NoneLeft) => Err(ConfigFault::NoRuleLeft),
    }
}

/// These options and a naming.
fn with_naming(said: Said, text: &str) -> Result<Said, ConfigFault>
    ensures { said_by result ≡ with_naming (options_of said) text.now }
{
    if said.naming.is_some() {
        return Err(ConfigFault::GivenTwice);
    }
    match naming_of_text(text) {
        Some(naming) => Ok(Said {
            rules: said.rules,
            naming: Some(naming),
            minimum: said.minimum,
            force: said.force,
            checks: said.checks,
        }),
        None => Err(ConfigFault::UnknownNaming),
    }
}

/// These options and a severity.
fn with_minimum(said: Said, text: &str) -> Result<Said, ConfigFault>
    ensures { said_by result ≡ with_minimum (options_of said) text.now }
{
    if said.minimum.is_some() {
        return Err(ConfigFault::GivenTwice);
    }
    match severity_of_text(text) {
        Some(minimum) => Ok(Said {
            rules: said.rules,
            naming: said.naming,
            minimum: Some(minimum),
            force: said.force,
            checks: said.checks,
        }),
        None => Err(ConfigFault::UnknownSeverity),
    }
}

/// These options and `--force`.
fn with_force(said: Said) -> Result<Said, ConfigFault>
    ensures { said_by result ≡ with_force (options_of said) }
{
    if said.force {
        return Err(ConfigFault::GivenTwice);
    }
    Ok(Said {
        rules: said.rules,
        naming: said.naming,
        minimum: said.minimum,
        force: true,
        checks: said.checks,
    })
}

/// These options and `--check-comments`.
fn with_checks(said: Said) -> Result<Said, ConfigFault>
    ensures { said_by result ≡ with_checks (options_of said) }
{
    if said.checks {
        return Err(ConfigFault::GivenTwice);
    }
    Ok(Said {
        rules: said.rules,
        naming: said.naming,
        minimum: said.minimum,
        force: said.force,
        checks: true,
    })
}

/// These options and one more.
fn with_option(said: Said, name: &str, value: &str) -> Result<Said, ConfigFault>
    ensures { said_by result ≡ with_option (options_of said) name.now value.now }
{
    if name == "--rules" {
        return with_rules(said, value);
    }
    if name == "--naming" {
        return with_naming(said, value);
    }
    if name == "--minimum-failure-severity" {
        return with_minimum(said, value);
    }
    if name == "--force" && value.is_empty() {
        return with_force(said);
    }
    if name == "--check-comments" && value.is_empty() {
        return with_checks(said);
    }
    Err(ConfigFault::UnknownOption)
}

/// These options and those of a line.
pub(crate) fn with_line(said: Said, line: &str) -> Result<Said, ConfigFault>
    ensures { said_by result ≡ with_line (options_of said) line.now }
{
    let text = without_comment(line);
    if text.is_empty() {
        return Ok(said);
    }
    let parts = parts(text);
    with_option(said, parts.name, parts.value)
}
