//! What all programs read alike in their words: options, flags, and the usage for a fault.

ghost use Rattle.std.specs.Prelude.{◌≡◌, false};
ghost use Rattle.clap.specs.Words.{kind_of, rule_of};
ghost use Rattle.command_line.specs.Arguments.{flag_rule, option_rule, usage_by};

use clap::error::ErrorKind;
use clap::{Arg, ArgAction, Error};
use std::alloc::Global;

/// The option `--NAME VALUE`.
pub fn option_named<'a>(alloc: Global, name: &'a str) -> Arg<'a>
    ensures rule { rule_of result ≡ option_rule name.entry.now }
    ensures local { result.global ≡ false }
{
    Arg::new(alloc, name).long(name).action(ArgAction::Set)
}

/// The flag `--NAME`.
pub fn flag_named<'a>(alloc: Global, name: &'a str) -> Arg<'a>
    ensures rule { rule_of result ≡ flag_rule name.entry.now }
    ensures local { result.global ≡ false }
{
    Arg::new(alloc, name).long(name).action(ArgAction::SetTrue)
}

/// The usage for a fault that clap finds.
pub fn usage_for<U: Copy>(error: &Error, memory: U, help: U, line: U) -> U
    ensures { result ≡ usage_by memory help line (kind_of error.now) }
{
    match error.kind() {
        ErrorKind::OutOfMemory => memory,
        ErrorKind::DisplayHelp => help,
        _ => line,
    }
}
