//! The arguments of a command line, and the command with them.

ghost use Rattle.std.specs.Prelude.{◌≡◌, false, IfOk};
ghost use Rattle.clap.specs.Words.{app_of, rule_of};
ghost use Rattle.tree_words.specs.Line.{argument_rule, command_by, repeated_rule};

use crate::jobs::jobs;
use crate::options::{counted_flag, file, null};
use clap::{Arg, ArgAction, Command};
use command_line::option_named;
use std::alloc::{AllocError, Global};

/// An argument of a line.
#[derive(Clone, Copy)]
pub enum Argument<'a> {
    /// `--NAME VALUE`.
    Value(&'a str),
    /// `--NAME VALUE`, which may be given more than once.
    Values(&'a str),
    /// `--NAME`, which may be given more than once.
    Flag(&'a str),
    /// `-0` and `--null`.
    Null,
    /// `-j NUMBER` and `--jobs NUMBER`.
    Jobs,
    /// Files and folders.
    Names,
}

/// The option `--NAME VALUE`, which may be given more than once.
fn repeated_option<'a>(alloc: Global, name: &'a str) -> Arg<'a>
    ensures rule { rule_of result ≡ repeated_rule name.entry.now }
    ensures local { result.global ≡ false }
{
    Arg::new(alloc, name).long(name).action(ArgAction::Append)
}

fn arg_for<'a>(alloc: Global, argument: Argument<'a>) -> Arg<'a>
    ensures rule { rule_of result ≡ argument_rule argument.entry }
    ensures local { result.global ≡ false }
{
    match argument {
        Argument::Value(name) => option_named(alloc, name),
        Argument::Values(name) => repeated_option(alloc, name),
        Argument::Flag(name) => counted_flag(alloc, name),
        Argument::Null => null(alloc),
        Argument::Jobs => jobs(alloc),
        Argument::Names => file(alloc),
    }
}

/// The command of this name with these arguments, in this order. They are a list, since a chain of calls with a `?` after
/// each takes the prover four seconds more for each.
pub fn command_of<'a>(
    alloc: Global,
    name: &'a str,
    arguments: &[Argument<'a>],
) -> Result<Command<'a>, AllocError>
    ensures { IfOk result (λ c. app_of c ≡ command_by name.entry.now arguments.now) }
{
    let mut command = Command::new(alloc, name);
    for argument in arguments {
        command = command.arg(arg_for(alloc, *argument))?;
    }
    Ok(command)
}
