//! The words of the command line.

ghost use Rattle.std.specs.Prelude.{◌≡◌, ◌⊎◌, Err, IfOk, map};
ghost use Rattle.clap.specs.Words.{app_of};
ghost use Rattle.tffmt_command.specs.Line.{options_of, tffmt};
ghost use Rattle.tffmt_command.specs.declared.options.Usage.TheVariants.{OutOfMemory};

use clap::Command;
use command_line::{flag_named, is_flag_set, usage_for};
use std::alloc::{AllocError, Global};

/// The request in the words.
#[derive(Clone, Copy, Debug, PartialEq, Eq)]
pub struct FmtOptions {
    /// Report by the status whether the input is formatted, instead of printing it.
    pub check: bool,
}

/// Why there are no options.
#[derive(Clone, Copy, Debug, PartialEq, Eq)]
pub enum Usage {
    /// The words ask for help.
    Help,
    /// The words are no line of this program.
    BadLine,
    /// Memory ran out.
    OutOfMemory,
}

/// The command `tffmt [--check] [--help]`.
fn command<'a>(alloc: Global) -> Result<Command<'a>, AllocError>
    ensures { IfOk result (λ c. app_of c ≡ tffmt) }
{
    Command::new(alloc, "tffmt").arg(flag_named(alloc, "check"))
}

/// The options in the words, with the program's name first, or their usage. If memory runs out it returns
/// `OutOfMemory`.
pub fn options(alloc: Global, words: &[&str]) -> Result<FmtOptions, Usage>
    ensures { (result ≡ Err OutOfMemory)
        ⊎ (result ≡ options_of (map (λ word. word.now) words.now)) }
{
    let Ok(command) = command(alloc) else {
        return Err(Usage::OutOfMemory);
    };
    match command.try_get_matches_from(words) {
        Ok(matches) => Ok(FmtOptions {
            check: is_flag_set(&matches, "check"),
        }),
        Err(error) => Err(usage_for(&error, Usage::OutOfMemory, Usage::Help, Usage::BadLine)),
    }
}
