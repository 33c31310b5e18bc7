//! The words of the command line.

ghost use Rattle.std.specs.Prelude.{◌≡◌, ◌⊎◌, Err, IfOk, map};
ghost use Rattle.clap.specs.Words.{app_of};
ghost use Rattle.tfls_command.specs.Line.{request_of, tfls};
ghost use Rattle.tfls_command.specs.declared.options.Usage.TheVariants.{OutOfMemory};

use clap::Command;
use command_line::{flag_named, usage_for};
use std::alloc::{AllocError, Global};

/// Why the words don't ask for the server.
#[derive(Clone, Copy, Debug, PartialEq, Eq)]
pub enum Usage {
    /// They ask for help.
    Help,
    /// They are no line of this program.
    BadLine,
    /// Memory ran out.
    OutOfMemory,
}

/// The command `tfls [--stdio] [--help]`.
fn command<'a>(alloc: Global) -> Result<Command<'a>, AllocError>
    ensures { IfOk result (λ c. app_of c ≡ tfls) }
{
    Command::new(alloc, "tfls").arg(flag_named(alloc, "stdio"))
}

/// Whether the words, with the program's name first, ask for the server, or their usage. If memory runs out it returns
/// `OutOfMemory`.
pub fn request(alloc: Global, words: &[&str]) -> Result<(), Usage>
    ensures { (result ≡ Err OutOfMemory)
        ⊎ (result ≡ request_of (map (λ word. word.now) words.now)) }
{
    let Ok(command) = command(alloc) else {
        return Err(Usage::OutOfMemory);
    };
    match command.try_get_matches_from(words) {
        Ok(_) => Ok(()),
        Err(error) => Err(usage_for(&error, Usage::OutOfMemory, Usage::Help, Usage::BadLine)),
    }
}
