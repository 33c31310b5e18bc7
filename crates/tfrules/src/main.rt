//! `tfrules` lints the files of a Terraform module.
#![tactic(auto)]

ghost use Rattle.std.specs.Prelude.{◌≡◌, false};

mod system_files;

use crate::system_files::SystemFiles;
use command_line::{NoWords, borrowed_words, process_words};
use hcl_scan::{ByteSink, ToWrite};
use std::hash::RandomState;
use std::process::ExitCode;
use tfrules_command::run::{bad_line, program};

/// The status of a run that got no words: nothing is printed.
const NO_WORDS: u8 = 1;

/// Passes the process's words, its files and its streams to the program. The report comes in pages, so standard output needs
/// no buffer.
fn main(rt: HostRuntime) -> ExitCode {
    let mut out = ToWrite::new(rt.stdout());
    let mut err = ToWrite::new(rt.stderr());
    let status = match process_words(&rt) {
        Ok(words) => lint_files(&rt, words.as_slice(), &mut out, &mut err),
        Err(NoWords::NotUtf8) => bad_line(&mut out, &mut err),
        Err(NoWords::NotGiven) => NO_WORDS,
    };
    ExitCode::from(status)
}

/// Runs the program with these words over the system's files.
fn lint_files<O: ByteSink, E: ByteSink>(
    rt: &HostRuntime,
    words: &[String],
    out: &mut O,
    err: &mut E,
) -> u8
    requires out { O.failed out.old ≡ false }
    requires err { E.failed err.old ≡ false }
{
    let Ok(words) = borrowed_words(rt.alloc(), words) else {
        return NO_WORDS;
    };
    let Ok(own) = rt.clone() else {
        return NO_WORDS;
    };
    let mut files = SystemFiles::new(own, RandomState::new(rt).ok());
    program(rt.alloc(), words.as_slice(), &mut files, out, err)
}
