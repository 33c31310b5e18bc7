//! `tffmt-all` formats the files of folders in place, or checks them.
#![tactic(auto)]

ghost use Rattle.std.specs.Prelude.{◌≡◌, false};

mod progress_line;

use crate::progress_line::ProgressLine;
use command_line::Streams;
use hcl_scan::{ByteSink, FromRead, ToWrite};
use std::process::ExitCode;
use system_tree::patient::Patient;
use system_tree::system::SystemTree;
use system_tree::words::{borrowed_words, process_words};
use tree_command::run::program;

/// The status of a run that got no words: nothing is printed.
const NO_WORDS: u8 = 4;

fn main(rt: HostRuntime) -> ExitCode {
    let mut streams = Streams {
        out: ToWrite::new(Patient::new(rt.stdout())),
        err: ToWrite::new(Patient::new(rt.stderr())),
    };
    let status = match process_words(&rt) {
        Ok(words) if !words.is_empty() => run_over(&rt, words.as_slice(), &mut streams),
        _ => NO_WORDS,
    };
    ExitCode::from(status)
}

/// Runs the program with these words over the system's files.
fn run_over<O: ByteSink, E: ByteSink>(
    rt: &HostRuntime,
    words: &[Vec<u8>],
    streams: &mut Streams<O, E>,
) -> u8
    requires out { O.failed streams.old.out ≡ false }
    requires err { E.failed streams.old.err ≡ false }
{
    let Ok(words) = borrowed_words(rt.alloc(), words) else {
        return NO_WORDS;
    };
    let Ok(own) = rt.clone() else {
        return NO_WORDS;
    };
    let Ok(watching) = rt.clone() else {
        return NO_WORDS;
    };
    let mut tree = SystemTree::new(own);
    let mut progress = ProgressLine::new(watching);
    let mut input = FromRead::new(rt.stdin());
    program(
        rt.alloc(),
        words.as_slice(),
        &mut tree,
        &mut progress,
        &mut input,
        streams,
    )
}
