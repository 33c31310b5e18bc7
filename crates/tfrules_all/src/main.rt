//! `tfrules-all` lints the modules of folders, each by itself.
#![tactic(auto)]

ghost use Rattle.std.specs.Prelude.{◌≡◌, false};

use command_line::Streams;
use hcl_scan::{ByteSink, FromRead, ToWrite};
use lint_command::run::program;
use std::hash::RandomState;
use std::io::IsTerminal;
use std::process::ExitCode;
use system_tree::patient::Patient;
use system_tree::system::SystemTree;
use system_tree::words::{borrowed_words, process_words};
use tfrules_command::Hashing;
use tree_lint::module_tree::ModuleTree;
use tree_lint::written::Terminals;

/// The status of a run that got no words, or no seed for hashing names: nothing is printed.
const NO_WORDS: u8 = 1;

fn main(rt: HostRuntime) -> ExitCode {
    let mut streams = Streams {
        out: ToWrite::new(Patient::new(rt.stdout())),
        err: ToWrite::new(Patient::new(rt.stderr())),
    };
    let status = match process_words(&rt) {
        Ok(words) if !words.is_empty() => lint(&rt, words.as_slice(), &mut streams),
        _ => NO_WORDS,
    };
    ExitCode::from(status)
}

/// Runs the program with these words over the system's files. Names could be made that collide under a known seed, so
/// without a seed of its own the run reads nothing.
fn lint<O: ByteSink, E: ByteSink>(
    rt: &HostRuntime,
    words: &[Vec<u8>],
    streams: &mut Streams<O, E>,
) -> u8
    requires out { O.failed streams.old.out ≡ false }
    requires err { E.failed streams.old.err ≡ false }
{
    let Ok(words) = borrowed_words(rt.alloc(), words) else {
        return NO_WORDS;
    };
    let Ok(own) = rt.clone() else {
        return NO_WORDS;
    };
    let Ok(seed) = RandomState::new(rt) else {
        return NO_WORDS;
    };
    let mut files = ModuleTree::new(SystemTree::new(own), Hashing::with_seed(seed));
    let mut input = FromRead::new(rt.stdin());
    let terminals = Terminals {
        out: rt.stdout().is_terminal(),
        err: rt.stderr().is_terminal(),
    };
    program(
        rt.alloc(),
        words.as_slice(),
        terminals,
        &mut files,
        &mut input,
        streams,
    )
}
