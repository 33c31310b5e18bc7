//! `tfls` answers an editor over standard input and standard output, as the Language Server Protocol has it.
#![tactic(auto)]

mod system_disk;

use crate::system_disk::SystemDisk;
use command_line::{NoWords, borrowed_words, process_words};
use hcl_source::{FromRead, ToWrite};
use std::hash::RandomState;
use std::process::ExitCode;
use tf_rules::Hashing;
use tfls_command::host::Host;
use tfls_command::run::{bad_line, program};

/// The status of a run that got no words, or no seed for hashing names: nothing is printed.
const NO_WORDS: u8 = 1;

/// What the server has of this machine. Names could be made that collide under a known seed, so there is no host without
/// a seed of its own.
fn host_of(rt: &HostRuntime) -> Option<Host<SystemDisk>> {
    let Ok(own) = rt.clone() else {
        return None;
    };
    match RandomState::new(rt) {
        Ok(seed) => Some(Host {
            disk: SystemDisk::new(own),
            hashing: Hashing::with_seed(seed),
        }),
        Err(_) => None,
    }
}

fn main(rt: HostRuntime) -> ExitCode {
    let alloc = rt.alloc();
    let mut input = FromRead::new(rt.stdin());
    let mut out = ToWrite::new(rt.stdout());
    let mut err = ToWrite::new(rt.stderr());
    let owned = match process_words(&rt) {
        Ok(owned) => owned,
        Err(NoWords::NotUtf8) => return ExitCode::from(bad_line(&mut out, &mut err)),
        Err(NoWords::NotGiven) => return ExitCode::from(NO_WORDS),
    };
    let Ok(words) = borrowed_words(alloc, owned.as_slice()) else {
        return ExitCode::from(NO_WORDS);
    };
    let Some(host) = host_of(&rt) else {
        return ExitCode::from(NO_WORDS);
    };
    let status = program(
        alloc,
        &host,
        words.as_slice(),
        &mut input,
        &mut out,
        &mut err,
    );
    ExitCode::from(status)
}
