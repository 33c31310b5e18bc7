//! Jobs that users of the programs wait for, on texts that are made from a seed: `workloads JOB TURNS SEED` runs one
//! this many times, each on other texts, and prints a digest of all output. `bench/run OLD NEW` times it.
#![tactic(auto)]

mod digest;
mod draw;
mod formatter;
mod fragments;
mod linter;
mod made_text;
mod texts;
mod trees;

use crate::digest::Digest;
use crate::texts::Maker;
use command_line::process_words;
use std::alloc::AllocError;
use std::hash::RandomState;
use std::process::ExitCode;
use tfrules_command::Hashing;

/// The request of a run.
#[derive(Clone, Copy)]
struct Task<'a> {
    job: &'a str,
    turns: u64,
    seed: u64,
}

/// The task in these words, with the program's name first.
fn task_of(words: &[String]) -> Option<Task<'_>> {
    let [_, job, turns, seed] = words else {
        return None;
    };
    let turns = turns.as_str().parse::<u32>().ok()?;
    let seed = seed.as_str().parse::<u32>().ok()?;
    Some(Task {
        job: job.as_str(),
        turns: turns as u64,
        seed: seed as u64,
    })
}

/// Runs a job, and returns the digest of the programs' output, or nothing if there is no such job.
fn digest_of(rt: &HostRuntime, task: Task<'_>) -> Result<Option<Digest>, AllocError> {
    let alloc = rt.alloc();
    let hashing = match RandomState::new(rt) {
        Ok(seed) => Hashing::with_seed(seed),
        Err(_) => Hashing::with_shared_seed(),
    };
    let mut maker = Maker::new(task.seed);
    let mut digest = Digest::new();
    match task.job {
        "formatted" => formatter::format_tidy(alloc, task.turns, &mut maker, &mut digest)?,
        "unformatted" => formatter::format_messy(alloc, task.turns, &mut maker, &mut digest)?,
        "awkward" => formatter::format_awkward(alloc, task.turns, &mut maker, &mut digest)?,
        "tree" => trees::format_trees(alloc, task.turns, task.seed, &mut digest)?,
        "module" => linter::lint_modules(alloc, hashing, task.turns, &mut maker, &mut digest)?,
        "modules" => trees::lint_trees(alloc, hashing, task.turns, task.seed, &mut digest)?,
        _ => return Ok(None),
    }
    Ok(Some(digest))
}

fn main(rt: HostRuntime) -> ExitCode {
    let Ok(words) = process_words(&rt) else {
        return ExitCode::from(1);
    };
    let Some(task) = task_of(words.as_slice()) else {
        return ExitCode::from(2);
    };
    let Ok(Some(digest)) = digest_of(&rt, task) else {
        return ExitCode::from(3);
    };
    let job = task.job;
    let (mixed, length) = digest.value();
    match println!(rt; "{job}: {mixed:016x} of {length} bytes") {
        Ok(()) => ExitCode::SUCCESS,
        Err(_) => ExitCode::from(1),
    }
}
