//! The number of jobs, which a line may give, but which has no effect.

ghost use Rattle.std.specs.Prelude.{◌≡◌, false, map};
ghost use Rattle.std.specs.List.{list_all};
ghost use Rattle.clap.specs.Words.{found_of, rows_of, rule_of};
ghost use Rattle.tree_words.specs.Line.{are_jobs_good, is_jobs, jobs_rule};

use crate::number::number_in;
use clap::{Arg, ArgAction, ArgMatches};
use std::alloc::Global;

const MAX_JOBS: u32 = 9_999;

/// `-j NUMBER` and `--jobs NUMBER`.
pub(crate) fn jobs<'a>(alloc: Global) -> Arg<'a>
    ensures rule { rule_of result ≡ jobs_rule }
    ensures local { result.global ≡ false }
{
    Arg::new(alloc, "jobs")
        .long("jobs")
        .short('j')
        .action(ArgAction::Append)
}

/// Whether a text is a number of jobs.
fn is_jobs(text: &str) -> bool
    ensures { result ≡ is_jobs text.now }
{
    match number_in(text) {
        Some(number) => number <= MAX_JOBS,
        None => false,
    }
}

fn are_jobs(texts: &[&str]) -> bool
    ensures { result ≡ list_all (λ text. is_jobs text.now) texts.now }
{
    texts.iter().all(|text| is_jobs(text))
}

/// Whether each number of jobs in a line is one.
pub fn are_jobs_good(matches: &ArgMatches<'_>) -> bool
    ensures { result ≡ are_jobs_good (rows_of (found_of matches.now)) }
{
    match matches.get_strs("jobs") {
        Some(texts) => are_jobs(texts),
        None => true,
    }
}
