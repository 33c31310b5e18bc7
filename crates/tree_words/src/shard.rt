//! A part of the files, if several machines share them, and the values of `--shard`.

ghost use Rattle.std.specs.Prelude.{◌≡◌, codes, option_map};
ghost use Rattle.clap.specs.Words.{first_of, found_of, rows_of};
ghost use Rattle.tree_words.specs.Line.{shard_by, shard_given, shard_in};

use crate::number::number_in;
use clap::ArgMatches;

/// The K-th of N parts of the files.
#[derive(Clone, Copy)]
pub struct Shard {
    pub number: u32,
    pub count: u32,
}

/// The part with this number and count.
fn shard_by(number: Option<u32>, count: Option<u32>) -> Option<Shard>
    ensures { result ≡ shard_by number count }
{
    let Some(number) = number else {
        return None;
    };
    let Some(count) = count else {
        return None;
    };
    if number < 1 || count < number {
        return None;
    }
    Some(Shard { number, count })
}

/// The part that `K/N` names.
fn shard_in(text: &str) -> Option<Shard>
    ensures { result ≡ shard_in text.now }
{
    match text.split_once('/') {
        Some((number, count)) => shard_by(number_in(number), number_in(count)),
        None => None,
    }
}

/// The part that a text names, or nothing if it names none. Without a text there is no part.
fn shard_given(text: Option<&str>) -> Option<Option<Shard>>
    ensures { result ≡ shard_given (option_map (λ text. text.now) text.entry) }
{
    match text {
        Some(text) => match shard_in(text) {
            Some(shard) => Some(Some(shard)),
            None => None,
        },
        None => Some(None),
    }
}

/// The part in the matches of a line.
pub fn shard_of(matches: &ArgMatches<'_>) -> Option<Option<Shard>>
    ensures { result ≡ shard_given (first_of (codes "shard") (rows_of (found_of matches.now))) }
{
    shard_given(matches.get_str("shard"))
}
