//! Options that the lines of both programs have, and the names in a line.

ghost use Rattle.std.specs.Prelude.{◌≡◌, ◌++◌, codes, false, IfOk, map};
ghost use Rattle.clap.specs.Words.{found_of, rows_of, rule_of};
ghost use Rattle.tree_words.specs.Line.{count_rule, file_rule, is_given, null_rule, texts_of};

use clap::{Arg, ArgAction, ArgMatches};
use std::alloc::{AllocError, Global};

/// The flag `--NAME`, which may be given more than once.
pub(crate) fn counted_flag<'a>(alloc: Global, name: &'a str) -> Arg<'a>
    ensures rule { rule_of result ≡ count_rule name.entry.now }
    ensures local { result.global ≡ false }
{
    Arg::new(alloc, name).long(name).action(ArgAction::Count)
}

/// `-0` and `--null`.
pub(crate) fn null<'a>(alloc: Global) -> Arg<'a>
    ensures rule { rule_of result ≡ null_rule }
    ensures local { result.global ≡ false }
{
    Arg::new(alloc, "null")
        .long("null")
        .short('0')
        .action(ArgAction::Count)
}

/// Files and folders.
pub(crate) fn file<'a>(alloc: Global) -> Arg<'a>
    ensures rule { rule_of result ≡ file_rule }
    ensures local { result.global ≡ false }
{
    Arg::new(alloc, "file").action(ArgAction::Append)
}

/// Whether a flag is given.
pub fn is_given(matches: &ArgMatches<'_>, name: &str) -> bool
    ensures { result ≡ is_given name.now (rows_of (found_of matches.now)) }
{
    matches.get_count(name) > 0
}

/// The names in a line: those that clap found, and the others.
pub fn names_of<'a>(
    alloc: Global,
    given: &[&'a str],
    others: &[&'a [u8]],
) -> Result<Vec<&'a [u8]>, AllocError>
    ensures { IfOk result
        (λ names. map (λ name. name.now) names.items ≡ map (λ name. name.now) given.now
        ++ map (λ name. name.now) others.now) }
{
    let mut names = Vec::new(alloc);
    for name in given {
        if names.push(name.as_bytes()).is_err() {
            return Err(AllocError);
        }
    }
    names.extend_from_slice(others)?;
    Ok(names)
}

/// All names in a line with these matches.
pub fn names_in<'a>(
    alloc: Global,
    others: &[&'a [u8]],
    matches: &ArgMatches<'a>,
) -> Result<Vec<&'a [u8]>, AllocError>
    ensures { IfOk result
        (λ names. map (λ name. name.now) names.items
        ≡ texts_of (codes "file") (rows_of (found_of matches.now))
        ++ map (λ name. name.now) others.now) }
{
    match matches.get_strs("file") {
        Some(given) => names_of(alloc, given, others),
        None => names_of(alloc, &[], others),
    }
}
