//! The words of the command line.

ghost use Rattle.std.specs.Prelude.{◌≡◌, ◌⊎◌, codes, Err, IfOk, Some, map};
ghost use Rattle.clap.specs.Words.{app_of, found_of, rows_of};
ghost use Rattle.tree_command.specs.Inner.Asked.{result_request, given_of};
ghost use Rattle.tree_command.specs.Line.{request_by, request_of_rows, request_of_texts, given_by, mode_asked, mode_by, mode_of_texts, tffmt_all};
ghost use Rattle.tree_command.specs.Inner.Asked.{request_with, ending_by, has_names_twice};
ghost use Rattle.tree_command.specs.declared.usage.Usage.TheVariants.{OutOfMemory};
ghost use Rattle.tree_words.specs.Line.{texts_of};

use crate::usage::Usage;
use clap::{ArgMatches, Command};
use command_line::usage_for;
use file_tree::tree::Writing;
use std::alloc::{AllocError, Global};
use tree_format::mode::{Ending, Mode};
use tree_words::argument::{Argument, command_of};
use tree_words::jobs::are_jobs_good;
use tree_words::options::{is_given, names_in, names_of};
use tree_words::shard::{Shard, shard_of};

/// The parts of the words that are never wrong by themselves.
#[derive(Drop)]
pub struct Given<'a> {
    /// The names are read from standard input.
    pub null: bool,
    /// No message about the run as a whole is shown.
    pub quiet: bool,
    /// A named file is taken whatever its name.
    pub any_name: bool,
    /// Names and paths that are excluded.
    pub excluded: Vec<&'a [u8]>,
    /// The names of the line.
    pub names: Vec<&'a [u8]>,
}

/// The request in the words.
#[derive(Drop)]
pub struct TreeOptions<'a> {
    /// What to do with the files.
    pub mode: Mode,
    /// The part of the files that is taken, unless all are.
    pub shard: Option<Shard>,
    /// The other parts of the words.
    pub given: Given<'a>,
}

/// The command with its options.
fn command<'a>(alloc: Global) -> Result<Command<'a>, AllocError>
    ensures { IfOk result (λ c. app_of c ≡ tffmt_all) }
{
    command_of(
        alloc,
        "tffmt-all",
        &[
            Argument::Flag("check"),
            Argument::Flag("diff"),
            Argument::Flag("list"),
            Argument::Flag("in-place"),
            Argument::Flag("sync"),
            Argument::Flag("quiet"),
            Argument::Flag("any-name"),
            Argument::Flag("version"),
            Argument::Null,
            Argument::Value("shard"),
            Argument::Values("exclude"),
            Argument::Jobs,
            Argument::Names,
        ],
    )
}

/// The mode of these flags, if they may stand together.
fn mode_by(check: bool, diff: bool, list: bool, ending: Ending, writing: Writing) -> Option<Mode>
    ensures { result ≡ mode_by check diff list ending writing }
{
    match (check, diff, list) {
        (false, false, false) => Some(Mode::Write(writing)),
        (true, false, false) => Some(Mode::Check),
        (_, true, false) => Some(Mode::Diff),
        (false, false, true) => Some(Mode::List(ending)),
        _ => None,
    }
}

/// How a printed name ends.
fn ending_by(null: bool) -> Ending
    ensures { result ≡ ending_by null }
{
    if null { Ending::Null } else { Ending::Line }
}

/// The mode in the matches of a line.
fn mode_of(matches: &ArgMatches<'_>) -> Option<Mode>
    ensures { result ≡ mode_asked (rows_of (found_of matches.now)) }
{
    let writing = Writing {
        in_place: is_given(matches, "in-place"),
        sync: is_given(matches, "sync"),
    };
    let check = is_given(matches, "check");
    let diff = is_given(matches, "diff");
    let list = is_given(matches, "list");
    let ending = ending_by(is_given(matches, "null"));
    mode_by(check, diff, list, ending, writing)
}

/// Whether names are to come from standard input and the line has names too.
fn has_names_twice(given: &Given<'_>) -> bool
    ensures { result ≡ has_names_twice (given_of given.now) }
{
    given.null && !given.names.is_empty()
}

/// The options with these parts of a line.
fn options_by<'a>(
    mode: Option<Mode>,
    shard: Option<Option<Shard>>,
    are_jobs: bool,
    given: Given<'a>,
) -> Result<TreeOptions<'a>, Usage>
    ensures asked { result_request result ≡ request_by mode shard are_jobs (given_of given.entry) }
    ensures mode { IfOk result (λ options. mode ≡ Some options.mode) }
{
    let Some(mode) = mode else {
        return Err(Usage::TwoModes);
    };
    let Some(shard) = shard else {
        return Err(Usage::BadPart);
    };
    if !are_jobs {
        return Err(Usage::BadJobs);
    }
    if has_names_twice(&given) {
        return Err(Usage::NamesTwice);
    }
    Ok(TreeOptions { mode, shard, given })
}

/// The options in the matches of a line, whose other parts are given.
fn options_with<'a>(given: Given<'a>, matches: &ArgMatches<'a>) -> Result<TreeOptions<'a>, Usage>
    ensures asked { result_request result
        ≡ request_with (rows_of (found_of matches.now)) (given_of given.entry) }
    ensures mode { IfOk result
        (λ options. mode_asked (rows_of (found_of matches.now)) ≡ Some options.mode) }
{
    let mode = mode_of(matches);
    let shard = shard_of(matches);
    options_by(mode, shard, are_jobs_good(matches), given)
}

/// The excluded paths in the matches of a line.
fn excluded_in<'a>(alloc: Global, matches: &ArgMatches<'a>) -> Result<Vec<&'a [u8]>, AllocError>
    ensures { IfOk result (λ names. map (λ name. name.now) names.items
        ≡ texts_of (codes "exclude") (rows_of (found_of matches.now))) }
{
    match matches.get_strs("exclude") {
        Some(given) => names_of(alloc, given, &[]),
        None => Ok(Vec::new(alloc)),
    }
}

/// The parts of a line that are never wrong by themselves: from its matches, and with these names besides.
fn given_in<'a>(
    alloc: Global,
    others: &[&'a [u8]],
    matches: &ArgMatches<'a>,
) -> Result<Given<'a>, AllocError>
    ensures { IfOk result (λ given. given_of given
        ≡ given_by (map (λ name. name.now) others.now) (rows_of (found_of matches.now))) }
{
    let excluded = excluded_in(alloc, matches)?;
    let names = names_in(alloc, others, matches)?;
    Ok(Given {
        null: is_given(matches, "null"),
        quiet: is_given(matches, "quiet"),
        any_name: is_given(matches, "any-name"),
        excluded,
        names,
    })
}

/// The options in the matches of a line, with these names besides.
fn options_of<'a>(
    alloc: Global,
    others: &[&'a [u8]],
    matches: &ArgMatches<'a>,
) -> Result<TreeOptions<'a>, Usage>
    ensures asked { (result ≡ Err OutOfMemory)
        ⊎ (result_request result ≡ request_of_rows (map (λ name. name.now) others.now)
        (rows_of (found_of matches.now))) }
    ensures mode { IfOk result
        (λ options. mode_asked (rows_of (found_of matches.now)) ≡ Some options.mode) }
{
    if is_given(matches, "version") {
        return Err(Usage::Version);
    }
    match given_in(alloc, others, matches) {
        Ok(given) => options_with(given, matches),
        Err(_) => Err(Usage::OutOfMemory),
    }
}

/// The options in the words, with the program's name first, and with the other words as names, or their usage. If
/// memory runs out it returns `OutOfMemory`.
pub fn options<'a>(
    alloc: Global,
    words: &'a [&'a str],
    others: &[&'a [u8]],
) -> Result<TreeOptions<'a>, Usage>
    ensures asked { (result ≡ Err OutOfMemory)
        ⊎ (result_request result ≡ request_of_texts (map (λ word. word.now) words.entry.now)
        (map (λ name. name.now) others.now)) }
    // The mode is the one that the words request.
    ensures mode { IfOk result
        (λ options. mode_of_texts (map (λ word. word.now) words.entry.now) ≡ Some options.mode) }
{
    let Ok(command) = command(alloc) else {
        return Err(Usage::OutOfMemory);
    };
    match command.try_get_matches_from(words) {
        Ok(matches) => options_of(alloc, others, &matches),
        Err(error) => Err(usage_for(&error, Usage::OutOfMemory, Usage::Help, Usage::BadLine)),
    }
}
