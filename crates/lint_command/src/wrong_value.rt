//! The messages about values of options that mean nothing.

ghost use Rattle.std.specs.Prelude.{◌≡◌, ◌++◌, ◌⊎◌, [], IfOk, codes, false, map, unwrap_or};
ghost use Rattle.clap.specs.Words.{first_of, found_of, rows_of};
ghost use Rattle.command_line.specs.Rows.{end_of_streams, error_line, out_of_memory};
ghost use Rattle.file_tree.specs.Quotes.{in_quotes};
ghost use Rattle.lint_command.specs.Ends.{value_in, wrong_value};
ghost use Rattle.lint_command.specs.Inner.Runs.{SaysOnly};
ghost use Rattle.module_config.specs.Lists.{unknown_in};
ghost use Rattle.module_find.specs.Refusals.{tree_linter};

use crate::options::command;
use crate::words::tree_linter;
use clap::ArgMatches;
use command_line::Streams;
use file_tree::quote::push_in_quotes;
use hcl_scan::ByteSink;
use module_config::unknown_in;
use std::alloc::{AllocError, Global};

/// The value of an option in the matches of a line.
fn value_in<'w>(matches: &ArgMatches<'w>, option: &str) -> &'w str
    ensures { result.now
        ≡ unwrap_or (first_of option.now (rows_of (found_of matches.now))) [] }
{
    match matches.get_str(option) {
        Some(value) => value,
        None => "",
    }
}

/// The value of an option of a line that clap accepts.
fn value_of<'w>(alloc: Global, words: &'w [&'w str], option: &str) -> Result<&'w str, AllocError>
    ensures { IfOk result (λ value. value.now
        ≡ value_in (map (λ word. word.now) words.entry.now) option.now) }
{
    let command = command(alloc)?;
    match command.try_get_matches_from(words) {
        Ok(matches) => Ok(value_in(&matches, option)),
        // The line was accepted before, so memory ran out.
        Err(_) => Err(AllocError),
    }
}

/// The line about a value that means nothing.
fn value_line(alloc: Global, front: &str, value: &str) -> Result<Vec<u8>, AllocError>
    ensures { IfOk result (λ text. text.items
        ≡ error_line tree_linter (front.now ++ in_quotes value.now)) }
{
    let mut text = Vec::from_slice(alloc, b"tfrules-all: error: ")?;
    text.extend_from_slice(front.as_bytes())?;
    push_in_quotes(&mut text, value.as_bytes())?;
    text.extend_from_slice(b"\n")?;
    Ok(text)
}

/// Shows that a value means nothing.
fn tell_value<O: ByteSink, E: ByteSink>(
    alloc: Global,
    front: &str,
    value: &str,
    streams: &mut Streams<O, E>,
) -> u8
    requires out { O.failed streams.old.out ≡ false }
    requires err { E.failed streams.old.err ≡ false }
    ensures { SaysOnly (out_of_memory tree_linter)
        (end_of_streams O.ByteSink E.ByteSink streams.old streams.new result)
        ⊎ SaysOnly (wrong_value front.now value.now)
        (end_of_streams O.ByteSink E.ByteSink streams.old streams.new result) }
{
    match value_line(alloc, front, value) {
        Ok(text) => streams.tell_bytes(&tree_linter(), text.as_slice(), 1),
        Err(_) => streams.tell_out_of_memory(&tree_linter()),
    }
}

/// Shows that the value of an option means nothing.
pub(crate) fn wrong_value<O: ByteSink, E: ByteSink>(
    alloc: Global,
    words: &[&str],
    option: &str,
    front: &str,
    streams: &mut Streams<O, E>,
) -> u8
    requires out { O.failed streams.old.out ≡ false }
    requires err { E.failed streams.old.err ≡ false }
    ensures { SaysOnly (out_of_memory tree_linter)
        (end_of_streams O.ByteSink E.ByteSink streams.old streams.new result)
        ⊎ SaysOnly (wrong_value front.now
        (value_in (map (λ word. word.now) words.now) option.now))
        (end_of_streams O.ByteSink E.ByteSink streams.old streams.new result) }
{
    match value_of(alloc, words, option) {
        Ok(value) => tell_value(alloc, front, value, streams),
        Err(_) => streams.tell_out_of_memory(&tree_linter()),
    }
}

/// Shows which name after `--rules` means no rule.
pub(crate) fn unknown_rule<O: ByteSink, E: ByteSink>(
    alloc: Global,
    words: &[&str],
    streams: &mut Streams<O, E>,
) -> u8
    requires out { O.failed streams.old.out ≡ false }
    requires err { E.failed streams.old.err ≡ false }
    ensures { SaysOnly (out_of_memory tree_linter)
        (end_of_streams O.ByteSink E.ByteSink streams.old streams.new result)
        ⊎ SaysOnly (wrong_value (codes "unknown rule ")
        (unknown_in (value_in (map (λ word. word.now) words.now) (codes "rules"))))
        (end_of_streams O.ByteSink E.ByteSink streams.old streams.new result) }
{
    match value_of(alloc, words, "rules") {
        Ok(list) => tell_value(alloc, "unknown rule ", unknown_in(list), streams),
        Err(_) => streams.tell_out_of_memory(&tree_linter()),
    }
}
