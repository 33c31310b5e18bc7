//! Flags that are set.

ghost use Rattle.std.specs.Prelude.{◌≡◌};
ghost use Rattle.clap.specs.Words.{found_of, rows_of};
ghost use Rattle.command_line.specs.Flags.{is_set};

use clap::ArgMatches;

/// Whether the words set the flag with this id.
pub fn is_flag_set(matches: &ArgMatches<'_>, id: &str) -> bool
    ensures { result ≡ is_set id.now (rows_of (found_of matches.now)) }
{
    match matches.get_str(id) {
        Some(text) => text == "true",
        None => false,
    }
}
