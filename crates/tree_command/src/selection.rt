//! The files that are taken, among those that names stand for.

ghost use Rattle.std.specs.Prelude.{◌≡◌};
ghost use Rattle.tree_command.specs.Inner.Asked.{request_of, selection_view};
ghost use Rattle.tree_command.specs.Line.{selection_of};

use crate::options::TreeOptions;
use file_tree::choice::Choice;
use tree_words::shard::Shard;

/// The files that are taken, among those that names stand for.
#[derive(Clone, Copy)]
pub struct Selection<'a> {
    /// The part that is taken, if several runs share the files.
    pub shard: Option<Shard>,
    /// The excluded paths, and whether a named file is taken whatever its name.
    pub choice: Choice<'a>,
}

/// The part of the files that these options take.
pub fn selection_of<'a>(options: &'a TreeOptions<'_>) -> Selection<'a>
    ensures { selection_view result ≡ selection_of (request_of options.now) }
{
    let choice = Choice {
        any_name: options.given.any_name,
        specials: false,
        excluded: options.given.excluded.as_slice(),
    };
    Selection {
        shard: options.shard,
        choice,
    }
}
