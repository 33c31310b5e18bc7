//! The files of a module, judged in turn.

ghost use Rattle.std.specs.Prelude.{◌≡◌, ◌≤◌, IfOk, length, map, string_bytes};
ghost use Rattle.file_tree.specs.Unchanged.{Unchanged};
ghost use Rattle.module_check.specs.Inner.Judging.{HaveStates};
ghost use Rattle.tf_rules.specs.Stored.{no_facts};
ghost use Rattle.tfrules_command.specs.Line.{max_files};

use crate::judge::state_of;
use crate::state::{FileState, size_with};
use file_tree::tree::Tree;
use std::alloc::{AllocError, Global};
use tf_rules::Facts;

/// The states of the files of these names, in order. The facts of those that are accepted are kept.
pub(crate) fn gather<T: Tree>(
    alloc: Global,
    names: &[String],
    facts: &mut Facts,
    tree: &mut T,
) -> Result<Vec<FileState>, AllocError>
    requires few { length names.now ≤ max_files }
    requires none { facts.old ≡ no_facts }
    ensures unchanged { Unchanged T.Tree tree.old tree.new }
    ensures judged { IfOk result (λ states. HaveStates
        (λ name. (T.files tree.old).told ((T.files tree.old).real name))
        (map string_bytes names.now) states.items facts.new) }
{
    let mut states = Vec::new(alloc);
    let mut size = 0;
    for number in 0..names.len() {
        let name = names[number].as_str();
        let state = state_of(alloc, number as u32, size, name, facts, tree)?;
        size = size_with(size, &state);
        states.push(state)?;
    }
    Ok(states)
}
