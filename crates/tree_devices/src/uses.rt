//! Walks over the trees of this crate: the promises of `find` for a tree that tells hold for these.

ghost use Rattle.std.specs.Prelude.{◌≡◌, [], IfOk, Some, map};
ghost use Rattle.file_tree.specs.Choices.{choice_view};
ghost use Rattle.file_tree.specs.Finds.{Finds};
ghost use Rattle.tree_devices.specs.Uses.{AreOfCalls};

use crate::memory_tree::MemoryTree;
use crate::planned_tree::PlannedTree;
use file_tree::choice::Choice;
use file_tree::tree::Tree;
use file_tree::walk::{Found, find};
use std::alloc::{AllocError, Global};

/// What paths stand for in a tree whose calls fail by a plan.
pub fn find_planned<'a>(
    alloc: Global,
    choice: Choice<'_>,
    paths: &[&[u8]],
    tree: &mut PlannedTree<'a>,
) -> Result<Vec<Found>, AllocError>
    requires fresh { ⟦<PlannedTree<'a> as Tree>⟧.faults tree.old ≡ Some [] }
    ensures real { IfOk result (λ found. AreOfCalls (⟦<PlannedTree<'a> as Tree>⟧.files tree.old)
        (choice_view choice.entry) (map (λ path. path.now) paths.now)
        (⟦<PlannedTree<'a> as Tree>⟧.faults tree.new) found.items) }
{
    find(alloc, choice, paths, tree)
}

/// What paths stand for in a tree that tells its names and its folders.
pub fn find_stored<'a>(
    alloc: Global,
    choice: Choice<'_>,
    paths: &[&[u8]],
    tree: &mut MemoryTree<'a>,
) -> Result<Vec<Found>, AllocError>
    ensures finds { IfOk result (λ found. Finds (⟦<MemoryTree<'a> as Tree>⟧.files tree.old)
        (choice_view choice.entry) (map (λ path. path.now) paths.now) found.items) }
{
    find(alloc, choice, paths, tree)
}
