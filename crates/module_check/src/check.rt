//! The check of a module.

ghost use Rattle.std.specs.Prelude.{◌≡◌, ◌≤◌, IfOk, length, map, string_bytes};
ghost use Rattle.file_tree.specs.Unchanged.{Unchanged};
ghost use Rattle.module_check.specs.Checks.{IsChecked};
ghost use Rattle.tfrules_command.specs.Line.{max_files};

use crate::gather::gather;
use crate::state::FileState;
use crate::told::settings_told;
use file_tree::tree::Tree;
use std::alloc::{AllocError, Global};
use tf_rules::{Facts, Hashing, Issue, Settings, owned_issues};

/// The states of a module's files, and the issues of those that are accepted.
#[derive(Drop)]
pub struct Checked {
    pub files: Vec<FileState>,
    pub issues: Vec<Issue>,
}

/// Judges the files of these names in order, and lints all that are files of the language. An issue has the index of
/// its file's name as its number. Names in the files are hashed as `hashing` says.
///
/// # Errors
///
/// Memory ran out.
pub fn check_module<T: Tree>(
    alloc: Global,
    hashing: Hashing,
    names: &[String],
    settings: Settings,
    tree: &mut T,
) -> Result<Checked, AllocError>
    requires few { length names.now ≤ max_files }
    ensures unchanged { Unchanged T.Tree tree.old tree.new }
    ensures checked { IfOk result (λ checked. IsChecked
        (λ name. (T.files tree.old).told ((T.files tree.old).real name))
        (map string_bytes names.now) settings checked) }
{
    let mut facts = Facts::with_hashing(alloc, hashing)?;
    let files = gather(alloc, names, &mut facts, tree)?;
    let told = settings_told(settings, files.as_slice());
    let list = facts.issue_list(&told)?;
    let issues = owned_issues(alloc, &list)?;
    Ok(Checked { files, issues })
}
