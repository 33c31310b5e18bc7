//! Names that can't be looked at and are reported.

ghost use Rattle.std.specs.Prelude.{◌≡◌};
ghost use Rattle.module_find.specs.Modules.{is_dead_link, is_lost, is_missing, is_no_matter, is_other_file};

use crate::names::is_module_file;
use file_tree::fault::TreeFault;
use file_tree::names::is_taken;
use file_tree::walk::Found;

pub(crate) fn is_missing(fault: TreeFault) -> bool
    ensures { result ≡ is_missing fault }
{
    matches!(fault, TreeFault::Missing)
}

fn is_dead_link(fault: TreeFault) -> bool
    ensures { result ≡ is_dead_link fault }
{
    matches!(fault, TreeFault::DeadLink)
}

/// Whether files of this name are formatted, and aren't a module's.
fn is_other_file(name: &[u8]) -> bool
    ensures { result ≡ is_other_file name.now }
{
    is_taken(name) && !is_module_file(name)
}

/// A link that leads nowhere doesn't matter under the name of a file that no module has, such as `terraform.tfvars`.
fn is_no_matter(fault: TreeFault, name: &[u8]) -> bool
    ensures { result ≡ is_no_matter fault name.now }
{
    is_dead_link(fault) && is_other_file(name)
}

/// Whether it is reported that this name can't be looked at.
pub(crate) fn is_lost(found: &Found) -> bool
    ensures { result ≡ is_lost found.now }
{
    match found.fault {
        None => false,
        Some(fault) => !is_no_matter(fault, found.name.as_slice()),
    }
}
