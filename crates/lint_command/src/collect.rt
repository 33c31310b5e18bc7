//! The modules that a call names.

ghost use Rattle.std.specs.Prelude.{◌≡◌, ◌++◌, IfOk, map};
ghost use Rattle.file_tree.specs.Ordered.{Orders};
ghost use Rattle.file_tree.specs.Unchanged.{Unchanged};
ghost use Rattle.lint_command.specs.Ends.{Collects};

use file_tree::tree::Tree;
use file_tree::walk::{Found, Seen, in_order, look};
use module_find::modules::modules_of;
use module_find::{Module, faults_of, folders_of};
use std::alloc::{AllocError, Global};
use tree_words::pick::pick;
use tree_words::shard::Shard;

/// Modules, and names that can't be looked at, in the order of the names.
#[derive(Drop)]
pub(crate) struct Collected {
    pub modules: Vec<Module>,
    pub faults: Vec<Found>,
}

/// The names of both lists, in order, each once.
fn together(mut these: Vec<Found>, mut those: Vec<Found>) -> Result<Vec<Found>, AllocError>
    ensures { IfOk result (λ all. Orders (these.items ++ those.items) all.items) }
{
    let Ok(()) = these.append(&mut those) else {
        return Err(AllocError);
    };
    Ok(in_order(these))
}

/// The modules that these names stand for, as far as the part takes them.
pub(crate) fn collect<T: Tree>(
    alloc: Global,
    shard: Option<Shard>,
    operands: &[&[u8]],
    tree: &mut T,
) -> Result<Collected, AllocError>
    ensures unchanged { Unchanged T.Tree tree.old tree.new }
    ensures collects { IfOk result (λ c. Collects (T.files tree.old) shard
        (map (λ operand. operand.now) operands.now) (T.faults tree.old) (T.faults tree.new)
        c.modules.items c.faults.items) }
{
    let seen = look(alloc, operands, tree)?;
    let Seen { named, looked } = seen;
    let stand = folders_of(alloc, named.as_slice(), looked.as_slice())?;
    let folders = pick(alloc, stand, shard)?;
    let lost = faults_of(alloc, named.as_slice(), looked.as_slice())?;
    let faults = pick(alloc, lost, shard)?;
    drop(named);
    let all = modules_of(alloc, folders, looked, tree)?;
    let faults = together(faults, all.faults)?;
    Ok(Collected {
        modules: all.modules,
        faults,
    })
}
