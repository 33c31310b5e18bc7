//! The options by which modules are linted, as far as they are known.

ghost use Rattle.std.specs.Prelude.{◌≡◌, ◌&&◌, ◌++◌, ◌∷◌, [], IfOk, OnOk, flat_map, map};
ghost use Rattle.std.specs.List.{list_any};
ghost use Rattle.file_tree.specs.Unchanged.{Unchanged};
ghost use Rattle.module_config.specs.Options.{options_of};
ghost use Rattle.module_config.specs.Configs.{AreInOrder, Configures, failure_in, file_in, noted_of};
ghost use Rattle.module_config.specs.Governors.{ArePlaced, wants};
ghost use Rattle.module_config.specs.Inner.Reading.{AddsPlaced};

use crate::config_file::{ConfigFile, read_all};
use crate::governor::{Governor, Placed, governor_of, named_fault, wants};
use crate::policy::governed_of;
use crate::said::Said;
use crate::start::Start;
use file_tree::fault::TreeFault;
use file_tree::tree::Tree;
use file_tree::walk::{Found, in_order};
use module_find::{Governed, Module};
use std::alloc::{AllocError, Global};

/// The known options of modules before they are linted.
#[derive(Drop)]
pub struct Configured {
    /// The modules whose options are known, each with its policy.
    pub governed: Vec<Governed>,
    /// The number of the other modules.
    pub unlinted: usize,
    /// The folder from which full paths are shown.
    pub start: Start,
    /// The failed calls, by the names that they were for.
    pub failures: Vec<Found>,
    /// The files that govern modules, in the order of their names, each once.
    pub files: Vec<ConfigFile>,
}

/// Whether a module among these is linted by options.
fn any_wants(modules: &[Module]) -> bool
    ensures { result ≡ list_any wants modules.now }
{
    modules.iter().any(|module| wants(module))
}

fn both(one: bool, other: bool) -> bool
    ensures { result ≡ (one && other) }
{
    one && other
}

fn keep(one: Placed, placed: &mut Vec<Placed>) -> Result<(), AllocError>
    ensures { OnOk result (placed.new.items ≡ placed.old.items ++ one ∷ []) }
{
    match placed.push(one) {
        Ok(()) => Ok(()),
        Err(_) => Err(AllocError),
    }
}

/// Appends a module and its governor.
fn add_placed<T: Tree>(
    alloc: Global,
    start: &Start,
    one: Module,
    placed: &mut Vec<Placed>,
    tree: &mut T,
) -> Result<(), AllocError>
    ensures unchanged { Unchanged T.Tree tree.old tree.new }
    ensures adds { OnOk result (AddsPlaced (T.files tree.old) start.now one
        (T.faults tree.old) (T.faults tree.new) placed.old.items placed.new.items) }
{
    let governor = governor_of(alloc, start, &one, tree)?;
    let placed_one = Placed {
        module: one,
        governor,
    };
    keep(placed_one, placed)
}

/// The governors of these modules.
fn place_all<T: Tree>(
    alloc: Global,
    start: &Start,
    modules: Vec<Module>,
    tree: &mut T,
) -> Result<Vec<Placed>, AllocError>
    ensures unchanged { Unchanged T.Tree tree.old tree.new }
    ensures are { IfOk result (λ placed. ArePlaced (T.files tree.old) start.now modules.items
        placed.items (T.faults tree.old) (T.faults tree.new)) }
{
    let mut placed = Vec::new(alloc);
    for module in modules {
        add_placed(alloc, start, module, &mut placed, tree)?;
    }
    Ok(placed)
}

/// Appends a name and why it can't be looked at, if it can't.
fn add_noted(
    alloc: Global,
    name: &[u8],
    fault: Option<TreeFault>,
    all: &mut Vec<Found>,
) -> Result<(), AllocError>
    ensures { OnOk result (map noted_of all.new.items
        ≡ map noted_of all.old.items ++ (name.now, fault) ∷ []) }
{
    let found = named_fault(alloc, name, fault)?;
    match all.push(found) {
        Ok(()) => Ok(()),
        Err(_) => Err(AllocError),
    }
}

/// Appends the file that governs a module, if one does.
fn add_file(alloc: Global, governor: &Governor, all: &mut Vec<Found>) -> Result<(), AllocError>
    ensures { OnOk result (map noted_of all.new.items
        ≡ map noted_of all.old.items ++ file_in governor.now) }
{
    match governor {
        Governor::File(name) => add_noted(alloc, name.as_slice(), None, all),
        _ => Ok(()),
    }
}

/// Appends the name because of which the governor of a module isn't known.
fn add_failure(alloc: Global, governor: &Governor, all: &mut Vec<Found>) -> Result<(), AllocError>
    ensures { OnOk result (map noted_of all.new.items
        ≡ map noted_of all.old.items ++ failure_in governor.now) }
{
    match governor {
        Governor::Unknown(found) => add_noted(alloc, found.name.as_slice(), found.fault, all),
        _ => Ok(()),
    }
}

/// The files that govern these modules, in the order of their names, each once.
fn files_of(alloc: Global, placed: &[Placed]) -> Result<Vec<Found>, AllocError>
    ensures { IfOk result (λ files. AreInOrder
        (flat_map (λ p. file_in p.governor) placed.now) files.items) }
{
    let mut all = Vec::new(alloc);
    for each in placed {
        add_file(alloc, &each.governor, &mut all)?;
    }
    // Even if it governs several modules.
    let files = in_order(all);
    Ok(files)
}

/// The names because of which the governors of modules aren't known, in order, each once.
fn failures_of(alloc: Global, placed: &[Placed]) -> Result<Vec<Found>, AllocError>
    ensures { IfOk result (λ failures. AreInOrder
        (flat_map (λ p. failure_in p.governor) placed.now) failures.items) }
{
    let mut all = Vec::new(alloc);
    for each in placed {
        add_failure(alloc, &each.governor, &mut all)?;
    }
    Ok(in_order(all))
}

/// The options by which these modules are linted: those of the line, and those of the files that govern them, if these
/// are read.
pub fn configure<T: Tree>(
    alloc: Global,
    line: Said,
    reads: bool,
    modules: Vec<Module>,
    tree: &mut T,
) -> Result<Configured, AllocError>
    ensures unchanged { Unchanged T.Tree tree.old tree.new }
    ensures configures { IfOk result (Configures (T.files tree.old) (options_of line) reads
        modules.items (T.faults tree.old) (T.faults tree.new)) }
{
    let count = modules.len();
    let is_needed = both(reads, any_wants(modules.as_slice()));
    let start = Start::find(is_needed, tree);
    let placed = place_all(alloc, &start, modules, tree)?;
    let failures = failures_of(alloc, placed.as_slice())?;
    let names = files_of(alloc, placed.as_slice())?;
    let files = read_all(alloc, names, tree)?;
    let governed = governed_of(alloc, line, files.as_slice(), placed)?;
    Ok(Configured {
        unlinted: count.saturating_sub(governed.len()),
        governed,
        start,
        failures,
        files,
    })
}
