//! A tree whose calls fail by a plan.

ghost use Rattle.std.specs.Prelude.{◌≡◌, [], None, Some, false, option_map, take};
ghost use Rattle.file_tree.specs.Files.{fault_of, with_fault};
ghost use Rattle.tree_devices.specs.PlannedFiles.{planned_faults, planned_files, planned_in};

use file_tree::fault::TreeFault;
use file_tree::kind::Kind;
use file_tree::tree::{Replaced, Tree, WritableTree, Writing};
use hcl_scan::{ByteSource, Failed};
use std::alloc::Global;

/// A name and its entry.
#[derive(Clone, Copy)]
pub struct PlannedName<'a> {
    pub name: &'a [u8],
    /// Links followed.
    pub kind: Kind,
    /// Links not followed.
    pub entry: Kind,
}

/// A reader of nothing, which doesn't fail.
#[derive(Drop)]
pub struct EmptyReader;

impl ByteSource for EmptyReader {
    ghost left = { λ s. None };

    ghost failed = { λ s. false };

    fn read(&mut self, _buffer: &mut [u8]) -> Result<usize, Failed> {
        Ok(0)
    }

    fn has_failed(&self) -> bool {
        false
    }
}

/// A tree that tells what its names stand for, with links followed, and the faults of its calls: each call takes the
/// next place of the plan, and after the last one no call fails. Its folders are empty, and it tells no bytes: to
/// return names or bytes takes memory, which may be refused at any time, so a tree that tells them can't tell all its
/// faults too.
#[derive(Drop)]
pub struct PlannedTree<'a> {
    alloc: Global,
    names: &'a [PlannedName<'a>],
    plan: &'a [Option<TreeFault>],
    made: usize,
}

impl<'a> PlannedTree<'a> {
    /// A tree with these names, whose first calls fail as the plan says.
    pub fn new(
        alloc: Global,
        names: &'a [PlannedName<'a>],
        plan: &'a [Option<TreeFault>],
    ) -> PlannedTree<'a>
        ensures files { ⟦<PlannedTree<'a> as Tree>⟧.files result ≡ planned_files names.now }
        ensures faults { ⟦<PlannedTree<'a> as Tree>⟧.faults result ≡ Some [] }
    {
        PlannedTree {
            alloc,
            names,
            plan,
            made: 0,
        }
    }

    /// Makes another call. Returns its fault, if it fails.
    #[tactic(auto, using(crate::proofs::PlanLemmas::taken))]
    fn call(&mut self) -> Result<(), TreeFault>
        ensures rows { self.new.names.now ≡ self.old.names.now }
        ensures faults { Some (planned_faults (take self.new.made self.new.plan.now))
            ≡ with_fault (Some (planned_faults (take self.old.made self.old.plan.now)))
            (fault_of result) }
    {
        if self.made >= self.plan.len() {
            return Ok(());
        }
        let planned = self.plan[self.made];
        self.made += 1;
        match planned {
            Some(fault) => Err(fault),
            None => Ok(()),
        }
    }

    fn row_of(&self, name: &[u8]) -> Option<&PlannedName<'a>>
        ensures { option_map (λ row. row.now) result ≡ planned_in self.now.names.now name.now }
    {
        self.names.iter().find(|row| *name == *row.name)
    }
}

impl<'a> Tree for PlannedTree<'a> {
    type Reader = EmptyReader;

    ghost files = { λ s. planned_files s.names.now };

    ghost faults = { λ s. Some (planned_faults (take s.made s.plan.now)) };

    ghost asked = { λ s. None };

    fn kind(&mut self, name: &[u8]) -> Result<Kind, TreeFault> {
        if let Err(fault) = self.call() {
            return Err(fault);
        }
        match self.row_of(name) {
            Some(row) => Ok(row.kind),
            None => Ok(Kind::Other),
        }
    }

    fn entry_kind(&mut self, name: &[u8]) -> Result<Kind, TreeFault> {
        if let Err(fault) = self.call() {
            return Err(fault);
        }
        match self.row_of(name) {
            Some(row) => Ok(row.entry),
            None => Ok(Kind::Other),
        }
    }

    fn listing(&mut self, _folder: &[u8]) -> Result<Vec<u8>, TreeFault> {
        match self.call() {
            Ok(()) => Ok(Vec::new(self.alloc)),
            Err(fault) => Err(fault),
        }
    }

    fn full_path(&mut self, _folder: &[u8]) -> Result<Vec<u8>, TreeFault> {
        match self.call() {
            Ok(()) => Ok(Vec::new(self.alloc)),
            Err(fault) => Err(fault),
        }
    }

    fn reader(&mut self, _name: &[u8]) -> Result<EmptyReader, TreeFault> {
        match self.call() {
            Ok(()) => Ok(EmptyReader),
            Err(fault) => Err(fault),
        }
    }

    fn give_back(&mut self, _reader: EmptyReader) {}
}

impl<'a> WritableTree for PlannedTree<'a> {
    fn replace(
        &mut self,
        _name: &[u8],
        _old: &[u8],
        _new: &[u8],
        _writing: Writing,
    ) -> Result<Replaced, TreeFault> {
        match self.call() {
            Ok(()) => Ok(Replaced::Kept),
            Err(fault) => Err(fault),
        }
    }
}
