//! Refusals that are kept for the end of a form.

ghost use Rattle.std.specs.Prelude.{◌≡◌, ◌++◌, ◌∷◌, [], IfOk, flat_map, map, true};
ghost use Rattle.lint_forms.specs.Remarks.{said_by};
ghost use Rattle.module_find.specs.KeptRefusals.{HoldsAll, KeepsAll, column_told, kept_remark, line_told, refusal_remark};
ghost use Rattle.module_find.specs.Refusals.{refusal_view};
ghost use Rattle.module_find.specs.Faults.{refusal_in};

use crate::refusal::{Refusal, reported_fault};
use file_tree::walk::Found;
use hcl_source::Position;
use lint_forms::{Remark, Subject};
use std::alloc::{AllocError, Global};

/// A refusal that owns its texts.
#[derive(Drop)]
pub struct KeptRefusal {
    /// The name of a file or a folder. Bytes of it that aren't UTF-8 are replaced.
    pub name: String,
    /// The line, from 1.
    pub line: u32,
    /// The column, from 1.
    pub column: u32,
    /// The message.
    pub text: String,
}

/// Refusals that are kept.
#[derive(Drop)]
pub struct KeptRefusals {
    pub refusals: Vec<KeptRefusal>,
    /// No refusal is missing. One is missing if none are to be kept, or memory ran out for it.
    pub is_whole: bool,
}

/// The line of a place, or the first one.
fn line_told(at: Option<Position>) -> u32
    ensures { result ≡ line_told at }
{
    match at {
        Some(at) => at.line,
        None => 1,
    }
}

/// The column of a place, or the first one.
fn column_told(at: Option<Position>) -> u32
    ensures { result ≡ column_told at }
{
    match at {
        Some(at) => at.column,
        None => 1,
    }
}

/// A refusal that owns its texts.
fn stored_of(alloc: Global, refusal: Refusal<'_>) -> Result<KeptRefusal, AllocError>
    ensures { IfOk result
        (λ kept. kept_remark kept ≡ refusal_remark (refusal_view refusal.entry)) }
{
    let name = String::from_utf8_lossy(alloc, refusal.name)?;
    let text = String::from_str(alloc, refusal.text)?;
    Ok(KeptRefusal {
        name,
        line: line_told(refusal.at),
        column: column_told(refusal.at),
        text,
    })
}

/// A kept refusal as a remark.
fn remark_of(kept: &KeptRefusal) -> Remark<'_>
    ensures { said_by result ≡ kept_remark kept.now }
{
    Remark {
        file: kept.name.as_str(),
        line: kept.line,
        column: kept.column,
        subject: Subject::Refusal,
        text: kept.text.as_str(),
    }
}

impl KeptRefusals {
    /// No refusals, which are to be kept or not.
    pub fn new(alloc: Global, keeps: bool) -> KeptRefusals
        ensures none { HoldsAll result [] }
        ensures whole { result.is_whole ≡ keeps }
    {
        KeptRefusals {
            refusals: Vec::new(alloc),
            is_whole: keeps,
        }
    }

    /// Adds a refusal.
    fn push(&mut self, refusal: KeptRefusal)
        ensures { self.new.is_whole ≡ true → (self.old.is_whole ≡ true)
            × (map kept_remark self.new.refusals.items
            ≡ map kept_remark self.old.refusals.items ++ kept_remark refusal ∷ []) }
    {
        if self.refusals.push(refusal).is_err() {
            self.is_whole = false;
        }
    }

    /// Keeps a refusal, unless one is missing already.
    pub fn add(&mut self, alloc: Global, refusal: Refusal<'_>)
        ensures { KeepsAll self.old self.new (refusal_view refusal.entry ∷ []) }
    {
        if !self.is_whole {
            return;
        }
        match stored_of(alloc, refusal) {
            Ok(refusal) => self.push(refusal),
            Err(_) => self.is_whole = false,
        }
    }

    /// Keeps the refusal of a found name, if it can't be linted.
    fn add_fault(&mut self, alloc: Global, found: &Found)
        ensures { KeepsAll self.old self.new (refusal_in found.now) }
    {
        if let Some(fault) = found.fault {
            let text = reported_fault(fault).text();
            self.add(alloc, Refusal::of_name(found.name.as_slice(), text));
        }
    }

    /// Keeps the refusals of the names that can't be linted.
    pub fn add_faults(&mut self, alloc: Global, faults: &[Found])
        ensures { KeepsAll self.old self.new (flat_map refusal_in faults.now) }
    {
        for found in faults {
            self.add_fault(alloc, found);
        }
    }

    /// These refusals as remarks.
    pub fn remarks(&self, alloc: Global) -> Result<Vec<Remark<'_>>, AllocError>
        ensures { IfOk result
            (λ all. map said_by all.items ≡ map kept_remark self.now.refusals.items) }
    {
        let mut all = Vec::with_capacity(alloc, self.refusals.len())?;
        for refusal in self.refusals.iter() {
            all.push(remark_of(refusal))?;
        }
        Ok(all)
    }
}
