//! One file, judged by its bytes.

ghost use Rattle.std.specs.Prelude.{◌≡◌, ◌≤◌, List, ℕ, Option, IfOk};
ghost use Rattle.file_tree.specs.Unchanged.{Unchanged};
ghost use Rattle.hcl_source.specs.Devices.{Tells};
ghost use Rattle.hcl_source.specs.Load.{IsText};
ghost use Rattle.module_check.specs.Checks.{IsState};
ghost use Rattle.module_check.specs.Inner.Judging.{AddsState, Judges, JudgesTokens, TellsLoaded};
ghost use Rattle.tfrules_command.specs.Files.{max_module};

use crate::state::FileState;
use file_tree::fault::TreeFault;
use file_tree::tree::Tree;
use hcl_scan::{ByteSource, Fault, LoadError, Source, Tokens};
use hcl_syntax::accepts;
use std::alloc::{AllocError, Global};
use tf_rules::Facts;
use tfrules_command::gather::scan_file;
use tfrules_command::stop::Stop;

/// The verdict on a text.
#[derive(Clone, Copy)]
enum Judgement {
    Accepted,
    Refused(Fault),
    TooMuch,
}

/// Judges a text by its tokens, and keeps its facts if it is accepted.
fn judge_tokens(
    number: u32,
    tokens: &Tokens<'_>,
    facts: &mut Facts,
) -> Result<Judgement, AllocError>
    ensures { IfOk result (JudgesTokens tokens.now number facts.old facts.new) }
{
    let accepted = match accepts(tokens) {
        Ok(accepted) => accepted,
        Err(fault) => return Ok(Judgement::Refused(fault)),
    };
    facts.add_file(number, &accepted)?;
    Ok(Judgement::Accepted)
}

/// Judges a text after accepted files of this many bytes, and keeps its facts if it is accepted.
fn judge(
    alloc: Global,
    number: u32,
    size: usize,
    source: &Source,
    facts: &mut Facts,
) -> Result<Judgement, AllocError>
    requires { size ≤ max_module }
    ensures { IfOk result (Judges source.now size number facts.old facts.new) }
{
    match scan_file(alloc, size, source) {
        Ok(file) => judge_tokens(number, &file.tokens, facts),
        Err(Stop::Refused(fault)) => Ok(Judgement::Refused(fault)),
        Err(Stop::TooLarge) => Ok(Judgement::TooMuch),
        Err(_) => Err(AllocError),
    }
}

/// The state of a file with this text. Its facts are kept if it is accepted.
fn state_of_text(
    alloc: Global,
    number: u32,
    size: usize,
    source: Source,
    facts: &mut Facts,
) -> Result<FileState, AllocError>
    requires { size ≤ max_module }
    ensures { (told : Option (List ℕ)) → Tells told source → IsText source
        → IfOk result (λ state. IsState told size state
        × AddsState number state facts.old facts.new) }
{
    let judgement = judge(alloc, number, size, &source, facts)?;
    match judgement {
        Judgement::Accepted => Ok(FileState::Good(source)),
        Judgement::Refused(fault) => Ok(FileState::Refused(source, fault)),
        Judgement::TooMuch => Ok(FileState::TooMuch),
    }
}

/// The state of a file after it was loaded.
fn state_of_loaded(
    alloc: Global,
    number: u32,
    size: usize,
    loaded: Result<Source, LoadError>,
    facts: &mut Facts,
) -> Result<FileState, AllocError>
    requires { size ≤ max_module }
    ensures { (told : Option (List ℕ)) → TellsLoaded told loaded
        → IfOk result (λ state. IsState told size state
        × AddsState number state facts.old facts.new) }
{
    match loaded {
        Ok(source) => state_of_text(alloc, number, size, source, facts),
        Err(LoadError::Fault(fault)) => Ok(FileState::NoText(fault)),
        Err(LoadError::ReadFailed) => Ok(FileState::Unread(TreeFault::ReadFailed)),
        Err(LoadError::OutOfMemory) => Err(AllocError),
    }
}

/// Reads the file of this name after accepted files of this many bytes. Its facts are kept if it is accepted.
pub(crate) fn state_of<T: Tree>(
    alloc: Global,
    number: u32,
    size: usize,
    name: &str,
    facts: &mut Facts,
    tree: &mut T,
) -> Result<FileState, AllocError>
    requires { size ≤ max_module }
    ensures unchanged { Unchanged T.Tree tree.old tree.new }
    ensures is { IfOk result (λ state.
        IsState ((T.files tree.old).told ((T.files tree.old).real name.now)) size state
        × AddsState number state facts.old facts.new) }
{
    let mut reader = match tree.reader(name.as_bytes()) {
        Ok(reader) => reader,
        Err(TreeFault::OutOfMemory) => return Err(AllocError),
        Err(fault) => return Ok(FileState::Unread(fault)),
    };
    let loaded = Source::read_from(alloc, &mut reader);
    tree.give_back(reader);
    state_of_loaded(alloc, number, size, loaded, facts)
}
