//! The files of a module, read in turn.

ghost use Rattle.std.specs.Prelude.{◌≡◌, ◌≤◌, ◌<◌, false, ℕ, List};
ghost use Rattle.tfrules_command.specs.Inner.Steps.{Adds, Gathers, ReadsFile, stop_by, stop_of_scan};
ghost use Rattle.tfrules_command.specs.Keeping.{KeepsTokens, ScansFile};
ghost use Rattle.tfrules_command.specs.Inner.Keeping.{Keeps};
ghost use Rattle.tf_rules.specs.Stored.{no_facts};
ghost use Rattle.tfrules_command.specs.Files.{max_module};

use crate::file_names::FileNames;
use crate::module_files::ModuleFiles;
use crate::stop::{Stop, Stopped};
use hcl_scan::{LoadError, ScanError, Source, Tokens, scan};
use hcl_syntax::accepts;
use std::alloc::Global;
use tf_rules::Facts;

/// The most bytes that the files of a module have together.
pub const MAX_MODULE: usize = 33_554_432;

/// The result of loading a text, for a run.
fn stop_of(loaded: Result<Source, LoadError>) -> Result<Source, Stop>
    ensures { result ≡ stop_by loaded }
{
    match loaded {
        Ok(source) => Ok(source),
        Err(LoadError::Fault(fault)) => Err(Stop::Refused(fault)),
        Err(LoadError::ReadFailed) => Err(Stop::NotRead),
        Err(LoadError::OutOfMemory) => Err(Stop::OutOfMemory),
    }
}

/// Reads a file, and returns its reader to the device.
fn read_file<M: ModuleFiles>(alloc: Global, name: &str, files: &mut M) -> Result<Source, Stop>
    requires opened { M.open_failed files.old ≡ false }
    requires read { M.read_failed files.old ≡ false }
    requires back { M.is_out files.old ≡ false }
    ensures reads { ReadsFile (M.told files.old name.now) (M.open_failed files.new)
        (M.read_failed files.new) result }
    ensures told { (other : List ℕ) → M.told files.new other ≡ M.told files.old other }
    ensures back { M.is_out files.new ≡ false }
{
    let Ok(mut reader) = files.reader(name) else {
        return Err(Stop::NotOpened);
    };
    let loaded = Source::read_from(alloc, &mut reader);
    files.give_back(reader);
    stop_of(loaded)
}

/// The fault of a scan, for a run.
fn stop_of_scan(error: ScanError) -> Stop
    ensures { result ≡ stop_of_scan error }
{
    match error {
        ScanError::Fault(fault) => Stop::Refused(fault),
        ScanError::OutOfMemory => Stop::OutOfMemory,
    }
}

/// The tokens of a file, and the sum of the files' bytes with it.
#[derive(Drop)]
pub struct ScannedFile<'s> {
    pub tokens: Tokens<'s>,
    pub all: usize,
}

/// The tokens of a file after others of this many bytes. The sum is tested before its tokens.
pub fn scan_file<'s>(
    alloc: Global,
    size: usize,
    source: &'s Source,
) -> Result<ScannedFile<'s>, Stop>
    requires { size ≤ max_module }
    ensures { ScansFile source.now size result }
{
    let all = size + source.text().len();
    if all > MAX_MODULE {
        return Err(Stop::TooLarge);
    }
    match scan(alloc, source) {
        Ok(tokens) => Ok(ScannedFile { tokens, all }),
        Err(error) => Err(stop_of_scan(error)),
    }
}

/// Keeps the facts of a file by its tokens, and returns the sum of the files' bytes with it.
pub fn keep_tokens(
    number: u32,
    all: usize,
    tokens: &Tokens<'_>,
    facts: &mut Facts,
) -> Result<usize, Stop>
    ensures { KeepsTokens tokens.now number all facts.old facts.new result }
{
    let accepted = match accepts(tokens) {
        Ok(accepted) => accepted,
        Err(fault) => return Err(Stop::Refused(fault)),
    };
    match facts.add_file(number, &accepted) {
        Ok(()) => Ok(all),
        Err(_) => Err(Stop::OutOfMemory),
    }
}

/// Keeps the facts of a file after others of this many bytes, and returns the new sum.
fn keep_file(
    alloc: Global,
    number: u32,
    size: usize,
    source: &Source,
    facts: &mut Facts,
) -> Result<usize, Stop>
    requires { size ≤ max_module }
    ensures { Keeps source.now size number facts.old facts.new result }
{
    match scan_file(alloc, size, source) {
        Ok(file) => keep_tokens(number, file.all, &file.tokens, facts),
        Err(stop) => Err(stop),
    }
}

/// Reads a file and keeps its facts. Its text and its tokens are dropped when it returns.
fn add_file<M: ModuleFiles>(
    alloc: Global,
    number: u32,
    size: usize,
    name: &str,
    files: &mut M,
    facts: &mut Facts,
) -> Result<usize, Stop>
    requires opened { M.open_failed files.old ≡ false }
    requires read { M.read_failed files.old ≡ false }
    requires back { M.is_out files.old ≡ false }
    requires small { size ≤ max_module }
    ensures adds { Adds (M.told files.old name.now) size number (M.open_failed files.new)
        (M.read_failed files.new) facts.old facts.new result }
    ensures told { (other : List ℕ) → M.told files.new other ≡ M.told files.old other }
    ensures back { M.is_out files.new ≡ false }
{
    match read_file(alloc, name, files) {
        Ok(source) => keep_file(alloc, number, size, &source, facts),
        Err(stop) => Err(stop),
    }
}

/// Reads the files of these names in order, up to the first that isn't kept, and keeps their facts.
pub(crate) fn gather<'a, M: ModuleFiles>(
    alloc: Global,
    names: &FileNames<'a>,
    files: &mut M,
    facts: &mut Facts,
) -> Result<(), Stopped<'a>>
    requires opened { M.open_failed files.old ≡ false }
    requires read { M.read_failed files.old ≡ false }
    requires back { M.is_out files.old ≡ false }
    requires none { facts.old ≡ no_facts }
    ensures gathers { Gathers (M.told files.old) names.now (M.open_failed files.new)
        (M.read_failed files.new) facts.new result }
    ensures told { (other : List ℕ) → M.told files.new other ≡ M.told files.old other }
    ensures back { M.is_out files.new ≡ false }
{
    let mut size = 0;
    for number in 0..names.len() {
        let name = names.get(number);
        match add_file(alloc, number as u32, size, name, files, facts) {
            Ok(all) => size = all,
            Err(why) => return Err(Stopped { name, why }),
        }
    }
    Ok(())
}
