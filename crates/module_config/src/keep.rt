//! Bad files and failed calls, kept for the end of a form.

ghost use Rattle.std.specs.Prelude.{◌≡◌, ◌∷◌, [], flat_map, map};
ghost use Rattle.module_config.specs.Refusals.{config_refusals, configured_refusals, failure_refusals, line_number, line_refusal};
ghost use Rattle.module_find.specs.KeptRefusals.{KeepsAll};

use crate::config_file::{ConfigFile, ConfigText};
use crate::config_lines::BadLine;
use crate::configure::Configured;
use crate::start::Start;
use file_tree::walk::Found;
use hcl_source::Position;
use module_find::kept::KeptRefusals;
use module_find::refusal::Refusal;
use std::alloc::Global;

/// The number of a line, if it fits.
fn line_number(line: usize) -> u32
    ensures { result ≡ line_number line }
{
    if line < 4_294_967_295 {
        return line as u32;
    }
    4_294_967_295
}

/// Keeps the fault of a line of the file with this name.
fn keep_line(alloc: Global, name: &[u8], bad: &BadLine, kept: &mut KeptRefusals)
    ensures { KeepsAll kept.old kept.new (line_refusal name.now bad.now ∷ []) }
{
    let at = Position {
        line: line_number(bad.line),
        column: 1,
    };
    kept.add(
        alloc,
        Refusal {
            name,
            at: Some(at),
            text: bad.text.as_str(),
            snippet: b"",
        },
    );
}

/// Keeps the faults of the wrong lines of the file with this name.
fn keep_lines(alloc: Global, name: &[u8], all: &[BadLine], kept: &mut KeptRefusals)
    ensures { KeepsAll kept.old kept.new (map (line_refusal name.now) all.now) }
{
    for bad in all {
        keep_line(alloc, name, bad, kept);
    }
}

/// Keeps the fault of a file.
fn keep_file(alloc: Global, start: &Start, file: &ConfigFile, kept: &mut KeptRefusals)
    ensures { KeepsAll kept.old kept.new (config_refusals start.now file.now) }
{
    let name = start.display_path(file.name.as_slice());
    match &file.text {
        ConfigText::Says(config) => keep_lines(alloc, name, config.faults.as_slice(), kept),
        ConfigText::Refused(fault) => kept.add(
            alloc,
            Refusal {
                name,
                at: Some(fault.at),
                text: fault.kind.text(),
                snippet: b"",
            },
        ),
        ConfigText::Unread(fault) => kept.add(
            alloc,
            Refusal {
                name,
                at: None,
                text: fault.text(),
                snippet: b"",
            },
        ),
    }
}

/// Keeps the faults of these files.
fn keep_files(alloc: Global, start: &Start, files: &[ConfigFile], kept: &mut KeptRefusals)
    ensures { KeepsAll kept.old kept.new (flat_map (config_refusals start.now) files.now) }
{
    for file in files {
        keep_file(alloc, start, file, kept);
    }
}

/// Keeps a failed call.
fn keep_failure(alloc: Global, start: &Start, found: &Found, kept: &mut KeptRefusals)
    ensures { KeepsAll kept.old kept.new (failure_refusals start.now found.now) }
{
    if let Some(fault) = found.fault {
        kept.add(
            alloc,
            Refusal {
                name: start.display_path(found.name.as_slice()),
                at: None,
                text: fault.text(),
                snippet: b"",
            },
        );
    }
}

/// Keeps the failed calls.
fn keep_failures(alloc: Global, start: &Start, all: &[Found], kept: &mut KeptRefusals)
    ensures { KeepsAll kept.old kept.new (flat_map (failure_refusals start.now) all.now) }
{
    for found in all {
        keep_failure(alloc, start, found, kept);
    }
}

/// Keeps bad files, and the failed calls of the search for them.
pub fn keep_configured(alloc: Global, configured: &Configured, kept: &mut KeptRefusals)
    ensures { KeepsAll kept.old kept.new (configured_refusals configured.now) }
{
    let start = &configured.start;
    keep_failures(alloc, start, configured.failures.as_slice(), kept);
    keep_files(alloc, start, configured.files.as_slice(), kept);
}
