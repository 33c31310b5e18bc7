//! The fault of a text.

ghost use Rattle.std.specs.Prelude.{◌≡◌, ◌<◌, ◌^◌, IfOk, length};
ghost use Rattle.hcl_source.specs.Load.{IsText};
ghost use Rattle.module_check.specs.Faults.{HasFault, at_front, marked_fault};

use crate::mark::marked_range;
use hcl_scan::{Fault, FaultKind, LoadError, ScanError, Source, scan};
use hcl_syntax::accepts;
use std::alloc::{AllocError, Global};
use text_places::{Range, Units, Walk};

/// A fault of a text, and the range that is marked for it.
#[derive(Clone, Copy)]
pub struct MarkedFault {
    pub range: Range,
    pub kind: FaultKind,
}

/// The fault of a text that is no source: it is told at the text's front.
fn at_front(kind: FaultKind) -> MarkedFault
    ensures { result ≡ at_front kind }
{
    let front = Walk::start().place();
    MarkedFault {
        range: Range {
            start: front,
            end: front,
        },
        kind,
    }
}

/// The fault of a source, with its range.
fn mark_fault(units: Units, source: &Source, fault: Fault) -> MarkedFault
    ensures { result ≡ marked_fault units source.now fault }
{
    MarkedFault {
        range: marked_range(units, source.text(), fault.at),
        kind: fault.kind,
    }
}

/// The fault of a source, if it has one.
fn source_fault(
    alloc: Global,
    units: Units,
    source: &Source,
) -> Result<Option<MarkedFault>, AllocError>
    requires { IsText source.now }
    ensures { IfOk result (HasFault units source.now) }
{
    let tokens = match scan(alloc, source) {
        Ok(tokens) => tokens,
        Err(ScanError::OutOfMemory) => return Err(AllocError),
        Err(ScanError::Fault(fault)) => return Ok(Some(mark_fault(units, source, fault))),
    };
    match accepts(&tokens) {
        Ok(_) => Ok(None),
        Err(fault) => Ok(Some(mark_fault(units, source, fault))),
    }
}

/// The fault because of which a text is no file of the language, with the range that is marked for it, or `None` if the
/// text is one. An error means that memory ran out.
pub fn fault_of(alloc: Global, units: Units, text: &str) -> Result<Option<MarkedFault>, AllocError>
    ensures { IfOk result (HasFault units text.now) }
{
    match Source::from_bytes(alloc, text.as_bytes()) {
        Ok(source) => source_fault(alloc, units, &source),
        Err(LoadError::Fault(fault)) => Ok(Some(at_front(fault.kind))),
        Err(_) => Err(AllocError),
    }
}
