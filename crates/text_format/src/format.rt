//! The format of a text.

ghost use Rattle.std.specs.Prelude.{◌≡◌, Some, IfOk, option_map, string_bytes};
ghost use Rattle.std.specs.Str.{IsUtf8};
ghost use Rattle.hcl_layout.specs.Print.{print};
ghost use Rattle.text_format.specs.Format.{HasFormat};

use crate::printed::Printed;
use hcl_layout::{emit, fits};
use hcl_scan::{ByteSink, LoadError, MAX_SOURCE, ScanError, Source, scan};
use hcl_syntax::{Accepted, accepts};
use std::alloc::{AllocError, Global};

/// The print of a file.
pub fn print_of(alloc: Global, accepted: &Accepted<'_, '_>) -> Result<Printed, AllocError>
    ensures { IfOk result
        (λ p. ⟦<Printed as ByteSink>⟧.taken p ≡ Some (print accepted.now.tokens)) }
{
    let mut printed = Printed::new(alloc);
    match emit(accepted, &mut printed) {
        Ok(()) => Ok(printed),
        Err(_) => Err(AllocError),
    }
}

/// The print of a file as a text. It is one, since each print that fits is a source again.
fn printed_text(alloc: Global, accepted: &Accepted<'_, '_>) -> Result<String, AllocError>
    requires { IsUtf8 (print accepted.now.tokens) }
    ensures { IfOk result (λ text. string_bytes text ≡ print accepted.now.tokens) }
{
    let printed = print_of(alloc, accepted)?;
    let Ok(text) = String::from_utf8(printed.into_bytes()) else {
        unreachable!();
    };
    Ok(text)
}

/// The format of a text, or `None` if the text is refused. An error means that memory ran out.
pub fn format_of(alloc: Global, text: &str) -> Result<Option<String>, AllocError>
    ensures { IfOk result (λ o. HasFormat text.now (option_map string_bytes o)) }
{
    let source = match Source::from_bytes(alloc, text.as_bytes()) {
        Ok(source) => source,
        Err(LoadError::Fault(_)) => return Ok(None),
        Err(_) => return Err(AllocError),
    };
    let tokens = match scan(alloc, &source) {
        Ok(tokens) => tokens,
        Err(ScanError::OutOfMemory) => return Err(AllocError),
        Err(ScanError::Fault(_)) => return Ok(None),
    };
    let Ok(accepted) = accepts(&tokens) else {
        return Ok(None);
    };
    if !fits(&accepted, MAX_SOURCE as u64) {
        return Ok(None);
    }
    Ok(Some(printed_text(alloc, &accepted)?))
}
