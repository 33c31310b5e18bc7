//! The scan of a source.

ghost use Rattle.std.specs.Prelude.{◌≡◌, [], IfOk, IfErr};
ghost use Rattle.hcl_tokens.specs.Scans.{Scans};
ghost use Rattle.hcl_tokens.specs.Scanned.{IsScanError};

use crate::scanner::Scanner;
use crate::stack::StackStorage;
use hcl_source::{Fault, Source};
use hcl_tokens::{Entries, ScanError, Tokens};
use std::alloc::Global;

/// Bytes of a source per token for the first room of the list. Most texts have four to six bytes per token; for those
/// with fewer the list grows.
const BYTES_A_TOKEN: usize = 4;

/// The most tokens for which the list has room at first: small files are the ones whose lists take long to grow.
const MOST_ROOM: usize = 8_192;

/// An empty list with room for most entries of a source: a list that grows from nothing is moved several times. The
/// room is in fours, since a list's own first room is for four.
fn no_entries(alloc: Global, source: &Source) -> Result<Entries, ScanError>
    ensures none { IfOk result (λ entries. entries ≡ []) }
    ensures err { IfErr result (IsScanError source.now) }
{
    let room = (source.text().len() / BYTES_A_TOKEN / 4 * 4).min(MOST_ROOM);
    match Entries::with_room(alloc, room) {
        Ok(entries) => Ok(entries),
        Err(_) => Err(ScanError::OutOfMemory),
    }
}

/// The tokens of a source, or its one fault. This is a call, and its rare calls are marked as cold, so that its loop
/// keeps its registers.
#[inline(never)]
pub fn scan<'s>(alloc: Global, source: &'s Source) -> Result<Tokens<'s>, ScanError>
    ensures source { IfOk result (λ t. t.text ≡ source.now) }
    ensures tokens { IfOk result (λ t. Scans source.now t.tokens) }
    ensures err { IfErr result (IsScanError source.now) }
{
    let mut entries = no_entries(alloc, source)?;
    let mut room = StackStorage::new();
    let mut scanner = Scanner::new(source.text(), &mut room);
    while let Some(read) = scanner.next_token() {
        match read {
            Ok(entry) => match entries.push(entry) {
                Ok(()) => {}
                Err(_) => return Err(ScanError::OutOfMemory),
            },
            Err(stopped) => {
                return Err(ScanError::Fault(Fault {
                    kind: stopped.kind,
                    at: source.position(stopped.at as usize),
                }));
            }
        }
    }
    Ok(Tokens::new(source, entries))
}
