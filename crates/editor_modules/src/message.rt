//! A message about a document.

ghost use Rattle.std.specs.Prelude.{IfOk, Some, map};
ghost use Rattle.editor_messages.specs.Views.{diagnostic_seen};
ghost use Rattle.editor_modules.specs.Inner.Added.{TellsByText};
ghost use Rattle.editor_modules.specs.Messages.{TellsDocument};
ghost use Rattle.editor_modules.specs.Told.{told_document, withdrawn};
ghost use Rattle.open_files.specs.OpenTexts.{text_of};

use editor_messages::{Diagnostic, diagnostics_message};
use module_check::fault_of;
use open_files::Documents;
use std::alloc::{AllocError, Global};
use text_places::Units;

/// A message that tells the diagnostics of a document.
#[derive(Drop)]
pub struct ToldMessage {
    /// Of the document.
    pub uri: String,
    pub body: Vec<u8>,
    /// Whether it tells any. If it tells none, those that were told before count no more.
    pub has_diagnostics: bool,
}

/// The message that the document with this URI has these diagnostics alone.
pub(crate) fn told_message(
    alloc: Global,
    uri: &str,
    diagnostics: &[Diagnostic<'_>],
) -> Result<ToldMessage, AllocError>
    ensures { IfOk result
        (TellsDocument (told_document uri.now (map diagnostic_seen diagnostics.now))) }
{
    let body = diagnostics_message(alloc, uri, diagnostics)?;
    let uri = String::from_str(alloc, uri)?;
    Ok(ToldMessage {
        uri,
        body,
        has_diagnostics: !diagnostics.is_empty(),
    })
}

/// The message that withdraws what was told of a document. An error means that memory ran out.
pub fn withdrawal(alloc: Global, uri: &str) -> Result<ToldMessage, AllocError>
    ensures { IfOk result (TellsDocument (withdrawn uri.now)) }
{
    told_message(alloc, uri, &[])
}

/// The message that tells the fault of a document's text, or that it has none.
fn text_message(
    alloc: Global,
    units: Units,
    uri: &str,
    text: &str,
) -> Result<ToldMessage, AllocError>
    ensures { IfOk result (TellsByText units uri.now (Some text.now)) }
{
    match fault_of(alloc, units, text)? {
        Some(fault) => {
            let diagnostic = Diagnostic {
                range: fault.range,
                rule: None,
                text: fault.kind.text(),
            };
            told_message(alloc, uri, &[diagnostic])
        }
        None => withdrawal(alloc, uri),
    }
}

/// The message about a document alone: the fault of its text, or that nothing counts any more if it isn't open.
pub(crate) fn message_alone(
    alloc: Global,
    units: Units,
    documents: &Documents,
    uri: &str,
) -> Result<ToldMessage, AllocError>
    ensures { IfOk result (TellsByText units uri.now (text_of documents.now uri.now)) }
{
    match documents.text(uri) {
        Some(text) => text_message(alloc, units, uri, text),
        None => withdrawal(alloc, uri),
    }
}
