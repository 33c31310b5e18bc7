//! The diagnostics of a file of a module.

ghost use Rattle.std.specs.Prelude.{◌≡◌, ◌++◌, ◌∷◌, [], IfOk, OnOk, map};
ghost use Rattle.hcl_source.specs.FaultTexts.{fault_text};
ghost use Rattle.module_check.specs.Marks.{marked_range as marked_range_of};
ghost use Rattle.editor_messages.specs.Views.{diagnostic_seen};
ghost use Rattle.editor_modules.specs.FileDiagnostics.{at_front, file_diagnostics, issue_diagnostics, refusal};
ghost use Rattle.editor_modules.specs.Messages.{TellsDocument};
ghost use Rattle.editor_modules.specs.Told.{told_document};

use crate::message::{ToldMessage, told_message};
use editor_messages::Diagnostic;
use hcl_scan::{Fault, Source};
use module_check::{FileState, Marker};
use std::alloc::{AllocError, Global};
use text_places::{Range, Units, Walk};
use tf_rules::Issue;

/// The message that a document is refused for this reason.
fn refusal_message(
    alloc: Global,
    uri: &str,
    range: Range,
    text: &str,
) -> Result<ToldMessage, AllocError>
    ensures { IfOk result (TellsDocument (told_document uri.now (refusal range text.now))) }
{
    let diagnostic = Diagnostic {
        range,
        rule: None,
        text,
    };
    told_message(alloc, uri, &[diagnostic])
}

/// The message that a document is refused for this reason, which is told at its front.
fn front_message(alloc: Global, uri: &str, text: &str) -> Result<ToldMessage, AllocError>
    ensures { IfOk result (TellsDocument (told_document uri.now (at_front text.now))) }
{
    let front = Walk::start().place();
    refusal_message(
        alloc,
        uri,
        Range {
            start: front,
            end: front,
        },
        text,
    )
}

/// The message that a text is refused for a fault.
fn fault_message(
    alloc: Global,
    units: Units,
    uri: &str,
    source: &Source,
    fault: Fault,
) -> Result<ToldMessage, AllocError>
    ensures { IfOk result (TellsDocument (told_document uri.now
        (refusal (marked_range_of units source.now fault.at) (fault_text fault.kind)))) }
{
    let range = Marker::new(units, source.text()).range(fault.at);
    refusal_message(alloc, uri, range, fault.kind.text())
}

/// Adds the diagnostic of an issue, if it is one of the file of this number.
fn add_issue<'i>(
    number: u32,
    issue: &'i Issue,
    marker: &mut Marker<'_>,
    all: &mut Vec<Diagnostic<'i>>,
) -> Result<(), AllocError>
    ensures added { OnOk result (map diagnostic_seen all.new.items
        ≡ map diagnostic_seen all.old.items
        ++ issue_diagnostics marker.old.units number marker.old.text (issue.now ∷ [])) }
    ensures same { marker.new ≡ marker.old }
{
    if issue.file != number {
        return Ok(());
    }
    let diagnostic = Diagnostic {
        range: marker.range(issue.at),
        rule: Some(issue.rule),
        text: issue.message.as_str(),
    };
    match all.push(diagnostic) {
        Ok(()) => Ok(()),
        Err(_) => Err(AllocError),
    }
}

/// The diagnostics of the issues of the file of this number.
fn issues_in<'i>(
    alloc: Global,
    units: Units,
    number: u32,
    source: &Source,
    issues: &'i [Issue],
) -> Result<Vec<Diagnostic<'i>>, AllocError>
    ensures { IfOk result (λ all. map diagnostic_seen all.items
        ≡ issue_diagnostics units number source.now issues.now) }
{
    let mut marker = Marker::new(units, source.text());
    let mut all = Vec::new(alloc);
    for issue in issues {
        add_issue(number, issue, &mut marker, &mut all)?;
    }
    Ok(all)
}

/// The message about the file of this number among those of a module.
pub(crate) fn file_message(
    alloc: Global,
    units: Units,
    uri: &str,
    number: u32,
    state: &FileState,
    issues: &[Issue],
) -> Result<ToldMessage, AllocError>
    ensures { IfOk result (TellsDocument (told_document uri.now
        (file_diagnostics units issues.now number state.now))) }
{
    match state {
        FileState::Good(source) => {
            let all = issues_in(alloc, units, number, source, issues)?;
            told_message(alloc, uri, all.as_slice())
        }
        FileState::Refused(source, fault) => fault_message(alloc, units, uri, source, *fault),
        FileState::NoText(fault) => front_message(alloc, uri, fault.kind.text()),
        FileState::TooMuch => front_message(alloc, uri, "module too large"),
        FileState::Unread(fault) => front_message(alloc, uri, fault.text()),
    }
}
