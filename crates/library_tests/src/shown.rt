//! Tokens and faults as the texts in the rows of tests.

use hcl_scan::{Fault, ScanError, Token, Tokens};
use std::alloc::AllocError;

/// A token's kind and its length in bytes.
pub(crate) fn push_length(line: &mut String, token: &Token<'_>) -> Result<(), AllocError> {
    let kind = token.kind;
    let length = token.text.len();
    write!(line, "{kind:?} {length}")
}

/// A token's kind and place, after a `!` if it is inside a heredoc.
fn push_place(line: &mut String, token: &Token<'_>) -> Result<(), AllocError> {
    let mark = if token.inside_heredoc { "!" } else { "" };
    let kind = token.kind;
    let start = token.start;
    let end = start.saturating_add(token.text.len());
    write!(line, "{mark}{kind:?} {start}-{end}")
}

/// The tokens by kind and place, with a blank between them.
pub(crate) fn push_places(line: &mut String, tokens: &Tokens<'_>) -> Result<(), AllocError> {
    for i in 0..tokens.len() {
        if i > 0 {
            line.push_str(" ")?;
        }
        push_place(line, &tokens.get(i))?;
    }
    Ok(())
}

fn push_fault(line: &mut String, fault: Fault) -> Result<(), AllocError> {
    let kind = fault.kind;
    let row = fault.at.line;
    let column = fault.at.column;
    write!(line, "{kind:?} at {row}:{column}")
}

/// Why a text has no tokens.
pub(crate) fn push_error(line: &mut String, error: &ScanError) -> Result<(), AllocError> {
    match error {
        ScanError::Fault(fault) => push_fault(line, *fault),
        ScanError::OutOfMemory => line.push_str("out of memory"),
    }
}
