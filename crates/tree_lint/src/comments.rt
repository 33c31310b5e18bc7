//! The comments of a file, checked in turn.

ghost use Rattle.std.specs.Prelude.{◌≡◌, ◌<◌, ◌++◌, OnOk, Some, length, map, slice_get, true};
ghost use Rattle.hcl_tokens.specs.Kinds.{is};
ghost use Rattle.hcl_tokens.specs.Lexemes.{Lexeme};
ghost use Rattle.hcl_tokens.specs.declared.token.Kind.TheVariants.{LineComment};
ghost use Rattle.tree_lint.specs.CommentFaults.{fault_view, faults_in};
ghost use Rattle.tree_lint.specs.Inner.Looking.{Adds, IsBefore};

use crate::comment_fault::CommentFault;
use crate::comment_text::fault_text;
use hcl_tokens::{Kind, Tokens};
use std::alloc::{AllocError, Global};
use tf_rules::PositionCursor;

fn is_line_comment(kind: Kind) -> bool
    ensures { result ≡ is LineComment kind }
{
    matches!(kind, Kind::LineComment)
}

/// Appends the fault of the line comment of this number, if it has one.
fn add_of_comment(
    alloc: Global,
    file: u32,
    tokens: &Tokens<'_>,
    number: usize,
    cursor: &mut PositionCursor<'_>,
    faults: &mut Vec<CommentFault>,
) -> Result<(), AllocError>
    requires within { number < length tokens.now.tokens }
    requires before { IsBefore tokens.now number cursor.old }
    requires comment { (t : Lexeme) → slice_get tokens.now.tokens number ≡ Some t
        → is LineComment t.kind ≡ true }
    ensures adds { OnOk result (Adds (record { number = file; source = tokens.now })
        number faults.old.items faults.new.items) }
    ensures before { OnOk result (IsBefore tokens.now number cursor.new) }
{
    let token = tokens.get(number);
    let said = fault_text(alloc, token.text.as_bytes())?;
    let said = said.as_slice();
    if said.is_empty() {
        return Ok(());
    }
    let text = String::from_utf8_lossy(alloc, said)?;
    let at = cursor.position_of(tokens, number);
    faults.push(CommentFault { file, at, text })?;
    Ok(())
}

/// Appends the fault of the token of this number, if it is a line comment that has one.
fn add_of_token(
    alloc: Global,
    file: u32,
    tokens: &Tokens<'_>,
    number: usize,
    cursor: &mut PositionCursor<'_>,
    faults: &mut Vec<CommentFault>,
) -> Result<(), AllocError>
    requires within { number < length tokens.now.tokens }
    requires before { IsBefore tokens.now number cursor.old }
    ensures adds { OnOk result (Adds (record { number = file; source = tokens.now })
        number faults.old.items faults.new.items) }
    ensures before { OnOk result (IsBefore tokens.now number cursor.new) }
{
    if !is_line_comment(tokens.kind(number)) {
        return Ok(());
    }
    add_of_comment(alloc, file, tokens, number, cursor, faults)
}

/// Appends the comments of the file of this number that are meant to silence a rule and don't, in their order, by one
/// walk through its tokens.
pub fn add_comment_faults(
    alloc: Global,
    file: u32,
    tokens: &Tokens<'_>,
    faults: &mut Vec<CommentFault>,
) -> Result<(), AllocError>
    ensures { OnOk result (map fault_view faults.new.items ≡ map fault_view faults.old.items
        ++ faults_in (record { number = file; source = tokens.now })) }
{
    let mut cursor = PositionCursor::new(tokens.source().text());
    for number in 0..tokens.len() {
        add_of_token(alloc, file, tokens, number, &mut cursor, faults)?;
    }
    Ok(())
}
