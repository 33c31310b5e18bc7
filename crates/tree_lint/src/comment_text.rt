//! Messages about comments.

ghost use Rattle.std.specs.Prelude.{◌≡◌, ◌==◌, IfOk, OnOk, filter, map, not};
ghost use Rattle.std.specs.List.{slice_split};
ghost use Rattle.tf_facts.specs.Silencing.{trim_blanks};
ghost use Rattle.tree_lint.specs.CommentTexts.{fault_text, has_file_keyword, is_known, unknown_names, unknown_text};
ghost use Rattle.tree_lint.specs.Inner.NameTexts.{before_name, with_name, with_unknown};

use file_tree::quote::push_in_quotes;
use rule_set::{ALL_RULES, rule_named};
use std::alloc::{AllocError, Global};
use tf_facts::{comment_words, silencing_list, trim_blanks};

/// The beginning of TFLint's comment for a whole file, after its mark and blanks.
const FILE_KEYWORD: &[u8] = b"tflint-ignore-file:";

static NO_EFFECT: &[u8] = b"tflint-ignore-file silences nothing here";

/// Whether a name in a silencing comment means a rule or all.
fn is_known(name: &[u8]) -> bool
    ensures { result ≡ is_known name.now }
{
    if name == b"all".as_slice() {
        return true;
    }
    rule_named(&ALL_RULES, name).is_some()
}

/// The text before a name: the first, or a further one.
fn before_name(text: &[u8]) -> &'static [u8]
    ensures { result.now ≡ before_name text.now }
{
    if text.is_empty() {
        return b"no rule is called ";
    }
    b" or "
}

/// Appends another name that no rule has.
fn push_name(text: &mut Vec<u8>, name: &[u8]) -> Result<(), AllocError>
    ensures { OnOk result (text.new.items ≡ with_name text.old.items name.now) }
{
    let front = before_name(text.as_slice());
    text.extend_from_slice(front)?;
    push_in_quotes(text, name)
}

/// Appends a name, unless it is a rule's.
fn push_unknown(text: &mut Vec<u8>, name: &[u8]) -> Result<(), AllocError>
    ensures { OnOk result (text.new.items ≡ with_unknown text.old.items name.now) }
{
    if is_known(name) {
        return Ok(());
    }
    push_name(text, name)
}

/// The message about a list of names with commas between them.
fn unknown_text(alloc: Global, list: &[u8]) -> Result<Vec<u8>, AllocError>
    ensures { IfOk result (λ text. text.items
        ≡ unknown_text (filter (λ name. not (is_known name))
        (map trim_blanks (slice_split (λ b. b == 44) list.now)))) }
{
    let mut text = Vec::new(alloc);
    for part in list.split(|byte| *byte == b',') {
        push_unknown(&mut text, trim_blanks(part))?;
    }
    Ok(text)
}

/// Whether a comment is TFLint's for a whole file.
fn has_file_keyword(comment: &[u8]) -> bool
    ensures { result ≡ has_file_keyword comment.now }
{
    comment_words(comment).starts_with(FILE_KEYWORD)
}

/// The message about the names in a comment.
fn names_text(alloc: Global, comment: &[u8]) -> Result<Vec<u8>, AllocError>
    ensures { IfOk result (λ text. text.items ≡ unknown_text (unknown_names comment.now)) }
{
    match silencing_list(comment) {
        Some(list) => unknown_text(alloc, list),
        None => Ok(Vec::new(alloc)),
    }
}

/// The message about the line comment of this text: none for most.
pub(crate) fn fault_text(alloc: Global, comment: &[u8]) -> Result<Vec<u8>, AllocError>
    ensures { IfOk result (λ text. text.items ≡ fault_text comment.now) }
{
    if has_file_keyword(comment) {
        return Vec::from_slice(alloc, NO_EFFECT);
    }
    names_text(alloc, comment)
}
