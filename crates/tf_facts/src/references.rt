//! All references of a file.

ghost use Rattle.std.specs.List.{list_any};
ghost use Rattle.std.specs.Prelude.{◌≡◌, ◌<◌, ◌≤◌, ◌+◌, ◌^◌, ◌∷◌, ◌++◌, ◌&&◌, nat_le, nat_lt, slice_get, Some, ℕ, List, OnOk, OnErr, IfOk, length, map, take, true, false};
ghost use Rattle.std.specs.String.{string_bytes};
ghost use Rattle.std.specs.Str.{bytes_eq};
ghost use Rattle.indexmap.specs.IndexSet.{insert_all};
ghost use Rattle.tf_facts.specs.References.{is_self_reference, reference_at, references_from, unless_self_reference};
ghost use Rattle.tf_facts.specs.Inner.Idents.{AreNoIdents, IsIdentAt};
ghost use Rattle.tf_facts.specs.Seen.{seen_from, numbered_of};
ghost use Rattle.tf_facts.specs.Inner.Spelled.{spelling_of};
ghost use Rattle.tf_facts.specs.VariableBlocks.{AreDisjoint};
ghost use Rattle.tf_facts.specs.Inner.Blocks.{block_view, ArePassed, Extends, IsAhead};

use crate::reference::{Reference, is_ident, may_be_named, reference_at};
use crate::seen::{SeenToken, is_after_dot};
use crate::text_set::TextSet;
use crate::variable_block::VariableBlock;
use hcl_tokens::Tokens;
use std::alloc::{AllocError, Global};

/// Writes the text that identifies a reference over another text, whose room it reuses.
fn spell(reference: Reference<'_>, text: &mut String) -> Result<(), AllocError>
    ensures { OnOk result (string_bytes text.new ≡ spelling_of reference.entry) }
{
    text.clear();
    match reference {
        Reference::Variable(name) => {
            text.push_str("var.")?;
            text.push_str(name)?;
            Ok(())
        }
        Reference::Local(name) => {
            text.push_str("local.")?;
            text.push_str(name)?;
            Ok(())
        }
        Reference::Data(kind, name) => {
            text.push_str("data.")?;
            text.push_str(kind)?;
            text.push_str(".")?;
            text.push_str(name)?;
            Ok(())
        }
    }
}

/// The block of this number.
fn block_at<'s>(blocks: &[VariableBlock<'s>], i: usize) -> VariableBlock<'s>
    requires { i < length blocks.now }
    ensures { slice_get blocks.now i ≡ Some result }
{
    blocks[i]
}

/// Whether the block is that of the variable of this name, and begins at or before a token.
fn begins_before(block: VariableBlock<'_>, number: usize, name: &str) -> bool
    ensures { result ≡ (nat_le block.entry.first number && bytes_eq block.entry.name.now name.now) }
{
    block.first <= number && block.name == name
}

/// How many blocks end at or before a token, if `from` of them are known to.
fn count_passed(blocks: &[VariableBlock<'_>], from: usize, number: usize) -> usize
    requires passed { ArePassed (map block_view blocks.now) from number }
    requires within { from ≤ length blocks.now }
    ensures passed { ArePassed (map block_view blocks.now) result number }
    ensures within { result ≤ length blocks.now }
    ensures ahead { IsAhead blocks.now result number }
{
    let mut next = from;
    while next < blocks.len() {
        let block = block_at(blocks, next);
        if number < block.end {
            return next;
        }
        next += 1;
    }
    next
}

/// Whether a reference at a token is a self-reference: whether it stands in the block of the variable that it names.
/// Blocks before `next` end at or before the token, and the blocks follow one another, so only the next block can
/// contain it.
fn is_self_reference(
    blocks: &[VariableBlock<'_>],
    next: usize,
    number: usize,
    reference: Reference<'_>,
) -> bool
    requires disjoint { AreDisjoint 0 (map block_view blocks.now) }
    requires passed { ArePassed (map block_view blocks.now) next number }
    requires within { next ≤ length blocks.now }
    requires ahead { IsAhead blocks.now next number }
    ensures { result ≡ is_self_reference (map block_view blocks.now) number
        (spelling_of reference.entry) }
{
    let Reference::Variable(name) = reference else {
        return false;
    };
    if next >= blocks.len() {
        return false;
    }
    let block = block_at(blocks, next);
    begins_before(block, number, name)
}

/// The blocks of variables, in order.
#[derive(Clone, Copy)]
struct Blocks<'b, 's> {
    all: &'b [VariableBlock<'s>],
    /// How many of them end at or before the current token.
    passed: usize,
}

/// Inserts the reference that begins with a token into the set, unless it is a self-reference. Its text is written into
/// the room of another's.
fn insert_reference(
    alloc: Global,
    tokens: &Tokens<'_>,
    blocks: Blocks<'_, '_>,
    word: SeenToken<'_>,
    text: &mut String,
    into: &mut TextSet,
) -> Result<(), AllocError>
    requires within { word.number < length tokens.now.tokens }
    requires small { word.number + 1 < 2 ^ 64 }
    requires disjoint { AreDisjoint 0 (map block_view blocks.all.now) }
    requires passed { ArePassed (map block_view blocks.all.now) blocks.passed word.number }
    requires next { blocks.passed ≤ length blocks.all.now }
    requires ahead { IsAhead blocks.all.now blocks.passed word.number }
    ensures ok { OnOk result (into.new
        ≡ insert_all bytes_eq into.old (unless_self_reference (map block_view blocks.entry.all.now)
        word.entry.number
        (reference_at (numbered_of word.entry ∷ seen_from tokens.now.tokens
        (word.entry.number + 1))))) }
    ensures err { OnErr result (into.new ≡ into.old) }
{
    let Some(reference) = reference_at(tokens, word) else {
        return Ok(());
    };
    if is_self_reference(blocks.all, blocks.passed, word.number, reference) {
        return Ok(());
    }
    spell(reference, text)?;
    into.insert_copy(alloc, text.as_str())
}

/// The number of the first identifier from a number on, or how many tokens there are.
#[inline(always)]
fn next_ident(tokens: &Tokens<'_>, from: usize) -> usize
    requires { from ≤ length tokens.now.tokens }
    ensures order { from ≤ result }
    ensures within { result ≤ length tokens.now.tokens }
    ensures none { AreNoIdents tokens.now.tokens from result }
    ensures ident { IsIdentAt tokens.now.tokens result }
{
    let count = tokens.len();
    let mut number = from;
    while number < count {
        if is_ident(tokens.kind(number)) {
            return number;
        }
        number += 1;
    }
    number
}

/// Inserts the references of the tokens into the set, in order; `blocks` are those of variables, one after another. A
/// refusal leaves the set with its old texts, and perhaps with some of these references after them.
pub fn collect(
    alloc: Global,
    tokens: &Tokens<'_>,
    blocks: &[VariableBlock<'_>],
    into: &mut TextSet,
) -> Result<(), AllocError>
    requires { AreDisjoint 0 (map block_view blocks.now) }
    ensures ok { OnOk result (into.new
        ≡ insert_all bytes_eq into.old (references_from (map block_view blocks.now) false
        (seen_from tokens.now.tokens 0))) }
    ensures err { OnErr result (Extends into.old into.new) }
{
    let count = tokens.len();
    let mut passed_blocks = 0;
    let mut text = String::new(alloc);
    let mut next = next_ident(tokens, 0);
    while next < count {
        let number = next;
        next = next_ident(tokens, number + 1);
        // Few words may have a name after them, and only for those the token before matters.
        if !may_be_named(tokens, number) {
            continue;
        }
        if is_after_dot(tokens, number) {
            continue;
        }
        passed_blocks = count_passed(blocks, passed_blocks, number);
        let token = tokens.get(number);
        let word = SeenToken {
            number,
            kind: token.kind,
            text: token.text,
        };
        let blocks = Blocks {
            all: blocks,
            passed: passed_blocks,
        };
        insert_reference(alloc, tokens, blocks, word, &mut text, into)?;
    }
    Ok(())
}

/// Inserts the references of the tokens into the set. A refusal leaves the set unchanged.
pub fn add_references(
    alloc: Global,
    tokens: &Tokens<'_>,
    blocks: &[VariableBlock<'_>],
    into: &mut TextSet,
) -> Result<(), AllocError>
    requires { AreDisjoint 0 (map block_view blocks.now) }
    ensures ok { OnOk result (into.new
        ≡ insert_all bytes_eq into.old (references_from (map block_view blocks.now) false
        (seen_from tokens.now.tokens 0))) }
    ensures err { OnErr result (into.new ≡ into.old) }
{
    let before = into.len();
    if let Err(error) = collect(alloc, tokens, blocks, into) {
        into.truncate(before);
        return Err(error);
    }
    Ok(())
}
