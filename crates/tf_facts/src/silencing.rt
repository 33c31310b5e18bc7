//! Line comments that silence issues.

ghost use Rattle.std.specs.Prelude.{◌≡◌, ◌==◌, ◌||◌, [], MatchOption};
ghost use Rattle.std.specs.List.{list_any, slice_split};
ghost use Rattle.rule_set.specs.RuleSets.{holds};
ghost use Rattle.hcl_tokens.specs.Spelling.{is_blank};
ghost use Rattle.tf_facts.specs.Silencing.{has_slashes, is_margin, names, parts, comment_words, silences, trim_blanks, without_mark};
ghost use Rattle.tf_facts.specs.Texts.{without_end, without_front};

use crate::texts::{after, begins, cut, equals};
use rule_set::{ALL_RULES, Rule, RuleSet, rule_named};

/// The keyword of a silencing comment, after its mark and blanks.
const KEYWORD: &[u8] = b"tflint-ignore:";

fn is_blank(byte: u8) -> bool
    ensures { result ≡ is_blank byte }
{
    byte == b' ' || byte == b'\t'
}

fn is_margin(byte: u8) -> bool
    ensures { result ≡ is_margin byte }
{
    is_blank(byte) || byte == b'\r'
}

/// Whether a comment begins with `//`.
pub fn has_slashes(text: &[u8]) -> bool
    ensures { result ≡ has_slashes text.now }
{
    begins(b"//", text)
}

/// A comment without its mark.
fn without_mark(text: &[u8]) -> &[u8]
    ensures { result.now ≡ without_mark text.now }
{
    if has_slashes(text) {
        return after(text, 2);
    }
    after(text, 1)
}

/// A text without the blanks at its front.
fn without_blanks(text: &[u8]) -> &[u8]
    ensures { result.now ≡ without_front is_blank text.now }
{
    for start in 0..text.len() {
        if !is_blank(text[start]) {
            return &text[start..];
        }
    }
    &text[text.len()..]
}

/// A text without the margin at its front.
fn without_front(text: &[u8]) -> &[u8]
    ensures { result.now ≡ without_front is_margin text.now }
{
    for start in 0..text.len() {
        if !is_margin(text[start]) {
            return &text[start..];
        }
    }
    &text[text.len()..]
}

/// A text without the margin at its end.
fn without_end(text: &[u8]) -> &[u8]
    ensures { result.now ≡ without_end is_margin text.now }
{
    let mut end = text.len();
    while end > 0 {
        if !is_margin(text[end - 1]) {
            return &text[..end];
        }
        end -= 1;
    }
    &text[..0]
}

/// A text without the white space at both ends.
pub fn trim_blanks(part: &[u8]) -> &[u8]
    ensures { result.now ≡ trim_blanks part.now }
{
    without_end(without_front(part))
}

/// The set with the rules that a part of a comment names.
fn with_named(set: RuleSet, part: &[u8]) -> RuleSet
    ensures { (rule : Rule) → holds result rule ≡ (holds set rule || names rule part.now) }
{
    if equals(part, b"all") {
        return RuleSet::all();
    }
    match rule_named(&ALL_RULES, part) {
        Some(rule) => set.with(rule),
        None => set,
    }
}

/// The rules in a list of names between commas.
fn all_named(list: &[u8]) -> RuleSet
    ensures { (rule : Rule) → holds result rule
        ≡ list_any (λ part. names rule (trim_blanks part)) (slice_split (λ b. b == 44) list.now) }
{
    let mut set = RuleSet::none();
    for part in list.split(|byte| *byte == b',') {
        set = with_named(set, trim_blanks(part));
    }
    set
}

/// The text of a comment after its mark and blanks.
pub fn comment_words(text: &[u8]) -> &[u8]
    ensures { result.now ≡ comment_words text.now }
{
    without_blanks(without_mark(text))
}

/// The names in the comment of this text, with commas between them; none unless it is meant to silence a rule.
pub fn silencing_list(text: &[u8]) -> Option<&[u8]>
    ensures { MatchOption result (parts (comment_words text.now) ≡ [])
        (λ list. parts (comment_words text.now) ≡ slice_split (λ b. b == 44) list.now) }
{
    let rest = comment_words(text);
    if !begins(KEYWORD, rest) {
        return None;
    }
    Some(cut(after(rest, KEYWORD.len()), b'#').part)
}

/// The rules that the comment of this text silences.
pub fn silenced_rules(text: &[u8]) -> RuleSet
    ensures { (rule : Rule) → holds result rule ≡ silences text.now rule }
{
    match silencing_list(text) {
        Some(list) => all_named(list),
        None => RuleSet::none(),
    }
}
