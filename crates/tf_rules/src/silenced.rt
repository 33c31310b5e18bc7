//! The rules that are silenced on each line.

ghost use Rattle.std.specs.Prelude.{◌≡◌, ◌==◌, ◌&&◌, ◌||◌, ◌++◌, ◌∷◌, [], ℕ, List, filter, map, not, IfOk, OnOk};
ghost use Rattle.tf_facts.specs.Comments.{Comment};
ghost use Rattle.tf_rules.specs.Issues.{Place, is_silenced};
ghost use Rattle.rule_set.specs.RuleSets.{holds};
ghost use Rattle.tf_rules.specs.Inner.Entries.{issue_of, issues_of};
ghost use Rattle.tf_rules.specs.Inner.StoredViews.{stored_comment};
ghost use Rattle.tf_rules.specs.Inner.SilencedLines.{AreSilenced, silenced_at};
ghost use Rattle.rule_set.specs.declared.rule.Rule.{Rule};

use crate::entry::IssueEntry;
use crate::stored::StoredComment;
use indexmap::IndexMap;
use rule_set::{RuleSet, rules_of_both};
use std::alloc::{AllocError, Global};
use tf_facts::is_any;

/// The silenced rules by the number of the file and the line.
pub type SilencedLines = IndexMap<(u32, u32), RuleSet>;

/// The rules that are silenced on a line.
fn rules_on(lines: &SilencedLines, file: u32, line: u32) -> RuleSet
    ensures { (rule : Rule) → holds result rule ≡ silenced_at lines.now file line rule }
{
    match lines.get(&(file, line)) {
        Some(rules) => *rules,
        None => RuleSet::none(),
    }
}

/// Silences these rules on a line.
fn silence(
    lines: &mut SilencedLines,
    file: u32,
    line: u32,
    rules: RuleSet,
) -> Result<(), AllocError>
    ensures { OnOk result ((f l : ℕ) (rule : Rule)
        → silenced_at lines.new f l rule
        ≡ (silenced_at lines.old f l rule || ((file == f) && (line == l) && holds rules rule))) }
{
    let both = rules_of_both(rules_on(lines, file, line), rules);
    lines.insert((file, line), both)?;
    Ok(())
}

/// Silences the rules of a comment on its own line.
fn silence_by(lines: &mut SilencedLines, comment: StoredComment) -> Result<(), AllocError>
    ensures { (comments : List (Comment Place)) → AreSilenced lines.old comments
        → OnOk result (AreSilenced lines.new (comments ++ stored_comment comment ∷ [])) }
{
    if !is_any(comment.silences) {
        return Ok(());
    }
    silence(lines, comment.at.file, comment.at.at.line, comment.silences)?;
    Ok(())
}

/// The rules that these comments silence on their own lines.
pub fn silenced_lines(
    alloc: Global,
    comments: &[StoredComment],
) -> Result<SilencedLines, AllocError>
    ensures { IfOk result (λ lines. AreSilenced lines (map stored_comment comments.now)) }
{
    let mut lines = IndexMap::new(alloc);
    for comment in comments {
        silence_by(&mut lines, *comment)?;
    }
    Ok(lines)
}

/// Whether an issue is silenced, on its own line or by a comment on the line above.
fn is_silenced(lines: &SilencedLines, entry: &IssueEntry<'_>) -> bool
    ensures { (comments : List (Comment Place)) → AreSilenced lines.now comments
        → result ≡ is_silenced comments (issue_of entry.now) }
{
    let place = entry.at;
    if rules_on(lines, place.file, place.at.line).holds(entry.rule) {
        return true;
    }
    let Some(above) = place.at.line.checked_sub(1) else {
        return false;
    };
    rules_on(lines, place.file, above).holds(entry.rule)
}

/// Pushes an entry, unless it is silenced.
fn push_unsilenced<'f>(
    entry: IssueEntry<'f>,
    lines: &SilencedLines,
    shown: &mut Vec<IssueEntry<'f>>,
) -> Result<(), AllocError>
    ensures { (comments : List (Comment Place)) → AreSilenced lines.now comments
        → OnOk result (issues_of shown.new.items
        ≡ issues_of shown.old.items ++ filter (λ i. not (is_silenced comments i))
        (issue_of entry.entry ∷ [])) }
{
    if is_silenced(lines, &entry) {
        return Ok(());
    }
    shown.push(entry)?;
    Ok(())
}

/// The entries that aren't silenced, in room for all.
fn without_silenced<'f>(
    alloc: Global,
    entries: &[IssueEntry<'f>],
    lines: &SilencedLines,
) -> Result<Vec<IssueEntry<'f>>, AllocError>
    ensures { (comments : List (Comment Place)) → AreSilenced lines.now comments
        → IfOk result (λ shown. issues_of shown.items
        ≡ filter (λ i. not (is_silenced comments i)) (issues_of entries.now)) }
{
    let mut shown = Vec::with_capacity(alloc, entries.len())?;
    for entry in entries {
        push_unsilenced(*entry, lines, &mut shown)?;
    }
    Ok(shown)
}

/// The entries that aren't silenced. In most modules no comment silences anything; then no line is looked up, and the
/// entries are the list itself.
pub fn shown_entries<'f>(
    alloc: Global,
    entries: Vec<IssueEntry<'f>>,
    lines: &SilencedLines,
) -> Result<Vec<IssueEntry<'f>>, AllocError>
    ensures { (comments : List (Comment Place)) → AreSilenced lines.now comments
        → IfOk result (λ shown. issues_of shown.items
        ≡ filter (λ i. not (is_silenced comments i)) (issues_of entries.entry.items)) }
{
    if lines.is_empty() {
        return Ok(entries);
    }
    without_silenced(alloc, entries.as_slice(), lines)
}
