//! The order of issues.

ghost use Rattle.std.specs.Prelude.{◌≡◌, IfOk, IsPermutation, IsSorted};
ghost use Rattle.tf_rules.specs.Inner.Entries.{entry_cmp};

use crate::entry::IssueEntry;
use rule_set::rank;
use std::alloc::AllocError;

/// The entries by file, then token, then the name of the rule.
pub fn in_order<'f>(entries: Vec<IssueEntry<'f>>) -> Result<Vec<IssueEntry<'f>>, AllocError>
    ensures all { IfOk result (λ sorted. IsPermutation entries.entry.items sorted.items) }
    ensures ordered { IfOk result (λ sorted. IsSorted entry_cmp sorted.items) }
{
    let mut sorted = entries;
    sorted.sort_by_key(|entry| (entry.at.file, entry.at.token, rank(entry.rule)))?;
    Ok(sorted)
}
