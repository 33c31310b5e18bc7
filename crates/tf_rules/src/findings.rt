//! The findings of the rules in all stored facts.

ghost use Rattle.std.specs.Prelude.{◌≡◌, ◌++◌, map, OnOk};
ghost use Rattle.std.specs.List.{flat_map};
ghost use Rattle.tf_rules.specs.Findings.{says_of, slash_findings};
ghost use Rattle.tf_rules.specs.Stored.{issue_at};
ghost use Rattle.tf_rules.specs.Inner.Entries.{issues_of, finding_listed, issues_declared};
ghost use Rattle.tf_rules.specs.Inner.StoredViews.{stored_comment, stored_declaration, place_of};

use crate::entry::{Finding, IssueEntry, Statement};
use crate::finding::{Inputs, push_findings};
use crate::settings::Settings;
use crate::stored::{StoredComment, StoredDeclaration, TokenPlace};
use rule_set::Rule;
use std::alloc::{AllocError, Global};
use tf_facts::TextSet;

/// Pushes a finding, if there is one.
fn push_found<'f>(
    entries: &mut Vec<IssueEntry<'f>>,
    rule: Rule,
    found: Option<Finding<'f>>,
) -> Result<(), AllocError>
    ensures { OnOk result (issues_of entries.new.items
        ≡ issues_of entries.old.items ++ map (issue_at rule) (finding_listed found.entry)) }
{
    let Some(found) = found else {
        return Ok(());
    };
    entries.push(IssueEntry {
        at: found.at,
        rule,
        statement: found.statement,
    })?;
    Ok(())
}

/// The finding about a comment, if that begins with `//`.
fn slash_comment_finding(comment: StoredComment) -> Option<Finding<'static>>
    ensures { finding_listed result ≡ slash_findings (stored_comment comment) }
{
    if !comment.has_slashes {
        return None;
    }
    Some(Finding {
        at: comment.at,
        statement: Statement::Fixed("line comments should begin with #"),
    })
}

/// Pushes the findings about comments.
pub fn push_comments(
    comments: &[StoredComment],
    entries: &mut Vec<IssueEntry<'_>>,
) -> Result<(), AllocError>
    ensures { OnOk result (issues_of entries.new.items
        ≡ issues_of entries.old.items ++ map (issue_at Rule.CommentSyntax)
        (flat_map slash_findings (map stored_comment comments.now))) }
{
    for comment in comments {
        let found = slash_comment_finding(*comment);
        push_found(entries, Rule::CommentSyntax, found)?;
    }
    Ok(())
}

/// Pushes an issue with this text for each of these places.
pub fn push_places(
    rule: Rule,
    text: &'static str,
    places: &[TokenPlace],
    entries: &mut Vec<IssueEntry<'_>>,
) -> Result<(), AllocError>
    ensures { OnOk result (issues_of entries.new.items
        ≡ issues_of entries.old.items ++ map (issue_at rule)
        (map (says_of text.now) (map place_of places.now))) }
{
    for at in places {
        let found = Finding {
            at: *at,
            statement: Statement::Fixed(text),
        };
        push_found(entries, rule, Some(found))?;
    }
    Ok(())
}

/// Pushes the findings of the requested rules about declarations, declaration by declaration, if all files together
/// have these references. So each declaration is read once, and not once for each rule.
pub fn push_declarations<'f>(
    alloc: Global,
    settings: &Settings,
    used: &TextSet,
    declarations: &'f [StoredDeclaration],
    entries: &mut Vec<IssueEntry<'f>>,
) -> Result<(), AllocError>
    ensures { OnOk result (issues_of entries.new.items
        ≡ issues_of entries.old.items ++ flat_map (issues_declared settings.now used.now)
        (map stored_declaration declarations.now)) }
{
    let inputs = Inputs { settings, used };
    let mut text = String::new(alloc);
    for declaration in declarations {
        push_findings(&inputs, declaration, &mut text, entries)?;
    }
    Ok(())
}
