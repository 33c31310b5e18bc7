//! The findings of the rules about one declaration, which are pushed after those about others.

ghost use Rattle.std.specs.Prelude.{◌≡◌, ◌++◌, ◌∷◌, ◌&&◌, [], map, not, IfOk, OnOk};
ghost use Rattle.std.specs.List.{list_any};
ghost use Rattle.std.specs.Str.{bytes_eq};
ghost use Rattle.tf_facts.specs.References.{data_reference, last_of};
ghost use Rattle.tf_rules.specs.Findings.{finding, from_registry, is_unused, kind_text, says_if, unpinned_findings, unpinned_findings_by, uses_of};
ghost use Rattle.tf_rules.specs.Stored.{issue_at};
ghost use Rattle.tf_rules.specs.Inner.Entries.{issues_of, issues_declared, issues_if_asked, open_quote, text_of};
ghost use Rattle.tf_rules.specs.Inner.StoredViews.{stored_declaration, stored_names, stored_source, place_of};
ghost use Rattle.tf_facts.specs.Declarations.{is_kind};
ghost use Rattle.tf_facts.specs.Found.{source};
ghost use Rattle.std.specs.Option.{option_map};

use crate::entry::{IssueEntry, Statement};
use crate::naming::{Naming, matches_naming};
use crate::settings::Settings;
use crate::statement::last_label;
use crate::stored::{StoredDeclaration, StoredNames, StoredSource, TokenPlace};
use rule_set::Rule;
use std::alloc::AllocError;
use tf_facts::{DeclarationKind, ModuleSource, TextSet};

fn is_output(kind: DeclarationKind) -> bool
    ensures { result ≡ is_kind DeclarationKind.Output kind }
{
    matches!(kind, DeclarationKind::Output)
}

fn is_variable(kind: DeclarationKind) -> bool
    ensures { result ≡ is_kind DeclarationKind.Variable kind }
{
    matches!(kind, DeclarationKind::Variable)
}

/// Pushes a message about a place.
#[inline(always)]
fn push_message<'f>(
    entries: &mut Vec<IssueEntry<'f>>,
    rule: Rule,
    at: TokenPlace,
    statement: Statement<'f>,
) -> Result<(), AllocError>
    ensures { OnOk result (issues_of entries.new.items
        ≡ issues_of entries.old.items ++ issue_at rule
        (record { at = place_of at; message = text_of statement.entry }) ∷ []) }
{
    entries.push(IssueEntry {
        at,
        rule,
        statement,
    })?;
    Ok(())
}

/// Pushes that a declaration lacks an attribute, if it does. The rest of the text begins with the quote after its name.
#[inline(always)]
fn push_lacking<'f>(
    entries: &mut Vec<IssueEntry<'f>>,
    rule: Rule,
    is_lacking: bool,
    declaration: &'f StoredDeclaration,
    rest: &'static str,
) -> Result<(), AllocError>
    ensures { OnOk result (issues_of entries.new.items
        ≡ issues_of entries.old.items ++ map (issue_at rule)
        (says_if is_lacking (place_of declaration.now.at)
        (kind_text declaration.now.kind
        ++ open_quote (last_of (stored_names declaration.now.names)) rest.now))) }
{
    if !is_lacking {
        return Ok(());
    }
    push_message(
        entries,
        rule,
        declaration.at,
        Statement::About(declaration, rest),
    )
}

/// Pushes that a module's source is not pinned, if it isn't.
fn push_unpinned_by<'f>(
    entries: &mut Vec<IssueEntry<'f>>,
    rule: Rule,
    declaration: &'f StoredDeclaration,
    found: StoredSource,
) -> Result<(), AllocError>
    ensures { OnOk result (issues_of entries.new.items
        ≡ issues_of entries.old.items ++ map (issue_at rule)
        (unpinned_findings_by (stored_declaration declaration.now) (place_of found.at)
        (source found.source))) }
{
    match found.source {
        ModuleSource::Other => Ok(()),
        ModuleSource::Registry => Ok(()),
        ModuleSource::NotPinned => push_message(
            entries,
            rule,
            found.at,
            Statement::About(declaration, "\" source is not pinned"),
        ),
        ModuleSource::DefaultBranch(branch) => push_message(
            entries,
            rule,
            found.at,
            Statement::DefaultBranch(declaration, branch),
        ),
    }
}

#[inline(always)]
fn push_unpinned<'f>(
    entries: &mut Vec<IssueEntry<'f>>,
    rule: Rule,
    declaration: &'f StoredDeclaration,
) -> Result<(), AllocError>
    ensures { OnOk result (issues_of entries.new.items
        ≡ issues_of entries.old.items ++ map (issue_at rule)
        (unpinned_findings (stored_declaration declaration.now)
        (option_map stored_source declaration.now.source))) }
{
    match declaration.source {
        Some(found) => push_unpinned_by(entries, rule, declaration, found),
        None => Ok(()),
    }
}

/// Whether a source is an address in a registry.
fn from_registry(found: Option<StoredSource>) -> bool
    ensures { result ≡ from_registry (option_map stored_source found) }
{
    match found {
        Some(found) => matches!(found.source, ModuleSource::Registry),
        None => false,
    }
}

/// Pushes that a name doesn't have the naming, if it doesn't.
#[inline(always)]
fn push_misnamed<'f>(
    entries: &mut Vec<IssueEntry<'f>>,
    naming: Naming,
    rule: Rule,
    declaration: &'f StoredDeclaration,
) -> Result<(), AllocError>
    ensures { OnOk result (issues_of entries.new.items
        ≡ issues_of entries.old.items ++ map (issue_at rule)
        (finding naming [] Rule.NamingConvention (stored_declaration declaration.now))) }
{
    let name = last_label(&declaration.names);
    if matches_naming(naming, name) {
        return Ok(());
    }
    push_message(
        entries,
        rule,
        declaration.at,
        Statement::Misnamed(declaration, naming),
    )
}

/// Whether there is no reference with this text, which is built in the room of another text.
fn is_unknown(
    used: &TextSet,
    front: &str,
    name: &str,
    text: &mut String,
) -> Result<bool, AllocError>
    ensures { IfOk result (λ unknown. unknown
        ≡ not (list_any (bytes_eq (front.now ++ name.now)) used.now)) }
{
    text.clear();
    text.push_str(front)?;
    text.push_str(name)?;
    Ok(!used.contains(text.as_str()))
}

/// Whether there is no reference to the data of this type and name.
fn is_unknown_data(
    used: &TextSet,
    kind: &str,
    name: &str,
    text: &mut String,
) -> Result<bool, AllocError>
    ensures { IfOk result (λ unknown. unknown
        ≡ not (list_any (bytes_eq (data_reference kind.now name.now)) used.now)) }
{
    text.clear();
    text.push_str("data.")?;
    text.push_str(kind)?;
    text.push_str(".")?;
    text.push_str(name)?;
    Ok(!used.contains(text.as_str()))
}

/// Whether there is no reference to the data of these labels.
fn is_unused_data(
    used: &TextSet,
    names: &StoredNames,
    text: &mut String,
) -> Result<bool, AllocError>
    ensures { IfOk result (λ unused. unused
        ≡ is_unused used.now (uses_of DeclarationKind.Data (stored_names names.now))) }
{
    match names {
        StoredNames::Two(kind, name) => is_unknown_data(used, kind.as_str(), name.as_str(), text),
        StoredNames::None => Ok(false),
        StoredNames::One(_) => Ok(false),
        StoredNames::More => Ok(false),
    }
}

/// Whether there is no reference to a declaration that can be referred to.
fn is_unused(
    used: &TextSet,
    declaration: &StoredDeclaration,
    text: &mut String,
) -> Result<bool, AllocError>
    ensures { IfOk result (λ unused. unused
        ≡ is_unused used.now (uses_of declaration.now.kind (stored_names declaration.now.names))) }
{
    match declaration.kind {
        DeclarationKind::Variable => is_unknown(used, "var.", last_label(&declaration.names), text),
        DeclarationKind::Local => is_unknown(used, "local.", last_label(&declaration.names), text),
        DeclarationKind::Data => is_unused_data(used, &declaration.names, text),
        DeclarationKind::Output => Ok(false),
        DeclarationKind::Module => Ok(false),
        DeclarationKind::Resource => Ok(false),
    }
}

/// Pushes that nothing refers to a declaration, if nothing does.
#[inline(always)]
fn push_unused<'f>(
    entries: &mut Vec<IssueEntry<'f>>,
    used: &TextSet,
    rule: Rule,
    declaration: &'f StoredDeclaration,
    text: &mut String,
) -> Result<(), AllocError>
    ensures { OnOk result (issues_of entries.new.items
        ≡ issues_of entries.old.items ++ map (issue_at rule)
        (finding Naming.SnakeCase used.now Rule.UnusedDeclarations
        (stored_declaration declaration.now))) }
{
    if !is_unused(used, declaration, text)? {
        return Ok(());
    }
    push_message(
        entries,
        rule,
        declaration.at,
        Statement::Unused(declaration),
    )
}

/// Pushes the finding of a rule about a declaration, if all files together have these references. A reference to it is
/// built in the room of another text. It returns no finding, since most rules have none about most declarations.
#[inline(always)]
fn push_finding<'f>(
    naming: Naming,
    used: &TextSet,
    rule: Rule,
    declaration: &'f StoredDeclaration,
    text: &mut String,
    entries: &mut Vec<IssueEntry<'f>>,
) -> Result<(), AllocError>
    ensures { OnOk result (issues_of entries.new.items
        ≡ issues_of entries.old.items ++ map (issue_at rule)
        (finding naming used.now rule (stored_declaration declaration.now))) }
{
    match rule {
        Rule::DocumentedOutputs => push_lacking(
            entries,
            rule,
            is_output(declaration.kind) && !declaration.is_described,
            declaration,
            "\" has no description",
        ),
        Rule::DocumentedVariables => push_lacking(
            entries,
            rule,
            is_variable(declaration.kind) && !declaration.is_described,
            declaration,
            "\" has no description",
        ),
        Rule::ModulePinnedSource => push_unpinned(entries, rule, declaration),
        Rule::ModuleVersion => push_lacking(
            entries,
            rule,
            from_registry(declaration.source) && !declaration.is_versioned,
            declaration,
            "\" has no version",
        ),
        Rule::NamingConvention => push_misnamed(entries, naming, rule, declaration),
        Rule::TypedVariables => push_lacking(
            entries,
            rule,
            is_variable(declaration.kind) && !declaration.is_typed,
            declaration,
            "\" has no type",
        ),
        Rule::UnusedDeclarations => push_unused(entries, used, rule, declaration, text),
        Rule::CommentSyntax => Ok(()),
        Rule::DeprecatedIndex => Ok(()),
        Rule::DeprecatedInterpolation => Ok(()),
    }
}

/// The requested settings, and the references of all files.
#[derive(Clone, Copy)]
pub struct Inputs<'a> {
    pub settings: &'a Settings,
    pub used: &'a TextSet,
}

/// Pushes the finding of a rule about a declaration, if the rule is requested.
#[inline(always)]
fn push_if_requested<'f>(
    inputs: &Inputs<'_>,
    rule: Rule,
    declaration: &'f StoredDeclaration,
    text: &mut String,
    entries: &mut Vec<IssueEntry<'f>>,
) -> Result<(), AllocError>
    ensures { OnOk result (issues_of entries.new.items ≡ issues_of entries.old.items
        ++ issues_if_asked inputs.now.settings.now inputs.now.used.now
        (stored_declaration declaration.now) rule) }
{
    let settings = inputs.settings;
    if !settings.rules.holds(rule) {
        return Ok(());
    }
    push_finding(
        settings.naming,
        inputs.used,
        rule,
        declaration,
        text,
        entries,
    )
}

/// Pushes the findings of the requested rules about a declaration. There is no loop over the rules, so each rule is
/// known where its test is made. The source of a module has the last place of all that is reported, so its rule comes
/// last: then the entries of declarations in order are sorted.
#[inline(always)]
pub fn push_findings<'f>(
    inputs: &Inputs<'_>,
    declaration: &'f StoredDeclaration,
    text: &mut String,
    entries: &mut Vec<IssueEntry<'f>>,
) -> Result<(), AllocError>
    ensures { OnOk result (issues_of entries.new.items ≡ issues_of entries.old.items
        ++ issues_declared inputs.now.settings.now inputs.now.used.now
        (stored_declaration declaration.now)) }
{
    push_if_requested(inputs, Rule::DocumentedOutputs, declaration, text, entries)?;
    push_if_requested(
        inputs,
        Rule::DocumentedVariables,
        declaration,
        text,
        entries,
    )?;
    push_if_requested(inputs, Rule::ModuleVersion, declaration, text, entries)?;
    push_if_requested(inputs, Rule::NamingConvention, declaration, text, entries)?;
    push_if_requested(inputs, Rule::TypedVariables, declaration, text, entries)?;
    push_if_requested(inputs, Rule::UnusedDeclarations, declaration, text, entries)?;
    push_if_requested(inputs, Rule::ModulePinnedSource, declaration, text, entries)
}
