//! The stored facts of a module's files, and their issues.

ghost use Rattle.std.specs.Prelude.{◌≡◌, ◌≤◌, ◌<◌, ◌+◌, ◌++◌, List, IsPermutation, map, IfOk, OnOk, OnErr};
ghost use Rattle.std.specs.List.{flat_map, list_any};
ghost use Rattle.std.specs.Vec.{vec_capacity, vec_len};
ghost use Rattle.hcl_grammar.specs.Items.{outline};
ghost use Rattle.hcl_grammar.specs.Numbered.{number_tokens};
ghost use Rattle.tf_rules.specs.Answers.{AreIssues, Rising};
ghost use Rattle.tf_rules.specs.Findings.{findings};
ghost use Rattle.tf_rules.specs.Issues.{File, asked_of};
ghost use Rattle.tf_rules.specs.Stored.{issue_at, stored_of, no_facts, with_file};
ghost use Rattle.tf_facts.specs.References.{references};
ghost use Rattle.rule_set.specs.RuleSets.{holds, rules_of};
ghost use Rattle.tf_rules.specs.Inner.Entries.{declared_rules, issues_by, issues_declared, issues_of};
ghost use Rattle.tf_rules.specs.Inner.StoredFacts.{stored_facts, with_found};

use crate::entry::IssueEntry;
use crate::findings::{push_comments, push_declarations, push_places};
use crate::issue::Issue;
use crate::issue_list::IssueList;
use crate::order::in_order;
use crate::owned::owned_issues;
use crate::settings::Settings;
use crate::silenced::{shown_entries, silenced_lines};
use crate::stored::{StoredComment, StoredDeclaration, TokenPlace};
use crate::stored_file::{StoredFile, stored_file};
use hcl_syntax::{Accepted, Outline, outline};
use rule_set::{Rule, RuleSet};
use std::alloc::{AllocError, Global};
use std::marker::Model;
use std::mem::swap;
use tf_facts::{Hashing, TextSet, add_references_of};

/// The stored facts of a module's files: places, names and flags, and no source.
#[derive(Drop)]
pub struct Facts {
    alloc: Global,
    comments: Vec<StoredComment>,
    indexes: Vec<TokenPlace>,
    interpolations: Vec<TokenPlace>,
    declarations: Vec<StoredDeclaration>,
    references: TextSet,
}

impl Model for Facts {
    ghost use Rattle.std.specs.Prelude.{map};
    ghost use Rattle.tf_rules.specs.Stored.{Stored};
    ghost use Rattle.tf_rules.specs.Inner.StoredViews.{stored_comment, stored_declaration, place_of};

    ghost Value = { Stored };

    ghost view = { λ f. record {
      facts = record {
        comments = map stored_comment f.comments.items;
        indexes = map place_of f.indexes.items;
        interpolations = map place_of f.interpolations.items;
        declarations = map stored_declaration f.declarations.items;
      };
      references = f.references;
    } };
}

/// Makes room in a list for this many more elements. An empty list needs none, since the list of new elements replaces
/// it.
fn make_room<T>(list: &mut Vec<T>, more: usize) -> Result<(), AllocError>
    ensures same { list.new.items ≡ list.old.items }
    ensures room { OnOk result (0 < vec_len list.new
        → vec_len list.new + more ≤ vec_capacity list.new) }
{
    if list.is_empty() {
        return Ok(());
    }
    list.reserve(more)
}

/// Moves all elements of one list to the end of another, which is empty or has room for them.
fn move_to_end<T>(from: &mut Vec<T>, into: &mut Vec<T>)
    requires { 0 < vec_len into.old → vec_len into.old + vec_len from.old ≤ vec_capacity into.old }
    ensures { into.new.items ≡ into.old.items ++ from.old.items }
{
    if into.is_empty() {
        swap(from, into);
        return;
    }
    let Ok(()) = into.append(from) else {
        unreachable!();
    };
}

/// Whether a rule about declarations is requested.
fn asks_of_declarations(rules: RuleSet) -> bool
    ensures { result ≡ list_any (holds rules) declared_rules }
{
    rules.holds(Rule::DocumentedOutputs)
        | rules.holds(Rule::DocumentedVariables)
        | rules.holds(Rule::ModuleVersion)
        | rules.holds(Rule::NamingConvention)
        | rules.holds(Rule::TypedVariables)
        | rules.holds(Rule::UnusedDeclarations)
        | rules.holds(Rule::ModulePinnedSource)
}

impl Facts {
    /// The facts of no file. References are hashed by a seed that all runs share.
    pub fn new(alloc: Global) -> Result<Facts, AllocError>
        ensures { IfOk result (λ facts. facts ≡ no_facts) }
    {
        Facts::with_hashing(alloc, Hashing::with_shared_seed())
    }

    /// The facts of no file.
    pub fn with_hashing(alloc: Global, hashing: Hashing) -> Result<Facts, AllocError>
        ensures { IfOk result (λ facts. facts ≡ no_facts) }
    {
        Ok(Facts {
            alloc,
            comments: Vec::new(alloc),
            indexes: Vec::new(alloc),
            interpolations: Vec::new(alloc),
            declarations: Vec::new(alloc),
            references: TextSet::with_hashing(alloc, hashing),
        })
    }

    /// Stores the facts of a file, or none of them.
    fn keep(
        &mut self,
        accepted: &Accepted<'_, '_>,
        items: &Outline,
        kept: &mut StoredFile,
    ) -> Result<(), AllocError>
        requires { items.now ≡ outline accepted.now.tokens }
        ensures ok { OnOk result (self.new
            ≡ with_found self.old (stored_facts kept.old)
            (references (number_tokens accepted.now.tokens))) }
        ensures err { OnErr result (self.new ≡ self.old) }
    {
        make_room(&mut self.comments, kept.comments.len())?;
        make_room(&mut self.indexes, kept.indexes.len())?;
        make_room(&mut self.interpolations, kept.interpolations.len())?;
        make_room(&mut self.declarations, kept.declarations.len())?;
        add_references_of(self.alloc, accepted, items, &mut self.references)?;
        move_to_end(&mut kept.comments, &mut self.comments);
        move_to_end(&mut kept.indexes, &mut self.indexes);
        move_to_end(&mut kept.interpolations, &mut self.interpolations);
        move_to_end(&mut kept.declarations, &mut self.declarations);
        Ok(())
    }

    /// Stores the facts of a file with this outline.
    fn add_outlined(
        &mut self,
        number: u32,
        accepted: &Accepted<'_, '_>,
        items: &Outline,
    ) -> Result<(), AllocError>
        requires { items.now ≡ outline accepted.now.tokens }
        ensures ok { OnOk result (self.new
            ≡ with_file self.old (record { number = number; source = accepted.now })) }
        ensures err { OnErr result (self.new ≡ self.old) }
    {
        let mut kept = stored_file(self.alloc, number, accepted, items)?;
        self.keep(accepted, items, &mut kept)
    }

    /// Stores the facts of one more file, whose number is above those of the files before it. A refusal leaves the
    /// stored facts unchanged.
    pub fn add_file(&mut self, number: u32, accepted: &Accepted<'_, '_>) -> Result<(), AllocError>
        ensures ok { OnOk result (self.new
            ≡ with_file self.old (record { number = number; source = accepted.now })) }
        ensures err { OnErr result (self.new ≡ self.old) }
    {
        let items = outline(self.alloc, accepted)?;
        self.add_outlined(number, accepted, &items)
    }

    /// Pushes the issues about comments, if they are requested.
    fn push_slash_comments<'f>(
        &'f self,
        settings: &Settings,
        entries: &mut Vec<IssueEntry<'f>>,
    ) -> Result<(), AllocError>
        ensures { OnOk result (issues_of entries.new.items ≡ issues_of entries.old.items
            ++ issues_by settings.now self.now Rule.CommentSyntax) }
    {
        if !settings.rules.holds(Rule::CommentSyntax) {
            return Ok(());
        }
        push_comments(&self.comments, entries)
    }

    /// Pushes the issues about dots before numbers, if they are requested.
    fn push_indexes<'f>(
        &'f self,
        settings: &Settings,
        entries: &mut Vec<IssueEntry<'f>>,
    ) -> Result<(), AllocError>
        ensures { OnOk result (issues_of entries.new.items ≡ issues_of entries.old.items
            ++ issues_by settings.now self.now Rule.DeprecatedIndex) }
    {
        if !settings.rules.holds(Rule::DeprecatedIndex) {
            return Ok(());
        }
        push_places(
            Rule::DeprecatedIndex,
            "list items should be accessed using square brackets",
            &self.indexes,
            entries,
        )
    }

    /// Pushes the issues about interpolations alone, if they are requested.
    fn push_interpolations<'f>(
        &'f self,
        settings: &Settings,
        entries: &mut Vec<IssueEntry<'f>>,
    ) -> Result<(), AllocError>
        ensures { OnOk result (issues_of entries.new.items ≡ issues_of entries.old.items
            ++ issues_by settings.now self.now Rule.DeprecatedInterpolation) }
    {
        if !settings.rules.holds(Rule::DeprecatedInterpolation) {
            return Ok(());
        }
        push_places(
            Rule::DeprecatedInterpolation,
            "interpolation-only expressions are deprecated",
            &self.interpolations,
            entries,
        )
    }

    /// Pushes the issues about declarations, as far as they are requested.
    fn push_declared<'f>(
        &'f self,
        settings: &Settings,
        entries: &mut Vec<IssueEntry<'f>>,
    ) -> Result<(), AllocError>
        ensures { OnOk result (issues_of entries.new.items
            ≡ issues_of entries.old.items ++ flat_map
            (issues_declared settings.now self.now.references) self.now.facts.declarations) }
    {
        if !asks_of_declarations(settings.rules) {
            return Ok(());
        }
        push_declarations(
            self.alloc,
            settings,
            &self.references,
            &self.declarations,
            entries,
        )
    }

    /// The issues of all requested rules, silenced or not: first by rules, then by declarations. They are sorted
    /// afterwards, so any order is right, and this one is nearly sorted.
    fn reported_entries<'f>(
        &'f self,
        settings: &Settings,
    ) -> Result<Vec<IssueEntry<'f>>, AllocError>
        ensures { IfOk result (λ entries. IsPermutation (flat_map (λ rule. map (issue_at rule)
            (findings settings.now.naming self.now.references self.now.facts rule))
            (rules_of settings.now.rules)) (issues_of entries.items)) }
    {
        let mut entries: Vec<IssueEntry<'f>> = Vec::new(self.alloc);
        self.push_slash_comments(settings, &mut entries)?;
        self.push_indexes(settings, &mut entries)?;
        self.push_interpolations(settings, &mut entries)?;
        self.push_declared(settings, &mut entries)?;
        Ok(entries)
    }

    /// The issues of the files, by file, then token, then the name of the rule. No message is built: the list gives
    /// each message in parts, which are texts of the stored facts.
    pub fn issue_list(&self, settings: &Settings) -> Result<IssueList<'_>, AllocError>
        ensures { (files : List File) → self.now ≡ stored_of files → Rising files
            → IfOk result (λ issues. AreIssues (asked_of settings.now) files issues) }
    {
        let entries = self.reported_entries(settings)?;
        let lines = silenced_lines(self.alloc, &self.comments)?;
        let sorted = in_order(entries)?;
        let shown = shown_entries(self.alloc, sorted, &lines)?;
        Ok(IssueList::new(shown))
    }

    /// The issues of the files, in the same order, each with a message that owns its text.
    pub fn issues(&self, settings: &Settings) -> Result<Vec<Issue>, AllocError>
        ensures { (files : List File) → self.now ≡ stored_of files → Rising files
            → IfOk result (λ issues. AreIssues (asked_of settings.now) files issues.items) }
    {
        match self.issue_list(settings) {
            Ok(issues) => owned_issues(self.alloc, &issues),
            Err(error) => Err(error),
        }
    }
}
