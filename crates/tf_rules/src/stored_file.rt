//! The stored facts of one file, except references.

ghost use Rattle.std.specs.Prelude.{◌≡◌, IfOk};
ghost use Rattle.hcl_grammar.specs.Items.{outline};
ghost use Rattle.tf_facts.specs.Facts.{facts_of};
ghost use Rattle.tf_rules.specs.Issues.{place_in, tokens_of};
ghost use Rattle.tf_rules.specs.Stored.{facts_at};
ghost use Rattle.tf_rules.specs.Inner.StoredFacts.{stored_facts};

use crate::keeping::{places, stored_comments, stored_declarations};
use crate::locator::Locator;
use crate::stored::{StoredComment, StoredDeclaration, TokenPlace};
use hcl_syntax::{Accepted, Outline};
use std::alloc::{AllocError, Global};
use tf_facts::facts_of;

/// The stored facts of one file, except references.
#[derive(Drop)]
pub struct StoredFile {
    pub comments: Vec<StoredComment>,
    pub indexes: Vec<TokenPlace>,
    pub interpolations: Vec<TokenPlace>,
    pub declarations: Vec<StoredDeclaration>,
}

/// The stored facts of the file of this number, by its outline. Each list takes one walk through the file.
pub fn stored_file(
    alloc: Global,
    number: u32,
    accepted: &Accepted<'_, '_>,
    items: &Outline,
) -> Result<StoredFile, AllocError>
    requires { items.now ≡ outline accepted.now.tokens }
    ensures { IfOk result (λ kept. stored_facts kept
        ≡ facts_at (place_in (record { number = number; source = accepted.now }))
        (facts_of (tokens_of (record { number = number; source = accepted.now })))) }
{
    let tokens = accepted.tokens();
    let found = facts_of(alloc, accepted, items)?;
    let comments = stored_comments(alloc, &found.comments, Locator::new(number, tokens))?;
    let indexes = places(alloc, &found.indexes, Locator::new(number, tokens))?;
    let interpolations = places(alloc, &found.interpolations, Locator::new(number, tokens))?;
    let declarations = stored_declarations(
        alloc,
        &found.declarations,
        Locator::new(number, tokens),
    )?;
    Ok(StoredFile {
        comments,
        indexes,
        interpolations,
        declarations,
    })
}
