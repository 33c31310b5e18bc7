//! The facts of one file, by the numbers of its tokens.

ghost use Rattle.std.specs.Prelude.{◌≡◌, IfOk};
ghost use Rattle.hcl_grammar.specs.Items.{outline};
ghost use Rattle.hcl_grammar.specs.Numbered.{number_tokens};
ghost use Rattle.tf_facts.specs.Facts.{facts_of};
ghost use Rattle.tf_facts.specs.Found.{facts};

use crate::declaration::declarations;
use crate::found::{Declared, FoundComment};
use crate::pattern::found_patterns;
use hcl_grammar::{Accepted, Outline};
use std::alloc::{AllocError, Global};

/// The comments that rules need, the dots before numbers, the quotes of interpolations alone, and the declarations.
#[derive(Drop)]
pub struct FileFacts<'s> {
    pub comments: Vec<FoundComment>,
    pub indexes: Vec<usize>,
    pub interpolations: Vec<usize>,
    pub declarations: Vec<Declared<'s>>,
}

/// The facts of a file, by its outline.
pub fn facts_of<'s>(
    alloc: Global,
    accepted: &Accepted<'_, 's>,
    items: &Outline,
) -> Result<FileFacts<'s>, AllocError>
    requires { items.now ≡ outline accepted.now.tokens }
    ensures { IfOk result (λ found. facts found ≡ facts_of (number_tokens accepted.now.tokens)) }
{
    let tokens = accepted.tokens();
    let patterns = found_patterns(alloc, tokens)?;
    let declarations = declarations(alloc, accepted, items)?;
    Ok(FileFacts {
        comments: patterns.comments,
        indexes: patterns.indexes,
        interpolations: patterns.interpolations,
        declarations,
    })
}
