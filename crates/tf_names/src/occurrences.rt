//! All occurrences of names in a file.

ghost use Rattle.std.specs.Prelude.{◌≡◌, All, IfOk, length, map};
ghost use Rattle.tf_names.specs.Names.{IsInOrder, occurrences};
ghost use Rattle.tf_names.specs.Views.{occurrence_seen};

use crate::declaration::push_declarations;
use crate::occurrence::Occurrence;
use crate::reference::push_references;
use hcl_syntax::{Accepted, outline};
use std::alloc::{AllocError, Global};

/// The occurrences of names in a file: its declarations in order, then its references in order. It takes time linear in
/// the tokens.
pub fn occurrences_of<'s>(
    alloc: Global,
    accepted: &Accepted<'_, 's>,
) -> Result<Vec<Occurrence<'s>>, AllocError>
    ensures found { IfOk result (λ found. map occurrence_seen found.items
        ≡ occurrences accepted.now) }
    ensures placed { IfOk result (λ found. All (λ o. IsInOrder (length accepted.now.text)
        (occurrence_seen o)) found.items) }
{
    let tokens = accepted.tokens();
    // Its contract says that the tokens are a scan of the text.
    let _source = tokens.source();
    let items = outline(alloc, accepted)?;
    let mut found = Vec::new(alloc);
    push_declarations(accepted, &items, &mut found)?;
    push_references(accepted, &mut found)?;
    Ok(found)
}
