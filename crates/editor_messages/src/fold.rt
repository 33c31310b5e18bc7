//! The reply with the folds of a document.

ghost use Rattle.std.specs.Prelude.{◌≡◌, IfOk};
ghost use Rattle.json.specs.Tree.{HasNumbers, json_tokens};
ghost use Rattle.lint_forms.specs.AddsTokens.{AddsTokens};
ghost use Rattle.lint_forms.specs.JsonValues.{json_text};
ghost use Rattle.editor_messages.specs.Inner.Nesting.{folds_tokens};
ghost use Rattle.editor_messages.specs.Outlines.{fold_json, folds_json};
ghost use Rattle.editor_messages.specs.Replies.{result_json};
ghost use Rattle.editor_messages.specs.Views.{id_seen};

use crate::message::Id;
use crate::reply::{write_end, write_head};
use json::Writer;
use lint_forms::{JsonPart, write_parts};
use std::alloc::{AllocError, Global};
use text_outline::Fold;

fn write_fold(writer: &mut Writer, fold: Fold) -> Result<(), AllocError>
    ensures { AddsTokens result writer.old writer.new (json_tokens (fold_json fold)) }
{
    write_parts(
        writer,
        &[
            JsonPart::Object,
            JsonPart::NumberAt("startLine", fold.first as u64),
            JsonPart::NumberAt("endLine", fold.last as u64),
            JsonPart::EndObject,
        ],
    )
}

fn write_folds(writer: &mut Writer, folds: &[Fold]) -> Result<(), AllocError>
    ensures { AddsTokens result writer.old writer.new (folds_tokens folds.now) }
{
    for fold in folds {
        write_fold(writer, *fold)?;
    }
    Ok(())
}

/// Writes the array of folds.
fn write_array(writer: &mut Writer, folds: &[Fold]) -> Result<(), AllocError>
    ensures { AddsTokens result writer.old writer.new (json_tokens (folds_json folds.now)) }
{
    write_parts(writer, &[JsonPart::Array])?;
    write_folds(writer, folds)?;
    write_parts(writer, &[JsonPart::EndArray])
}

fn write_folds_reply(writer: &mut Writer, id: Id<'_>, folds: &[Fold]) -> Result<(), AllocError>
    requires { HasNumbers (id_seen id) }
    ensures { AddsTokens result writer.old writer.new
        (json_tokens (result_json (id_seen id.entry) (folds_json folds.now))) }
{
    write_head(writer, id, "result")?;
    write_array(writer, folds)?;
    write_end(writer)
}

/// The reply whose result is these folds (Language Server Protocol 3.17, "Folding Range Request"). An error means that
/// memory ran out.
pub fn folds_reply(alloc: Global, id: Id<'_>, folds: &[Fold]) -> Result<Vec<u8>, AllocError>
    requires { HasNumbers (id_seen id) }
    ensures { IfOk result (λ reply. reply.items
        ≡ json_text (result_json (id_seen id.entry) (folds_json folds.now))) }
{
    let mut writer = Writer::new(Vec::new(alloc));
    write_folds_reply(&mut writer, id, folds)?;
    Ok(writer.into_inner())
}
