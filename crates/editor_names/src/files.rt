//! Where the files of a module spell a name.

ghost use Rattle.std.specs.Prelude.{◌≡◌, ◌++◌, IfOk, OnOk, map, string_bytes};
ghost use Rattle.file_tree.specs.Unchanged.{Unchanged};
ghost use Rattle.editor_messages.specs.Views.{document_ranges_seen};
ghost use Rattle.editor_names.specs.Modules.{document_of};
ghost use Rattle.editor_names.specs.Inner.Searching.{HaveRanges};
ghost use Rattle.editor_names.specs.Views.{query_seen};

use crate::file::{FileRanges, file_declares, file_ranges, is_read};
use crate::query::Query;
use crate::search::NameRanges;
use editor_messages::DocumentRanges;
use file_tree::tree::Tree;
use open_files::Documents;
use std::alloc::{AllocError, Global};

/// Adds the document of a file, if the file spells the name that is looked for.
pub(crate) fn add_document(
    uri: String,
    version: Option<u64>,
    file: FileRanges,
    found: &mut Vec<DocumentRanges>,
) -> Result<(), AllocError>
    ensures { OnOk result (map document_ranges_seen found.new.items
        ≡ map document_ranges_seen found.old.items
        ++ document_of (string_bytes uri) version file) }
{
    let FileRanges::Spelled(spelling) = file else {
        return Ok(());
    };
    if spelling.ranges.is_empty() {
        return Ok(());
    }
    let document = DocumentRanges {
        uri,
        version,
        ranges: spelling.ranges,
    };
    match found.push(document) {
        Ok(()) => Ok(()),
        Err(_) => Err(AllocError),
    }
}

/// Where the files of these names spell a name, whether one declares it, and whether each is a file of the language.
pub(crate) fn ranges_in_files<T: Tree>(
    alloc: Global,
    query: Query<'_>,
    documents: &Documents,
    names: &[String],
    tree: &mut T,
) -> Result<NameRanges, AllocError>
    ensures unchanged { Unchanged T.Tree tree.old tree.new }
    ensures are { IfOk result (HaveRanges (query_seen query.entry) documents.now
        (λ name. (T.files tree.old).told ((T.files tree.old).real name))
        (map string_bytes names.now)) }
{
    let mut found = Vec::new(alloc);
    let mut is_declared = false;
    let mut is_whole = true;
    for number in 0..names.len() {
        let name = names[number].as_str();
        let file = file_ranges(alloc, query, name, tree)?;
        is_declared = is_declared || file_declares(&file);
        is_whole = is_whole && is_read(&file);
        let uri = documents.file_uri(alloc, name.as_bytes())?;
        add_document(uri, documents.version_at(name.as_bytes()), file, &mut found)?;
    }
    Ok(NameRanges {
        documents: found,
        is_declared,
        is_whole,
    })
}
