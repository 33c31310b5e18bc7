//! Where the files of a module, or one document, spell a name.

ghost use Rattle.std.specs.Prelude.{IfOk};
ghost use Rattle.editor_names.specs.Modules.{AreModuleRanges, IsDocumentRanges};
ghost use Rattle.editor_names.specs.Views.{found_seen, query_seen};

use crate::file::{file_declares, is_read, text_ranges};
use crate::files::{add_document, ranges_in_files};
use crate::query::Query;
use editor_messages::DocumentRanges;
use file_tree::tree::Tree;
use module_find::modules::modules_in;
use open_files::{Documents, OpenFiles};
use std::alloc::{AllocError, Global};

/// Where a name is spelled.
#[derive(Drop)]
pub struct NameRanges {
    /// The documents that spell it.
    pub documents: Vec<DocumentRanges>,
    /// Whether a file that may spell it declares it.
    pub is_declared: bool,
    /// Whether each file that may spell it is one of the language.
    pub is_whole: bool,
}

/// Where the files of the module of a folder spell a name, with open documents over its files. An error means that
/// memory ran out.
pub fn ranges_in_module<T: Tree + Drop>(
    alloc: Global,
    query: Query<'_>,
    documents: &Documents,
    folder: &[u8],
    tree: T,
) -> Result<NameRanges, AllocError>
    ensures { IfOk result (λ found. AreModuleRanges (query_seen query.entry) documents.now
        (T.files tree) folder.now (found_seen found)) }
{
    let mut files = OpenFiles::new(alloc, documents, tree);
    let mut modules = modules_in(alloc, folder, &mut files)?;
    let Some(candidate) = modules.pop() else {
        return Ok(NameRanges {
            documents: Vec::new(alloc),
            is_declared: false,
            is_whole: false,
        });
    };
    let names = candidate.files.as_slice();
    let found = ranges_in_files(alloc, query, documents, names, &mut files)?;
    Ok(NameRanges {
        documents: found.documents,
        is_declared: found.is_declared,
        is_whole: candidate.is_whole && found.is_whole,
    })
}

/// Where a document spells a name. An error means that memory ran out.
pub fn ranges_in_document(
    alloc: Global,
    query: Query<'_>,
    uri: &str,
    version: Option<u64>,
    text: &str,
) -> Result<NameRanges, AllocError>
    ensures { IfOk result (λ found. IsDocumentRanges (query_seen query.entry) uri.now version
        text.now (found_seen found)) }
{
    let file = text_ranges(alloc, query, text)?;
    let is_declared = file_declares(&file);
    let is_whole = is_read(&file);
    let mut documents = Vec::new(alloc);
    add_document(String::from_str(alloc, uri)?, version, file, &mut documents)?;
    Ok(NameRanges {
        documents,
        is_declared,
        is_whole,
    })
}
