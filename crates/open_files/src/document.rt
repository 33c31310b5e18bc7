//! Documents that are open.

ghost use Rattle.std.specs.Prelude.{◌≡◌, ◌++◌, IfOk, OnOk, find, option_map, string_bytes};
ghost use Rattle.std.specs.Str.{bytes_eq};
ghost use Rattle.open_files.specs.OpenTexts.{is_directly_in, is_path, name_in, open_names, open_text, text_of, text_open, uri_open, version_of, version_open};
ghost use Rattle.open_files.specs.Views.{file_seen, open_seen, path_seen};

use crate::uri::path_of;
use std::alloc::{AllocError, Global};

/// A document that is open.
#[derive(Drop)]
pub struct OpenFile {
    pub uri: String,
    /// That its editor told, if it told one.
    pub version: Option<u64>,
    /// Of its file, if its URI is that of a file on this machine.
    pub path: Option<Vec<u8>>,
    pub text: String,
}

/// The document of this URI with this version and this text.
pub(crate) fn open_file(
    alloc: Global,
    uri: &str,
    version: Option<u64>,
    text: &str,
) -> Result<OpenFile, AllocError>
    ensures { IfOk result (λ file. file_seen file ≡ open_text uri.now version text.now) }
{
    let path = path_of(alloc, uri)?;
    let uri = String::from_str(alloc, uri)?;
    let text = String::from_str(alloc, text)?;
    Ok(OpenFile {
        uri,
        version,
        path,
        text,
    })
}

/// The text of the document that has this URI, if it is open.
#[tactic(auto, using(crate::proofs::OpenLemmas::text_of_seen))]
pub(crate) fn text_of<'t>(documents: &'t [OpenFile], uri: &str) -> Option<&'t str>
    ensures { option_map (λ text. text.now) result ≡ text_of (open_seen documents.now) uri.now }
{
    match document_of(documents, uri) {
        Some(file) => Some(file.text.as_str()),
        None => None,
    }
}

/// The version of the document that has this URI, if it is open and has one.
#[tactic(auto, using(crate::proofs::OpenLemmas::version_of_seen))]
pub(crate) fn version_of(documents: &[OpenFile], uri: &str) -> Option<u64>
    ensures { result ≡ version_of (open_seen documents.now) uri.now }
{
    match document_of(documents, uri) {
        Some(file) => file.version,
        None => None,
    }
}

/// The document of this URI, if it is open.
fn document_of<'t>(documents: &'t [OpenFile], uri: &str) -> Option<&'t OpenFile>
    ensures { option_map (λ file. file.now) result
        ≡ find (λ file. bytes_eq uri.now (string_bytes file.uri)) documents.now }
{
    documents.iter().find(|file| *uri == *file.uri.as_str())
}

/// Whether this is the path of a document.
fn is_path(path: &[u8], own: &Option<Vec<u8>>) -> bool
    ensures { result ≡ is_path path.now (path_seen own.now) }
{
    match own {
        Some(own) => *path == *own.as_slice(),
        None => false,
    }
}

/// The newest document of the file of this path, if one is open.
fn open_at<'t>(documents: &'t [OpenFile], path: &[u8]) -> Option<&'t OpenFile>
    ensures { option_map (λ file. file.now) result
        ≡ find (λ file. is_path path.now (path_seen file.path)) documents.now }
{
    documents.iter().find(|file| is_path(path, &file.path))
}

/// The text that is open for a path.
#[tactic(auto, using(crate::proofs::OpenLemmas::text_seen))]
pub(crate) fn text_open<'t>(documents: &'t [OpenFile], path: &[u8]) -> Option<&'t str>
    ensures { option_map (λ text. text.now) result ≡ text_open (open_seen documents.now) path.now }
{
    match open_at(documents, path) {
        Some(file) => Some(file.text.as_str()),
        None => None,
    }
}

/// The URI of the document that is open for a path.
#[tactic(auto, using(crate::proofs::OpenLemmas::uri_seen))]
pub(crate) fn uri_open<'t>(documents: &'t [OpenFile], path: &[u8]) -> Option<&'t str>
    ensures { option_map (λ uri. uri.now) result ≡ uri_open (open_seen documents.now) path.now }
{
    match open_at(documents, path) {
        Some(file) => Some(file.uri.as_str()),
        None => None,
    }
}

/// The version of the document that is open for a path, if it has one.
#[tactic(auto, using(crate::proofs::OpenLemmas::version_seen))]
pub(crate) fn version_open(documents: &[OpenFile], path: &[u8]) -> Option<u64>
    ensures { result ≡ version_open (open_seen documents.now) path.now }
{
    match open_at(documents, path) {
        Some(file) => file.version,
        None => None,
    }
}

/// Whether a path is that of a file directly in a folder.
fn is_directly_in(folder: &[u8], path: &[u8]) -> bool
    ensures { result ≡ is_directly_in folder.now path.now }
{
    if !folder.ends_with(b"/") || !path.starts_with(folder) {
        return false;
    }
    let part = &path[folder.len()..];
    !part.is_empty() && !part.contains(&b'/')
}

/// Adds the name in a folder of the file of this path, if it is directly in it.
fn add_name(names: &mut Vec<u8>, folder: &[u8], path: &Option<Vec<u8>>) -> Result<(), AllocError>
    ensures { OnOk result
        (names.new.items ≡ names.old.items ++ name_in folder.now (path_seen path.now)) }
{
    let Some(path) = path else {
        return Ok(());
    };
    let path = path.as_slice();
    if !is_directly_in(folder, path) {
        return Ok(());
    }
    names.extend_from_slice(&path[folder.len()..])?;
    match names.push(0) {
        Ok(()) => Ok(()),
        Err(_) => Err(AllocError),
    }
}

/// Adds the names that open documents have in a folder.
pub(crate) fn add_names(
    names: &mut Vec<u8>,
    folder: &[u8],
    documents: &[OpenFile],
) -> Result<(), AllocError>
    ensures { OnOk result
        (names.new.items ≡ names.old.items ++ open_names folder.now (open_seen documents.now)) }
{
    for file in documents {
        add_name(names, folder, &file.path)?;
    }
    Ok(())
}
