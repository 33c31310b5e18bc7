//! The documents that are open.

ghost use Rattle.std.specs.Prelude.{◌≡◌, ◌++◌, [], IfOk, OnErr, OnOk, option_map, string_bytes};
ghost use Rattle.open_files.specs.OpenTexts.{file_uri, open_names, text_of, text_open, uri_open, version_of, version_open, with_open_text, without};
ghost use Rattle.open_files.specs.Views.{open_seen};

use crate::document::{
    OpenFile, add_names, open_file, text_of, text_open, uri_open, version_of, version_open,
};
use crate::uri::uri_of;
use std::alloc::{AllocError, Global};
use std::marker::Model;

/// The documents that are open, the newest first.
#[derive(Drop)]
pub struct Documents {
    files: Vec<OpenFile>,
}

impl Model for Documents {
    ghost use Rattle.std.specs.Prelude.{List};
    ghost use Rattle.open_files.specs.OpenTexts.{OpenText};
    ghost use Rattle.open_files.specs.Views.{open_seen};

    ghost Value = { List OpenText };

    ghost view = { λ d. open_seen d.files.items };
}

impl Documents {
    /// None.
    pub fn new(alloc: Global) -> Documents
        ensures { result ≡ [] }
    {
        Documents {
            files: Vec::new(alloc),
        }
    }

    /// The text of the document that has this URI, if it is open.
    pub fn text(&self, uri: &str) -> Option<&str>
        ensures { option_map (λ text. text.now) result ≡ text_of self.now uri.now }
    {
        text_of(self.files.as_slice(), uri)
    }

    /// The text that is open for the file of a path.
    pub(crate) fn text_at(&self, path: &[u8]) -> Option<&str>
        ensures { option_map (λ text. text.now) result ≡ text_open self.now path.now }
    {
        text_open(self.files.as_slice(), path)
    }

    /// The URI of the document that is open for the file of a path.
    fn uri_at(&self, path: &[u8]) -> Option<&str>
        ensures { option_map (λ uri. uri.now) result ≡ uri_open self.now path.now }
    {
        uri_open(self.files.as_slice(), path)
    }

    /// The URI of the file of this name: that of its document if one is open.
    pub fn file_uri(&self, alloc: Global, name: &[u8]) -> Result<String, AllocError>
        ensures { IfOk result (λ uri. string_bytes uri ≡ file_uri self.now name.now) }
    {
        match self.uri_at(name) {
            Some(uri) => String::from_str(alloc, uri),
            None => uri_of(alloc, name),
        }
    }

    /// The version of the document that has this URI, if it is open and has one.
    pub fn version(&self, uri: &str) -> Option<u64>
        ensures { result ≡ version_of self.now uri.now }
    {
        version_of(self.files.as_slice(), uri)
    }

    /// The version of the document that is open for the file of a path, if it has one.
    pub fn version_at(&self, path: &[u8]) -> Option<u64>
        ensures { result ≡ version_open self.now path.now }
    {
        version_open(self.files.as_slice(), path)
    }

    /// Opens the document of a URI with this version and this text, in place of any that it has. An error means that
    /// memory ran out: the document isn't open any more.
    pub fn set(
        &mut self,
        alloc: Global,
        uri: &str,
        version: Option<u64>,
        text: &str,
    ) -> Result<(), AllocError>
        ensures ok { OnOk result (self.new ≡ with_open_text uri.now version text.now self.old) }
        ensures err { OnErr result (self.new ≡ without uri.now self.old) }
    {
        self.remove(uri);
        let file = open_file(alloc, uri, version, text)?;
        match self.files.insert(0, file) {
            Ok(()) => Ok(()),
            Err(_) => Err(AllocError),
        }
    }

    /// Closes the document of a URI, if it is open.
    pub fn remove(&mut self, uri: &str)
        ensures { self.new ≡ without uri.now self.old }
    {
        self.files.retain(|file| *uri != *file.uri.as_str());
    }

    /// Closes all documents.
    pub fn clear(&mut self)
        ensures { self.new ≡ [] }
    {
        self.files.clear();
    }

    /// Adds the names that the documents have in a folder.
    pub(crate) fn add_names(&self, names: &mut Vec<u8>, folder: &[u8]) -> Result<(), AllocError>
        ensures { OnOk result
            (names.new.items ≡ names.old.items ++ open_names folder.now self.now) }
    {
        add_names(names, folder, self.files.as_slice())
    }
}
