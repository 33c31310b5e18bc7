//! What an editor is told of documents.

ghost use Rattle.std.specs.Prelude.{◌≡◌, ◌∷◌, [], IfOk, OnErr, Some, map, string_bytes};
ghost use Rattle.open_files.specs.Uris.{path_of as path_in};
ghost use Rattle.editor_modules.specs.Messages.{AreMessages, TellTexts};
ghost use Rattle.editor_modules.specs.Shown.{other_uris};
ghost use Rattle.editor_modules.specs.Told.{module_folder as folder_in, withdrawn};
ghost use Rattle.editor_session.specs.Inner.Heard.{Have, TellsAfter};
ghost use Rattle.editor_session.specs.Told.{TellsClosed, TellsIn};
ghost use Rattle.editor_session.specs.Views.{session_seen};

use crate::session::Session;
use editor_modules::{ToldMessage, module_folder, module_messages, text_messages, withdrawal};
use open_files::{Disk, path_of};
use std::alloc::{AllocError, Global};

/// The message that withdraws what was told of a document.
fn closing(alloc: Global, uri: &str) -> Result<Vec<ToldMessage>, AllocError>
    ensures { IfOk result (λ all. AreMessages (withdrawn uri.now ∷ []) all.items) }
{
    let message = withdrawal(alloc, uri)?;
    let mut all = Vec::new(alloc);
    match all.push(message) {
        Ok(()) => Ok(all),
        Err(_) => Err(AllocError),
    }
}

impl Session {
    /// The messages about a document and those of these that have another URI, each alone.
    fn texts(
        &self,
        alloc: Global,
        uri: &str,
        others: &[String],
    ) -> Result<Vec<ToldMessage>, AllocError>
        ensures { IfOk result (Have (TellTexts (session_seen self.now).units
            (session_seen self.now).documents
            (uri.now ∷ other_uris uri.now (map string_bytes others.now)))) }
    {
        text_messages(alloc, self.units, &self.documents, uri, others)
    }

    /// The messages about the module of a folder, after these about a document of it. If it can't be linted, those about
    /// documents alone.
    fn tell_in<D: Disk>(
        &mut self,
        alloc: Global,
        disk: &D,
        folder: &[u8],
        uri: &str,
        mut first: Vec<ToldMessage>,
    ) -> Result<Vec<ToldMessage>, AllocError>
        ensures told { IfOk result (TellsAfter (TellsIn (session_seen self.old) (D.files disk.now)
            (Some folder.now) uri.now) first.items (session_seen self.new)) }
        ensures unchanged { OnErr result (session_seen self.new ≡ session_seen self.old) }
    {
        let tree = disk.tree()?;
        let documents = &self.documents;
        match module_messages(alloc, self.hashing, self.units, documents, folder, tree)? {
            Some(mut files) => match first.append(&mut files) {
                Ok(()) => self.shown.tell(alloc, self.hashing, folder, first),
                Err(_) => Err(AllocError),
            },
            None => {
                let all = self.texts(alloc, uri, self.shown.uris(folder))?;
                self.shown.forget(folder);
                Ok(all)
            }
        }
    }

    /// The messages about the module of a document, after these about the document. If it belongs to none, the message
    /// about it alone.
    fn tell<D: Disk>(
        &mut self,
        alloc: Global,
        disk: &D,
        uri: &str,
        first: Vec<ToldMessage>,
    ) -> Result<Vec<ToldMessage>, AllocError>
        ensures told { IfOk result (TellsAfter (TellsIn (session_seen self.old) (D.files disk.now)
            (folder_in (path_in uri.now)) uri.now) first.items (session_seen self.new)) }
        ensures unchanged { OnErr result (session_seen self.new ≡ session_seen self.old) }
    {
        let path = path_of(alloc, uri)?;
        match module_folder(&path) {
            Some(folder) => self.tell_in(alloc, disk, folder, uri, first),
            None => self.texts(alloc, uri, &[]),
        }
    }

    /// The messages after a document's text was lost.
    pub(crate) fn tell_lost(&self, alloc: Global, uri: &str) -> Result<Vec<ToldMessage>, AllocError>
        ensures { IfOk result (Have (TellTexts (session_seen self.now).units
            (session_seen self.now).documents (uri.now ∷ []))) }
    {
        self.texts(alloc, uri, &[])
    }

    /// The messages after a document has got a text.
    pub(crate) fn tell_text<D: Disk>(
        &mut self,
        alloc: Global,
        disk: &D,
        uri: &str,
    ) -> Result<Vec<ToldMessage>, AllocError>
        ensures told { IfOk result (Have (TellsIn (session_seen self.old) (D.files disk.now)
            (folder_in (path_in uri.now)) uri.now [] (session_seen self.new))) }
        ensures unchanged { OnErr result (session_seen self.new ≡ session_seen self.old) }
    {
        self.tell(alloc, disk, uri, Vec::new(alloc))
    }

    /// The messages after a document was closed.
    pub(crate) fn tell_closed<D: Disk>(
        &mut self,
        alloc: Global,
        disk: &D,
        uri: &str,
    ) -> Result<Vec<ToldMessage>, AllocError>
        ensures told { IfOk result (Have (TellsClosed (D.files disk.now) uri.now
            (session_seen self.old) (session_seen self.new))) }
        ensures unchanged { OnErr result (session_seen self.new ≡ session_seen self.old) }
    {
        let first = closing(alloc, uri)?;
        self.tell(alloc, disk, uri, first)
    }
}
