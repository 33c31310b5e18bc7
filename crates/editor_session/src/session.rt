//! What is known of an editor and its documents.

ghost use Rattle.std.specs.Prelude.{◌≡◌, Some, None, OnErr, OnOk, option_map};
ghost use Rattle.editor_session.specs.Sessions.{new_session, with_closed, with_text, without_texts};
ghost use Rattle.editor_session.specs.Views.{session_seen};
ghost use Rattle.open_files.specs.OpenTexts.{text_of};

use crate::phase::Phase;
use editor_modules::Shown;
use open_files::Documents;
use std::alloc::{AllocError, Global};
use text_places::Units;
use tf_rules::Hashing;

/// What is known of an editor and its documents.
#[derive(Drop)]
pub struct Session {
    pub(crate) phase: Phase,
    /// In which places are counted.
    pub(crate) units: Units,
    /// Whether the editor takes edits for a version of a document.
    pub(crate) takes_versions: bool,
    /// How names in files are hashed.
    pub(crate) hashing: Hashing,
    /// The documents whose texts are known.
    pub(crate) documents: Documents,
    /// Whether the text of a document was lost that may still be open.
    pub(crate) has_lost: bool,
    /// What the editor shows of modules.
    pub(crate) shown: Shown,
}

impl Session {
    /// The session before the first message. Names in files are hashed as `hashing` says.
    pub fn new(alloc: Global, hashing: Hashing) -> Session
        ensures { session_seen result ≡ new_session }
    {
        Session {
            phase: Phase::Fresh,
            units: Units::Utf16,
            takes_versions: false,
            hashing,
            documents: Documents::new(alloc),
            has_lost: false,
            shown: Shown::new(alloc),
        }
    }

    /// The text of the document that has this URI, if it is known.
    pub(crate) fn text(&self, uri: &str) -> Option<&str>
        ensures { option_map (λ s. s.now) result
            ≡ text_of (session_seen self.now).documents uri.now }
    {
        self.documents.text(uri)
    }

    /// Loses all texts.
    pub(crate) fn lose_all(&mut self)
        ensures { session_seen self.new ≡ without_texts (session_seen self.old) }
    {
        self.documents.clear();
        self.has_lost = true;
    }

    /// Loses the text of the document that has this URI.
    pub(crate) fn lose(&mut self, uri: &str)
        ensures { session_seen self.new ≡ with_text uri.now None None (session_seen self.old) }
    {
        self.documents.remove(uri);
        self.has_lost = true;
    }

    /// Forgets the document that has this URI.
    pub(crate) fn close(&mut self, uri: &str)
        ensures { session_seen self.new ≡ with_closed uri.now (session_seen self.old) }
    {
        self.documents.remove(uri);
    }

    /// Keeps the version and the text of the document that has this URI. If memory runs out, its text is lost.
    pub(crate) fn keep(
        &mut self,
        alloc: Global,
        uri: &str,
        version: Option<u64>,
        text: &str,
    ) -> Result<(), AllocError>
        ensures kept { OnOk result (session_seen self.new
            ≡ with_text uri.now version (Some text.now) (session_seen self.old)) }
        ensures lost { OnErr result
            (session_seen self.new ≡ with_text uri.now None None (session_seen self.old)) }
    {
        match self.documents.set(alloc, uri, version, text) {
            Ok(()) => Ok(()),
            Err(error) => {
                self.has_lost = true;
                Err(error)
            }
        }
    }
}
