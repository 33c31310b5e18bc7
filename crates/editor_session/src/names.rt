//! The answers about the name at a place of a document.

ghost use Rattle.std.specs.Prelude.{◌≡◌, IfOk};
ghost use Rattle.json.specs.Tree.{HasNumbers};
ghost use Rattle.lint_forms.specs.JsonValues.{json_text};
ghost use Rattle.editor_messages.specs.Replies.{reply_json};
ghost use Rattle.editor_names.specs.Modules.{IsDocumentRanges};
ghost use Rattle.open_files.specs.OpenTexts.{version_of};
ghost use Rattle.editor_messages.specs.Views.{id_seen, place_seen, text_seen};
ghost use Rattle.editor_names.specs.Views.{found_seen, query_seen};
ghost use Rattle.tf_names.specs.Views.{name_seen};
ghost use Rattle.editor_session.specs.Answers.{Answered, placed_text};
ghost use Rattle.editor_session.specs.Inner.Placed.{IsQuestionAnswer, placed_seen, text_place_seen};
ghost use Rattle.editor_session.specs.Inner.Replied.{Replied};
ghost use Rattle.editor_session.specs.Names.{AreLocations, AreRanges, IsPrepared, IsRename, IsRenaming, query_for, renaming};
ghost use Rattle.editor_session.specs.Views.{session_seen};

use crate::session::Session;
use editor_messages::{
    DocumentPlace, Id, ReplyError, error_reply, locations_reply, null_reply, prepared_reply,
    rename_reply,
};
use editor_modules::module_folder;
use editor_names::{
    NameRanges, Query, Wanted, is_identifier, name_at, ranges_in_document, ranges_in_module,
};
use open_files::{Disk, path_of};
use std::alloc::{AllocError, Global};
use text_places::Place;
use tf_names::{Name, last_part, with_last_part};

/// A place in a document whose text is known.
#[derive(Clone, Copy)]
pub struct TextPlace<'r> {
    pub uri: &'r str,
    pub place: Place,
    pub text: &'r str,
}

/// A question about the name at a place.
#[derive(Clone, Copy)]
pub enum Question<'r> {
    /// Where it occurs.
    Occurrences(Wanted),
    /// Whether it can be changed.
    Preparation,
    /// The changes to a new name, if one is told.
    Renaming(Option<&'r str>),
}

impl Session {
    /// The text of the document in which a place is named, or the error that answers if it isn't known.
    fn text_place<'r>(&'r self, at: Option<DocumentPlace<'r>>) -> Result<TextPlace<'r>, ReplyError>
        ensures { placed_seen result
            ≡ placed_text (session_seen self.now).documents (place_seen at.entry) }
    {
        let Some(at) = at else {
            return Err(ReplyError::NoPlace);
        };
        match self.text(at.uri) {
            Some(text) => Ok(TextPlace {
                uri: at.uri,
                place: at.place,
                text,
            }),
            None => Err(ReplyError::UnknownText),
        }
    }

    /// The question where a name occurs.
    fn query<'s>(&self, name: Name<'s>, wanted: Wanted) -> Query<'s>
        ensures { query_seen result
            ≡ query_for (session_seen self.now) (name_seen name.entry) wanted }
    {
        Query {
            name,
            wanted,
            units: self.units,
        }
    }

    /// Where a document alone spells a name.
    fn ranges_alone(
        &self,
        alloc: Global,
        at: TextPlace<'_>,
        query: Query<'_>,
    ) -> Result<NameRanges, AllocError>
        ensures { IfOk result (λ found. IsDocumentRanges (query_seen query.entry) at.entry.uri.now
            (version_of (session_seen self.now).documents at.entry.uri.now) at.entry.text.now
            (found_seen found)) }
    {
        let version = self.documents.version(at.uri);
        ranges_in_document(alloc, query, at.uri, version, at.text)
    }

    /// Where the module of a document spells a name, or the document alone if its file belongs to none.
    fn ranges<D: Disk>(
        &self,
        alloc: Global,
        disk: &D,
        at: TextPlace<'_>,
        query: Query<'_>,
    ) -> Result<NameRanges, AllocError>
        ensures { IfOk result (λ found. AreRanges (session_seen self.now) (D.files disk.now)
            (text_place_seen at.entry) (query_seen query.entry) (found_seen found)) }
    {
        let path = path_of(alloc, at.uri)?;
        let Some(folder) = module_folder(&path) else {
            return self.ranges_alone(alloc, at, query);
        };
        let tree = disk.tree()?;
        ranges_in_module(alloc, query, &self.documents, folder, tree)
    }

    /// The reply with the places where the name at a place occurs.
    fn locations<D: Disk>(
        &self,
        alloc: Global,
        disk: &D,
        id: Id<'_>,
        at: TextPlace<'_>,
        wanted: Wanted,
    ) -> Result<Vec<u8>, AllocError>
        requires { HasNumbers (id_seen id) }
        ensures { IfOk result (Replied (AreLocations (session_seen self.now) (D.files disk.now)
            wanted (text_place_seen at.entry)) (id_seen id.entry)) }
    {
        let Some(named) = name_at(alloc, self.units, at.place, at.text)? else {
            return locations_reply(alloc, id, &[]);
        };
        let query = self.query(named.name.name(), wanted);
        let found = self.ranges(alloc, disk, at, query)?;
        locations_reply(alloc, id, found.documents.as_slice())
    }

    /// The reply whether the name at a place can be changed.
    fn preparation(
        &self,
        alloc: Global,
        id: Id<'_>,
        at: TextPlace<'_>,
    ) -> Result<Vec<u8>, AllocError>
        requires { HasNumbers (id_seen id) }
        ensures { IfOk result (Replied (IsPrepared (session_seen self.now)
            (text_place_seen at.entry)) (id_seen id.entry)) }
    {
        match name_at(alloc, self.units, at.place, at.text)? {
            Some(named) => { prepared_reply(alloc, id, named.range, last_part(named.name.name())) }
            None => null_reply(alloc, id),
        }
    }

    /// The reply with the changes to a new name, by where the old one is spelled and the new one is already.
    fn changes(
        &self,
        alloc: Global,
        id: Id<'_>,
        new: &str,
        old: &NameRanges,
        taken: &NameRanges,
    ) -> Result<Vec<u8>, AllocError>
        requires { HasNumbers (id_seen id) }
        ensures { IfOk result (λ reply. reply.items ≡ json_text (reply_json (id_seen id.entry)
            (renaming (session_seen self.now) new.now (found_seen old.now)
            (found_seen taken.now)))) }
    {
        if self.has_lost {
            return error_reply(alloc, id, ReplyError::LostText);
        }
        if !old.is_whole || !taken.is_whole {
            return error_reply(alloc, id, ReplyError::UnreadModule);
        }
        if !old.is_declared {
            return error_reply(alloc, id, ReplyError::NoDeclaration);
        }
        if !taken.documents.is_empty() {
            return error_reply(alloc, id, ReplyError::NameTaken);
        }
        rename_reply(
            alloc,
            id,
            self.takes_versions,
            new,
            old.documents.as_slice(),
        )
    }

    /// The reply with the changes of the name at a place to an identifier.
    fn renaming<D: Disk>(
        &self,
        alloc: Global,
        disk: &D,
        id: Id<'_>,
        at: TextPlace<'_>,
        new: &str,
    ) -> Result<Vec<u8>, AllocError>
        requires { HasNumbers (id_seen id) }
        ensures { IfOk result (Replied (IsRenaming (session_seen self.now) (D.files disk.now)
            new.now (text_place_seen at.entry)) (id_seen id.entry)) }
    {
        let Some(named) = name_at(alloc, self.units, at.place, at.text)? else {
            return error_reply(alloc, id, ReplyError::NoName);
        };
        let name = named.name.name();
        let old = self.ranges(alloc, disk, at, self.query(name, Wanted::All))?;
        let renamed = self.query(with_last_part(name, new), Wanted::All);
        let taken = self.ranges(alloc, disk, at, renamed)?;
        self.changes(alloc, id, new, &old, &taken)
    }

    /// The reply with the changes of the name at a place, if the new one is an identifier.
    fn rename<D: Disk>(
        &self,
        alloc: Global,
        disk: &D,
        id: Id<'_>,
        at: TextPlace<'_>,
        new: Option<&str>,
    ) -> Result<Vec<u8>, AllocError>
        requires { HasNumbers (id_seen id) }
        ensures { IfOk result (Replied (IsRename (session_seen self.now) (D.files disk.now)
            (text_seen new.entry) (text_place_seen at.entry)) (id_seen id.entry)) }
    {
        match new {
            Some(new) if is_identifier(new) => self.renaming(alloc, disk, id, at, new),
            _ => error_reply(alloc, id, ReplyError::NotIdentifier),
        }
    }

    /// The reply to a question about the name at a place.
    fn question_reply<D: Disk>(
        &self,
        alloc: Global,
        disk: &D,
        id: Id<'_>,
        at: TextPlace<'_>,
        question: Question<'_>,
    ) -> Result<Vec<u8>, AllocError>
        requires { HasNumbers (id_seen id) }
        ensures { IfOk result (Replied (IsQuestionAnswer (session_seen self.now)
            (D.files disk.now) question.entry (text_place_seen at.entry)) (id_seen id.entry)) }
    {
        match question {
            Question::Occurrences(wanted) => self.locations(alloc, disk, id, at, wanted),
            Question::Preparation => self.preparation(alloc, id, at),
            Question::Renaming(new) => self.rename(alloc, disk, id, at, new),
        }
    }

    /// The reply to a question about the name at a place, if the place is in a document whose text is known.
    pub(crate) fn name_reply<D: Disk>(
        &self,
        alloc: Global,
        disk: &D,
        id: Id<'_>,
        at: Option<DocumentPlace<'_>>,
        question: Question<'_>,
    ) -> Result<Vec<u8>, AllocError>
        requires { HasNumbers (id_seen id) }
        ensures { IfOk result (Replied (Answered (IsQuestionAnswer (session_seen self.now)
            (D.files disk.now) question.entry)
            (placed_text (session_seen self.now).documents (place_seen at.entry)))
            (id_seen id.entry)) }
    {
        match self.text_place(at) {
            Ok(at) => self.question_reply(alloc, disk, id, at, question),
            Err(error) => error_reply(alloc, id, error),
        }
    }
}
