//! The answer to a request.

ghost use Rattle.std.specs.Prelude.{◌≡◌, ◌<◌, ◌^◌, IfOk, Ok, Some, length};
ghost use Rattle.lint_forms.specs.JsonValues.{json_text};
ghost use Rattle.text_places.specs.Edits.{line_edits};
ghost use Rattle.text_places.specs.PlacedEdits.{placed_edits};
ghost use Rattle.editor_messages.specs.Replies.{edits_json, reply_json};
ghost use Rattle.json.specs.Tree.{HasNumbers};
ghost use Rattle.editor_messages.specs.Views.{id_seen, request_seen, text_seen};
ghost use Rattle.editor_session.specs.Answers.{Answered, AreFolds, AreSymbols, IsAnswer, IsFormatting, IsOpenAnswer, fresh_answer, named_text, wanted_references};
ghost use Rattle.editor_session.specs.Inner.Replied.{Replied, text_or_error_seen};
ghost use Rattle.editor_session.specs.Views.{session_seen};

use crate::names::Question;
use crate::phase::Phase;
use crate::session::Session;
use editor_messages::{
    Id, ReplyError, Request, capabilities_reply, edits_reply, error_reply, folds_reply, null_reply,
    symbols_reply,
};
use editor_names::Wanted;
use open_files::Disk;
use std::alloc::{AllocError, Global};
use text_format::format_of;
use text_outline::{folds_of, symbols_of};
use text_places::{Units, edits_between};

/// This version of the server.
static VERSION: &str = "0.3.0";

/// The reply with the edits that make a text a file's format.
fn changes_reply(
    alloc: Global,
    id: Id<'_>,
    units: Units,
    text: &str,
    formatted: &str,
) -> Result<Vec<u8>, AllocError>
    requires id { HasNumbers (id_seen id) }
    requires small { length text.now < 2 ^ 32 }
    ensures { IfOk result (λ reply. reply.items
        ≡ json_text (reply_json (id_seen id.entry)
        (Ok (edits_json (placed_edits units text.now (line_edits text.now formatted.now)))))) }
{
    let edits = edits_between(alloc, text.as_bytes(), formatted)?;
    edits_reply(alloc, id, units, text.as_bytes(), edits.as_slice())
}

/// The reply with the edits that format a text.
fn format_reply(alloc: Global, id: Id<'_>, units: Units, text: &str) -> Result<Vec<u8>, AllocError>
    requires { HasNumbers (id_seen id) }
    ensures { IfOk result (Replied (IsFormatting units text.now) (id_seen id.entry)) }
{
    match format_of(alloc, text)? {
        Some(formatted) => changes_reply(alloc, id, units, text, formatted.as_str()),
        None => edits_reply(alloc, id, units, b"", &[]),
    }
}

/// The reply with the symbols of a text.
fn text_symbols(alloc: Global, id: Id<'_>, units: Units, text: &str) -> Result<Vec<u8>, AllocError>
    requires { HasNumbers (id_seen id) }
    ensures { IfOk result (Replied (AreSymbols units text.now) (id_seen id.entry)) }
{
    let symbols = symbols_of(alloc, units, text)?;
    symbols_reply(alloc, id, symbols.as_slice())
}

/// The reply with the folds of a text.
fn text_folds(alloc: Global, id: Id<'_>, text: &str) -> Result<Vec<u8>, AllocError>
    requires { HasNumbers (id_seen id) }
    ensures { IfOk result (Replied (AreFolds text.now) (id_seen id.entry)) }
{
    let folds = folds_of(alloc, text)?;
    folds_reply(alloc, id, folds.as_slice())
}

/// The reply to a request before the editor has begun.
fn fresh_reply(alloc: Global, id: Id<'_>, request: Request<'_>) -> Result<Vec<u8>, AllocError>
    requires { HasNumbers (id_seen id) }
    ensures { IfOk result (λ reply. reply.items
        ≡ json_text (reply_json (id_seen id.entry) (fresh_answer (request_seen request.entry)))) }
{
    match request {
        Request::Initialize(abilities) => capabilities_reply(alloc, id, VERSION, abilities),
        _ => error_reply(alloc, id, ReplyError::NotInitialized),
    }
}

/// Which occurrences of a name are asked for, with the declarations or without.
fn wanted_references(with_declarations: bool) -> Wanted
    ensures { result ≡ wanted_references with_declarations }
{
    if with_declarations {
        Wanted::All
    } else {
        Wanted::References
    }
}

impl Session {
    /// The text of the document that is named, or the error that answers if it isn't known.
    fn named_text(&self, uri: Option<&str>) -> Result<&str, ReplyError>
        ensures { text_or_error_seen result
            ≡ named_text (session_seen self.now).documents (text_seen uri.entry) }
    {
        let Some(uri) = uri else {
            return Err(ReplyError::NoDocument);
        };
        match self.text(uri) {
            Some(text) => Ok(text),
            None => Err(ReplyError::UnknownText),
        }
    }

    /// The reply with the edits that format a document.
    fn formatting(
        &self,
        alloc: Global,
        id: Id<'_>,
        uri: Option<&str>,
    ) -> Result<Vec<u8>, AllocError>
        requires { HasNumbers (id_seen id) }
        ensures { IfOk result (Replied (Answered (IsFormatting (session_seen self.now).units)
            (named_text (session_seen self.now).documents (text_seen uri.entry)))
            (id_seen id.entry)) }
    {
        match self.named_text(uri) {
            Ok(text) => format_reply(alloc, id, self.units, text),
            Err(error) => error_reply(alloc, id, error),
        }
    }

    /// The reply with the symbols of a document.
    fn symbols(&self, alloc: Global, id: Id<'_>, uri: Option<&str>) -> Result<Vec<u8>, AllocError>
        requires { HasNumbers (id_seen id) }
        ensures { IfOk result (Replied (Answered (AreSymbols (session_seen self.now).units)
            (named_text (session_seen self.now).documents (text_seen uri.entry)))
            (id_seen id.entry)) }
    {
        match self.named_text(uri) {
            Ok(text) => text_symbols(alloc, id, self.units, text),
            Err(error) => error_reply(alloc, id, error),
        }
    }

    /// The reply with the folds of a document.
    fn folds(&self, alloc: Global, id: Id<'_>, uri: Option<&str>) -> Result<Vec<u8>, AllocError>
        requires { HasNumbers (id_seen id) }
        ensures { IfOk result (Replied (Answered AreFolds
            (named_text (session_seen self.now).documents (text_seen uri.entry)))
            (id_seen id.entry)) }
    {
        match self.named_text(uri) {
            Ok(text) => text_folds(alloc, id, text),
            Err(error) => error_reply(alloc, id, error),
        }
    }

    /// The reply to a request of an editor that has begun.
    fn open_reply<D: Disk>(
        &self,
        alloc: Global,
        disk: &D,
        id: Id<'_>,
        request: Request<'_>,
    ) -> Result<Vec<u8>, AllocError>
        requires { HasNumbers (id_seen id) }
        ensures { IfOk result (Replied (IsOpenAnswer (session_seen self.now) (D.files disk.now)
            (request_seen request.entry)) (id_seen id.entry)) }
    {
        match request {
            Request::Initialize(_) => error_reply(alloc, id, ReplyError::InitializedAlready),
            Request::Shutdown => null_reply(alloc, id),
            Request::Formatting(uri) => self.formatting(alloc, id, uri),
            Request::Symbols(uri) => self.symbols(alloc, id, uri),
            Request::Folds(uri) => self.folds(alloc, id, uri),
            Request::Definition(at) => {
                let question = Question::Occurrences(Wanted::Declarations);
                self.name_reply(alloc, disk, id, at, question)
            }
            Request::References {
                at,
                with_declarations,
            } => {
                let question = Question::Occurrences(wanted_references(with_declarations));
                self.name_reply(alloc, disk, id, at, question)
            }
            Request::PrepareRename(at) => {
                self.name_reply(alloc, disk, id, at, Question::Preparation)
            }
            Request::Rename { at, name } => {
                self.name_reply(alloc, disk, id, at, Question::Renaming(name))
            }
            Request::Unknown => error_reply(alloc, id, ReplyError::UnknownMethod),
        }
    }

    /// The reply to a request.
    pub(crate) fn reply<D: Disk>(
        &self,
        alloc: Global,
        disk: &D,
        id: Id<'_>,
        request: Request<'_>,
    ) -> Result<Vec<u8>, AllocError>
        requires { HasNumbers (id_seen id) }
        ensures { IfOk result (Replied (IsAnswer (session_seen self.now) (D.files disk.now)
            (request_seen request.entry)) (id_seen id.entry)) }
    {
        match self.phase {
            Phase::Fresh => fresh_reply(alloc, id, request),
            Phase::Open => self.open_reply(alloc, disk, id, request),
            Phase::ShutDown => error_reply(alloc, id, ReplyError::ShutDown),
        }
    }
}
