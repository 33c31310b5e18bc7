//! One message of an editor.

ghost use Rattle.std.specs.Prelude.{◌≡◌, IfOk, None, OnErr, OnOk, Some};
ghost use Rattle.json.specs.Json.{null};
ghost use Rattle.editor_messages.specs.Replies.{error_json};
ghost use Rattle.editor_messages.specs.Views.{HasNumber, id_seen, message_seen, notification_seen, request_seen, text_seen};
ghost use Rattle.editor_messages.specs.Messages.{Asks, Close, Tells, Text};
ghost use Rattle.json.specs.Tree.{HasNumbers};
ghost use Rattle.editor_session.specs.Sessions.{after_request, exit_status, with_text, without_texts};
ghost use Rattle.editor_session.specs.Steps.{IsStepOrShort, Says, Steps};
ghost use Rattle.editor_session.specs.Inner.Heard.{Have};
ghost use Rattle.editor_session.specs.Told.{TellsText};
ghost use Rattle.editor_session.specs.Views.{session_seen};

use crate::phase::Phase;
use crate::session::Session;
use crate::turn::Turn;
use editor_messages::{Id, Message, Notification, ReplyError, Request, error_reply, message_of};
use editor_modules::ToldMessage;
use json::{Error, Scratch, Value};
use open_files::Disk;
use std::alloc::{AllocError, Global};

/// The turn that says this error.
fn say_error(alloc: Global, id: Id<'_>, error: ReplyError) -> Result<Turn, AllocError>
    requires { HasNumbers (id_seen id) }
    ensures { IfOk result (Says (error_json (id_seen id.entry) error)) }
{
    Ok(Turn::Say(error_reply(alloc, id, error)?))
}

/// The status of a run that ends in this phase.
fn exit_status(phase: Phase) -> u8
    ensures { result ≡ exit_status phase }
{
    match phase {
        Phase::ShutDown => 0,
        Phase::Fresh | Phase::Open => 1,
    }
}

impl Session {
    /// Goes on after a request.
    fn go_on(&mut self, request: Request<'_>)
        ensures { session_seen self.new
            ≡ after_request (session_seen self.old) (request_seen request.entry) }
    {
        match (self.phase, request) {
            (Phase::Fresh, Request::Initialize(abilities)) => {
                self.phase = Phase::Open;
                self.units = abilities.units;
                self.takes_versions = abilities.takes_versions;
            }
            (Phase::Open, Request::Shutdown) => self.phase = Phase::ShutDown,
            _ => {}
        }
    }

    /// Answers a request.
    fn answer<D: Disk>(
        &mut self,
        alloc: Global,
        disk: &D,
        id: Id<'_>,
        request: Request<'_>,
    ) -> Result<Turn, AllocError>
        requires { HasNumbers (id_seen id) }
        ensures { IfOk result (IsStepOrShort (D.files disk.now)
            (Asks (id_seen id.entry) (request_seen request.entry))
            (session_seen self.old) (session_seen self.new)) }
    {
        let Ok(reply) = self.reply(alloc, disk, id, request) else {
            return say_error(alloc, id, ReplyError::OutOfMemory);
        };
        self.go_on(request);
        Ok(Turn::Say(reply))
    }

    /// Takes in the text of a document, and returns the messages that it leads to. The text is lost if memory runs out.
    fn take_text<D: Disk>(
        &mut self,
        alloc: Global,
        disk: &D,
        uri: &str,
        version: Option<u64>,
        text: &str,
    ) -> Result<Vec<ToldMessage>, AllocError>
        ensures told { IfOk result (Have (TellsText (D.files disk.now) uri.now (Some text.now)
            (with_text uri.now version (Some text.now) (session_seen self.old))
            (session_seen self.new))) }
        ensures lost { OnErr result
            (session_seen self.new ≡ with_text uri.now None None (session_seen self.old)) }
    {
        self.keep(alloc, uri, version, text)?;
        match self.tell_text(alloc, disk, uri) {
            Ok(messages) => Ok(messages),
            Err(error) => {
                self.lose(uri);
                Err(error)
            }
        }
    }

    /// Takes in what a document's text is, or that it is lost, and returns the messages that this leads to.
    fn take_change<D: Disk>(
        &mut self,
        alloc: Global,
        disk: &D,
        uri: &str,
        version: Option<u64>,
        text: Option<&str>,
    ) -> Result<Vec<ToldMessage>, AllocError>
        ensures told { IfOk result (Have (TellsText (D.files disk.now) uri.now
            (text_seen text.entry)
            (with_text uri.now version (text_seen text.entry) (session_seen self.old))
            (session_seen self.new))) }
        ensures lost { OnErr result
            (session_seen self.new ≡ with_text uri.now None None (session_seen self.old)) }
    {
        match text {
            Some(text) => self.take_text(alloc, disk, uri, version, text),
            None => {
                self.lose(uri);
                self.tell_lost(alloc, uri)
            }
        }
    }

    /// Takes in what a document's text is, if the editor has begun.
    fn hear_text<D: Disk>(
        &mut self,
        alloc: Global,
        disk: &D,
        uri: &str,
        version: Option<u64>,
        text: Option<&str>,
    ) -> Turn
        ensures { IsStepOrShort (D.files disk.now)
            (Tells (Text uri.now version (text_seen text.entry)))
            (session_seen self.old) (session_seen self.new) result }
    {
        match self.phase {
            Phase::Fresh => Turn::Quiet,
            Phase::Open => match self.take_change(alloc, disk, uri, version, text) {
                Ok(messages) => Turn::Publish(messages),
                Err(_) => Turn::Quiet,
            },
            Phase::ShutDown => Turn::Quiet,
        }
    }

    /// Takes in that a document is closed, if the editor has begun.
    fn hear_close<D: Disk>(&mut self, alloc: Global, disk: &D, uri: &str) -> Turn
        ensures { IsStepOrShort (D.files disk.now) (Tells (Close uri.now))
            (session_seen self.old) (session_seen self.new) result }
    {
        match self.phase {
            Phase::Fresh => Turn::Quiet,
            Phase::Open => {
                self.close(uri);
                match self.tell_closed(alloc, disk, uri) {
                    Ok(messages) => Turn::Publish(messages),
                    Err(_) => Turn::Quiet,
                }
            }
            Phase::ShutDown => Turn::Quiet,
        }
    }

    /// Takes a notification in.
    fn hear<D: Disk>(&mut self, alloc: Global, disk: &D, notification: Notification<'_>) -> Turn
        ensures { IsStepOrShort (D.files disk.now) (Tells (notification_seen notification.entry))
            (session_seen self.old) (session_seen self.new) result }
    {
        match notification {
            Notification::Text { uri, version, text } => {
                self.hear_text(alloc, disk, uri, version, text)
            }
            Notification::Close(uri) => self.hear_close(alloc, disk, uri),
            Notification::Exit => Turn::End(exit_status(self.phase)),
            Notification::Other => Turn::Quiet,
        }
    }

    /// Takes a message in.
    fn take<D: Disk>(
        &mut self,
        alloc: Global,
        disk: &D,
        message: Message<'_>,
    ) -> Result<Turn, AllocError>
        requires { HasNumber message }
        ensures { IfOk result (IsStepOrShort (D.files disk.now) (message_seen message.entry)
            (session_seen self.old) (session_seen self.new)) }
    {
        match message {
            Message::Invalid(id) => say_error(alloc, id, ReplyError::NotRequest),
            Message::Response => Ok(Turn::Quiet),
            Message::Asks(id, request) => self.answer(alloc, disk, id, request),
            Message::Tells(notification) => Ok(self.hear(alloc, disk, notification)),
        }
    }

    /// Loses all texts, since a body that could not be read may have been the change of one.
    fn lose_texts(&mut self, alloc: Global, error: ReplyError) -> Result<Turn, AllocError>
        ensures texts { session_seen self.new ≡ without_texts (session_seen self.old) }
        ensures says { IfOk result (Says (error_json null error)) }
    {
        self.lose_all();
        say_error(alloc, Id::Null, error)
    }

    /// Takes in a message with this body, with these files on the disk. An error means that there was no memory even for
    /// the answer that memory ran out.
    pub fn step<D: Disk>(
        &mut self,
        alloc: Global,
        disk: &D,
        body: &[u8],
    ) -> Result<Turn, AllocError>
        ensures { IfOk result (Steps (D.files disk.now) body.now
            (session_seen self.old) (session_seen self.new)) }
    {
        let mut scratch = Scratch::new(alloc);
        match Value::from_slice(alloc, body, &mut scratch) {
            Ok(value) => self.take(alloc, disk, message_of(&value)),
            Err(Error::OutOfMemory) => self.lose_texts(alloc, ReplyError::OutOfMemory),
            Err(_) => self.lose_texts(alloc, ReplyError::NotJson),
        }
    }
}
