//! The server over any devices.

ghost use Rattle.std.specs.Prelude.{◌≡◌, Some, None, false, is_err, List, ℕ, map};
ghost use Rattle.command_line.specs.Rows.{Took, writer};
ghost use Rattle.editor_session.specs.Views.{session_seen};
ghost use Rattle.tfls_command.specs.Inner.Turns.{IsSent, TakesTurn};
ghost use Rattle.tfls_command.specs.Runs.{HasServed, frames};

use crate::ending::Ending;
use crate::host::Host;
use crate::inbox::Inbox;
use crate::incoming::{Received, receive};
use crate::outgoing::write_frame;
use editor_modules::ToldMessage;
use editor_session::{Session, Turn};
use hcl_source::{ByteSink, ByteSource, Failed};
use open_files::Disk;
use std::alloc::Global;

/// Writes these messages in turn, up to the first write that fails.
fn write_frames<O: ByteSink>(out: &mut O, messages: &[ToldMessage]) -> Result<(), Failed>
    requires { O.failed out.old ≡ false }
    ensures took { Took (writer O.ByteSink out.old out.new)
        (frames (map (λ message. message.body.items) messages.now)) }
    ensures failed { O.failed out.new ≡ is_err result }
{
    for message in messages {
        if let Err(failed) = write_frame(out, message.body.as_slice()) {
            return Err(failed);
        }
    }
    Ok(())
}

/// Says what a step leads to, or returns how the run ends.
fn send<O: ByteSink>(out: &mut O, turn: Turn) -> Option<Ending>
    requires { O.failed out.old ≡ false }
    ensures { IsSent turn (writer O.ByteSink out.old out.new) result }
{
    match turn {
        Turn::Quiet => None,
        Turn::End(status) => Some(Ending::Exit(status)),
        Turn::Say(body) => match write_frame(out, body.as_slice()) {
            Ok(()) => None,
            Err(_) => Some(Ending::WriteFailed),
        },
        Turn::Publish(messages) => match write_frames(out, messages.as_slice()) {
            Ok(()) => None,
            Err(_) => Some(Ending::WriteFailed),
        },
    }
}

/// Takes the next message and answers it, or returns how the run ends.
fn take_turn<D: Disk, I: ByteSource, O: ByteSink>(
    alloc: Global,
    disk: &D,
    session: &mut Session,
    inbox: &mut Inbox,
    input: &mut I,
    out: &mut O,
) -> Option<Ending>
    requires input { I.failed input.old ≡ false }
    requires out { O.failed out.old ≡ false }
    ensures takes { TakesTurn (D.files disk.now) (I.left input.old) (I.left input.new)
        (I.failed input.new) inbox.old inbox.new
        (session_seen session.old) (session_seen session.new)
        (writer O.ByteSink out.old out.new) result }
    ensures input { result ≡ None → I.failed input.new ≡ false }
    ensures out { result ≡ None → O.failed out.new ≡ false }
{
    let body = match receive(alloc, input, inbox) {
        Received::Message(body) => body,
        Received::End => return Some(Ending::InputEnded),
        Received::Malformed => return Some(Ending::Malformed),
        Received::Failed => return Some(Ending::ReadFailed),
        Received::OutOfMemory => return Some(Ending::OutOfMemory),
    };
    match session.step(alloc, disk, body.as_slice()) {
        Ok(turn) => send(out, turn),
        Err(_) => Some(Ending::OutOfMemory),
    }
}

/// Answers an editor until a message asks for the end, the input ends, or something fails.
pub fn serve<D: Disk + Drop, I: ByteSource, O: ByteSink>(
    alloc: Global,
    host: &Host<D>,
    input: &mut I,
    out: &mut O,
) -> Ending
    requires input { I.failed input.old ≡ false }
    requires out { O.failed out.old ≡ false }
    ensures { HasServed (D.files host.now.disk) (I.left input.old) (I.left input.new)
        (I.failed input.new) (writer O.ByteSink out.old out.new) result }
{
    let mut session = Session::new(alloc, host.hashing);
    let mut inbox = Inbox::new(alloc);
    for _ in 0..u64::MAX {
        match take_turn(alloc, &host.disk, &mut session, &mut inbox, input, out) {
            Some(ending) => return ending,
            None => {}
        }
    }
    Ending::OutOfMemory
}
