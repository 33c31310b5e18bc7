//! One message after another from a source.

ghost use Rattle.std.specs.Prelude.{◌≡◌, ◌<◌, ◌≤◌, ◌+◌, false, length, IfNone};
ghost use Rattle.tfls_command.specs.Frames.{max_body, max_head};
ghost use Rattle.tfls_command.specs.Streams.{EndsOnly, IsReceived, is_failed_read};
ghost use Rattle.tfls_command.specs.Inner.Steps.{Settles, TakesMessage};

use crate::front::{Front, front_of};
use crate::inbox::Inbox;
use hcl_source::ByteSource;
use std::alloc::Global;

/// What was received.
#[derive(Drop)]
pub enum Received {
    /// The body of a message.
    Message(Vec<u8>),
    /// The input ended. Less than a message waits, or nothing.
    End,
    /// What waits is no message, whatever follows.
    Malformed,
    /// A read failed.
    Failed,
    /// Memory ran out. Nothing was lost: the next call may go on.
    OutOfMemory,
}

/// Takes the message from the front of what waits.
fn take_message(alloc: Global, inbox: &mut Inbox, from: usize, to: usize) -> Received
    requires order { from ≤ to }
    requires within { to ≤ length inbox.old }
    ensures { TakesMessage inbox.old inbox.new from to result }
{
    let (front, _) = inbox.waiting().split_at(to);
    let (_, body) = front.split_at(from);
    let Ok(body) = Vec::from_slice(alloc, body) else {
        return Received::OutOfMemory;
    };
    inbox.pass(to);
    Received::Message(body)
}

/// What is received of what waits, or nothing where that is the beginning of a message.
#[tactic(auto, using(crate::proofs::StreamLemmas::message_order, crate::proofs::StreamLemmas::message_within, crate::proofs::StreamLemmas::receives_so))]
fn settle(alloc: Global, inbox: &mut Inbox) -> Option<Received>
    ensures settles { Settles inbox.old inbox.new result }
    ensures small { IfNone result (length inbox.new < max_head + max_body) }
{
    match front_of(inbox.waiting()) {
        Front::Message { from, to } => Some(take_message(alloc, inbox, from, to)),
        Front::Malformed => Some(Received::Malformed),
        Front::Partial => None,
    }
}

/// The next message of a source, after the bytes that wait already. It reads nothing while a message waits.
#[tactic(auto, using(crate::proofs::StreamLemmas::waits_none, crate::proofs::StreamLemmas::waits_more, crate::proofs::StreamLemmas::received_waiting, crate::proofs::StreamLemmas::received_after, crate::proofs::StreamLemmas::unread_ends, crate::proofs::StreamLemmas::unread_reads))]
pub fn receive<R: ByteSource>(alloc: Global, source: &mut R, inbox: &mut Inbox) -> Received
    requires { R.failed source.old ≡ false }
    ensures received { IsReceived (R.left source.old) (R.left source.new)
        inbox.old inbox.new result }
    ensures end { EndsOnly result (R.left source.new) }
    ensures failed { R.failed source.new ≡ is_failed_read result }
{
    loop {
        if let Some(received) = settle(alloc, inbox) {
            return received;
        }
        if let Some(received) = inbox.fill(alloc, source) {
            return received;
        }
    }
}
