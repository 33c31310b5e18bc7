//! What a stream begins with.

ghost use Rattle.std.specs.Prelude.{◌≡◌, ◌<◌, ◌+◌, length};
ghost use Rattle.tfls_command.specs.Fronts.{front_of};
ghost use Rattle.tfls_command.specs.Frames.{max_body, max_head};
ghost use Rattle.tfls_command.specs.declared.front.Front.TheVariants.{Partial};

use crate::head::{MAX_HEAD, head_length, told_length};

/// What a stream begins with, as far as it has come.
#[derive(Clone, Copy)]
pub enum Front {
    /// A message, whose body stands from the one offset to the other.
    Message { from: usize, to: usize },
    /// The beginning of one, or nothing.
    Partial,
    /// What no message begins with.
    Malformed,
}

/// What these bytes begin with.
pub(crate) fn front_of(bytes: &[u8]) -> Front
    ensures front { result ≡ front_of bytes.now }
    ensures small { result ≡ Partial → length bytes.now < max_head + max_body }
{
    let Some(head) = head_length(bytes) else {
        if bytes.len() < MAX_HEAD {
            return Front::Partial;
        }
        return Front::Malformed;
    };
    let Some(length) = told_length(&bytes[..head]) else {
        return Front::Malformed;
    };
    let from = head + 4;
    if length > bytes.len() - from {
        return Front::Partial;
    }
    Front::Message {
        from,
        to: from + length,
    }
}
