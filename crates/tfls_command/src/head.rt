//! The head of a message.

ghost use Rattle.std.specs.Prelude.{◌≡◌, ◌≤◌, ◌+◌, [], ◌∷◌, length, min, nat_eq, IfSome};
ghost use Rattle.std.specs.List.{starts_with};
ghost use Rattle.tfls_command.specs.Frames.{bytes_before, first_length, head_length, max_body, max_head, told_length};

use crate::length::{field_value, is_length_field, value_length};

/// The most bytes of a head and its empty line.
pub const MAX_HEAD: usize = 4_096;

/// What ends a head.
static HEAD_END: &[u8] = b"\r\n\r\n";

/// What ends a field.
static LINE_END: &[u8] = b"\r\n";

/// How many bytes are before the first place where the mark begins.
#[tactic(auto, using(crate::proofs::HeadLemmas::before_starts, crate::proofs::HeadLemmas::before_goes, crate::proofs::HeadLemmas::before_found, crate::proofs::HeadLemmas::before_none))]
fn bytes_before(mark: &[u8], bytes: &[u8]) -> Option<usize>
    ensures is { result ≡ bytes_before mark.now bytes.now }
    ensures within { IfSome result (λ n. n + length mark.now ≤ length bytes.now) }
{
    for at in 0..bytes.len() {
        let (_, rest) = bytes.split_at(at);
        if rest.starts_with(mark) {
            return Some(at);
        }
    }
    None
}

/// How long the head is that these bytes begin with.
#[tactic(auto, using(std::proofs::lemmas::List::take_min))]
pub(crate) fn head_length(bytes: &[u8]) -> Option<usize>
    ensures is { result ≡ head_length bytes.now }
    ensures within { IfSome result (λ n. n + 4 ≤ min max_head (length bytes.now)) }
{
    let (seen, _) = bytes.split_at(MAX_HEAD.min(bytes.len()));
    bytes_before(HEAD_END, seen)
}

/// The length that the last field of a head tells.
fn last_length(field: &[u8]) -> Option<usize>
    ensures is { result ≡ first_length (field.now ∷ []) }
    ensures small { IfSome result (λ n. n ≤ max_body) }
{
    if !is_length_field(field) {
        return None;
    }
    value_length(field_value(field))
}

/// The length that a head tells.
#[tactic(auto, using(crate::proofs::HeadLemmas::told_goes, crate::proofs::HeadLemmas::told_found, crate::proofs::HeadLemmas::told_last))]
pub(crate) fn told_length(head: &[u8]) -> Option<usize>
    ensures is { result ≡ told_length head.now }
    ensures small { IfSome result (λ n. n ≤ max_body) }
{
    let mut start = 0;
    loop {
        let (_, rest) = head.split_at(start);
        let Some(len) = bytes_before(LINE_END, rest) else {
            return last_length(rest);
        };
        let (field, _) = rest.split_at(len);
        if is_length_field(field) {
            return value_length(field_value(field));
        }
        start += len + 2;
    }
}
