//! The length that a field tells.

ghost use Rattle.std.specs.Prelude.{◌≡◌, ◌≤◌, ◌==◌, length, IfSome, IsTrue};
ghost use Rattle.std.specs.Char.{is_ascii_digit};
ghost use Rattle.std.specs.List.{list_all, position_or_len, prefix_len};
ghost use Rattle.tfls_command.specs.Frames.{body_length, field_value, is_blank, is_length_field, max_body, padded_length, value_length};

/// The most bytes of a body.
pub const MAX_BODY: usize = 67_108_864;

/// The name of the field that tells the length of the body.
static NAME: &[u8] = b"Content-Length";

/// How many bytes are before the first colon, or before the end.
fn name_len(field: &[u8]) -> usize
    ensures count { result ≡ position_or_len (λ b. b == 58) field.now }
    ensures within { result ≤ length field.now }
{
    field.iter().take_while(|b| **b != b':').count()
}

/// Whether the field tells the length of the body, or should.
pub(crate) fn is_length_field(field: &[u8]) -> bool
    ensures { result ≡ is_length_field field.now }
{
    let (name, _) = field.split_at(name_len(field));
    name.eq_ignore_ascii_case(NAME)
}

/// What is after the first colon.
pub(crate) fn field_value(field: &[u8]) -> &[u8]
    ensures { result.now ≡ field_value field.now }
{
    let past = (name_len(field) + 1).min(field.len());
    let (_, value) = field.split_at(past);
    value
}

fn count_blanks(text: &[u8]) -> usize
    ensures count { result ≡ prefix_len is_blank text.now }
    ensures within { result ≤ length text.now }
{
    text.iter()
        .take_while(|b| **b == b' ' || **b == b'\t')
        .count()
}

fn count_digits(text: &[u8]) -> usize
    ensures count { result ≡ prefix_len is_ascii_digit text.now }
    ensures within { result ≤ length text.now }
{
    text.iter().take_while(|b| b.is_ascii_digit()).count()
}

fn are_blanks(text: &[u8]) -> bool
    ensures { result ≡ list_all is_blank text.now }
{
    text.iter().all(|b| *b == b' ' || *b == b'\t')
}

/// The number of the digits, if a body may have that many bytes.
#[tactic(auto, using(crate::proofs::LengthLemmas::digit_at, crate::proofs::LengthLemmas::digits_go, crate::proofs::LengthLemmas::length_over, crate::proofs::LengthLemmas::length_is))]
fn body_length(digits: &[u8]) -> Option<usize>
    requires { IsTrue (list_all is_ascii_digit digits.now) }
    ensures is { result ≡ body_length digits.now }
    ensures small { IfSome result (λ n. n ≤ max_body) }
{
    if digits.is_empty() {
        return None;
    }
    let mut value: usize = 0;
    for at in 0..digits.len() {
        value = value * 10 + (digits[at] - b'0') as usize;
        if value > MAX_BODY {
            return None;
        }
    }
    Some(value)
}

/// The same of digits and then blanks alone.
#[tactic(auto, using(crate::proofs::LengthLemmas::taken_all))]
fn padded_length(text: &[u8]) -> Option<usize>
    ensures is { result ≡ padded_length text.now }
    ensures small { IfSome result (λ n. n ≤ max_body) }
{
    let (digits, rest) = text.split_at(count_digits(text));
    if !are_blanks(rest) {
        return None;
    }
    body_length(digits)
}

/// The length in the value of a field.
pub(crate) fn value_length(value: &[u8]) -> Option<usize>
    ensures is { result ≡ value_length value.now }
    ensures small { IfSome result (λ n. n ≤ max_body) }
{
    let (_, text) = value.split_at(count_blanks(value));
    padded_length(text)
}
