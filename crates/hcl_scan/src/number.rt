//! Numbers, by a walk forward.

ghost use Rattle.std.specs.Prelude.{◌≡◌, ◌==◌, ◌||◌, ◌≤◌, length, IfSome, IfNone};
ghost use Rattle.std.specs.List.{prefix_len};
ghost use Rattle.std.specs.Char.{is_ascii_digit};
ghost use Rattle.hcl_tokens.specs.Spelling.{IsDigits, IsFraction, IsSign, IsExponent, IsNumber};
ghost use Rattle.hcl_scan.specs.Inner.Found.{IsLongestFront, HasNoFront};

use crate::text::byte_at;

fn count_digits(seen: &[u8]) -> usize
    ensures count { result ≡ prefix_len is_ascii_digit seen.now }
    ensures within { result ≤ length seen.now }
{
    seen.iter().take_while(|b| b.is_ascii_digit()).count()
}

/// How many digits are at the front.
pub(crate) fn digits_len(seen: &[u8]) -> Option<usize>
    ensures found { IfSome result (IsLongestFront IsDigits seen.now) }
    ensures none { IfNone result (HasNoFront IsDigits seen.now) }
{
    let count = count_digits(seen);
    if count == 0 { None } else { Some(count) }
}

/// How many bytes the fraction at the front has: a point and digits, or nothing.
fn fraction_len(seen: &[u8]) -> usize
    ensures { IsLongestFront IsFraction seen.now result }
{
    if !seen.starts_with(b".") {
        return 0;
    }
    let (_, after) = seen.split_at(1);
    match digits_len(after) {
        Some(digits) => 1 + digits,
        None => 0,
    }
}

fn sign_len(seen: &[u8]) -> usize
    ensures { IsLongestFront IsSign seen.now result }
{
    if seen.starts_with(b"+") || seen.starts_with(b"-") {
        1
    } else {
        0
    }
}

fn marks_exponent(b: u8) -> bool
    ensures { result ≡ ((b == 101) || (b == 69)) }
{
    b == b'e' || b == b'E'
}

/// How many bytes the exponent at the front has: `e` or `E`, a sign or none, and digits, or nothing.
fn exponent_len(seen: &[u8]) -> usize
    ensures { IsLongestFront IsExponent seen.now result }
{
    if !marks_exponent(byte_at(seen, 0)) {
        return 0;
    }
    let (_, after) = seen.split_at(1);
    let sign = sign_len(after);
    let (_, power) = after.split_at(sign);
    match digits_len(power) {
        Some(digits) => 1 + sign + digits,
        None => 0,
    }
}

/// How many bytes the longest number at the front has.
pub(crate) fn number_len(seen: &[u8]) -> Option<usize>
    ensures found { IfSome result (IsLongestFront IsNumber seen.now) }
    ensures none { IfNone result (HasNoFront IsNumber seen.now) }
{
    let Some(whole) = digits_len(seen) else {
        return None;
    };
    let (_, after) = seen.split_at(whole);
    let fraction = fraction_len(after);
    let (_, last) = after.split_at(fraction);
    Some(whole + fraction + exponent_len(last))
}
