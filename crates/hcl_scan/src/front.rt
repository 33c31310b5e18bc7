//! The first bytes of a token of an expression. One table covers all cases, so that the first byte of a token is looked
//! up once, whether it is a mark or leads to something longer:
//!
//! ```text
//! a = b >= 1 # c
//! |   | |  | `- HashOrSlashes
//! |   | |  `- Digit
//! |   | `- `>=`, a mark of two bytes
//! `---`- Letter
//! ```

ghost use Rattle.std.specs.Prelude.{◌≡◌};
ghost use Rattle.hcl_scan.specs.Inner.Fronts.{IsFront};
ghost use Rattle.hcl_scan.specs.Inner.Prefixes.{slash_prefix};

use crate::text::byte_at;
use hcl_tokens::Kind;

/// The tokens that the first two bytes may begin.
#[derive(Clone, Copy)]
pub enum Prefix {
    LineEnd,
    Space,
    Letter,
    Digit,
    HashOrSlashes,
    SlashStar,
    OneSlash,
    LessLess,
    Closer,
    Sign,
}

fn slash_prefix(second: u8) -> Prefix
    ensures { result ≡ slash_prefix second }
{
    if second == b'/' {
        Prefix::HashOrSlashes
    } else if second == b'*' {
        Prefix::SlashStar
    } else {
        Prefix::OneSlash
    }
}

/// The meaning of the first bytes: a mark and its length, or the forms that they lead to.
#[derive(Clone, Copy)]
pub enum Front {
    Mark(Kind, usize),
    Led(Prefix),
}

/// Classifies the first bytes. The second byte is read only if the first one needs it.
pub fn front_of(seen: &[u8]) -> Front
    ensures { IsFront seen.now result }
{
    match byte_at(seen, 0) {
        b'a'..=b'z' | b'A'..=b'Z' | b'_' | 128..=255 => Front::Led(Prefix::Letter),
        b'0'..=b'9' => Front::Led(Prefix::Digit),
        b'\n' | b'\r' => Front::Led(Prefix::LineEnd),
        b' ' | b'\t' => Front::Led(Prefix::Space),
        b'#' => Front::Led(Prefix::HashOrSlashes),
        b'/' => Front::Led(slash_prefix(byte_at(seen, 1))),
        b'}' | b'~' => Front::Led(Prefix::Closer),
        b'"' => Front::Mark(Kind::QuoteOpen, 1),
        b'.' if seen.starts_with(b"...") => Front::Mark(Kind::Ellipsis, 3),
        b'.' => Front::Mark(Kind::Dot, 1),
        b',' => Front::Mark(Kind::Comma, 1),
        b'{' => Front::Mark(Kind::BraceOpen, 1),
        b'[' => Front::Mark(Kind::BracketOpen, 1),
        b']' => Front::Mark(Kind::BracketClose, 1),
        b'(' => Front::Mark(Kind::ParenOpen, 1),
        b')' => Front::Mark(Kind::ParenClose, 1),
        b'?' => Front::Mark(Kind::Question, 1),
        b'-' => Front::Mark(Kind::Minus, 1),
        b'+' => Front::Mark(Kind::Plus, 1),
        b'*' => Front::Mark(Kind::Star, 1),
        b'%' => Front::Mark(Kind::Percent, 1),
        b'=' if byte_at(seen, 1) == b'>' => Front::Mark(Kind::Arrow, 2),
        b'=' if byte_at(seen, 1) == b'=' => Front::Mark(Kind::Equal, 2),
        b'=' => Front::Mark(Kind::Assign, 1),
        b':' if byte_at(seen, 1) == b':' => Front::Mark(Kind::ColonColon, 2),
        b':' => Front::Mark(Kind::Colon, 1),
        first => match (first, byte_at(seen, 1)) {
            (b'!', b'=') => Front::Mark(Kind::NotEqual, 2),
            (b'!', _) => Front::Mark(Kind::Not, 1),
            (b'<', b'=') => Front::Mark(Kind::LessEqual, 2),
            (b'<', b'<') => Front::Led(Prefix::LessLess),
            (b'<', _) => Front::Mark(Kind::Less, 1),
            (b'>', b'=') => Front::Mark(Kind::GreaterEqual, 2),
            (b'>', _) => Front::Mark(Kind::Greater, 1),
            (b'&', b'&') => Front::Mark(Kind::And, 2),
            (b'|', b'|') => Front::Mark(Kind::Or, 2),
            _ => Front::Led(Prefix::Sign),
        },
    }
}
