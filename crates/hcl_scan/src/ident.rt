//! Identifiers, and the openers of heredocs, whose marker is one.

ghost use Rattle.std.specs.Prelude.{◌≡◌, ◌≤◌, ◌==◌, ◌||◌, true, false, take, drop, length, get_or, IfSome, IfNone};
ghost use Rattle.std.specs.Char.{is_ascii_alphabetic};
ghost use Rattle.std.specs.List.{prefix_len};
ghost use Rattle.std.specs.Str.{IsCharBoundary};
ghost use Rattle.hcl_tokens.specs.Spelling.{continues_ident, starts_ident, IsIdent, IsHeredocOpen};
ghost use Rattle.hcl_tokens.specs.declared.token.Kind.TheVariants.{Ident};
ghost use Rattle.hcl_tokens.specs.SideBySide.{may_begin_ident};
ghost use Rattle.hcl_scan.specs.Inner.Found.{IsLongestFront, HasNoFront, AreContinuing, BeginsWith, BeginsWithout, FirstChar, IsMarker, continues_ascii, heredoc_mark_len};

use crate::found::FoundToken;
use crate::text::{BLOCK, byte_at, newline_len};
use hcl_tokens::Kind;

fn continues_ident(c: char) -> bool
    ensures { result ≡ continues_ident c }
{
    unicode_ident::is_xid_continue(c) || c == '-'
}

fn starts_ident(c: char) -> bool
    ensures { result ≡ starts_ident c }
{
    unicode_ident::is_xid_start(c) || c == '_'
}

/// The ASCII characters that may be inside an identifier, each at its own place, and points for all other bytes.
static CONTINUING: [u8; 256] = *b"\
    ................................\
    .............-..0123456789......\
    .ABCDEFGHIJKLMNOPQRSTUVWXYZ...._\
    .abcdefghijklmnopqrstuvwxyz.....\
    ................................\
    ................................\
    ................................\
    ................................";

/// Whether the ASCII byte may be inside an identifier.
fn continues_ascii(b: u8) -> bool
    ensures { result ≡ continues_ascii b }
{
    CONTINUING[b as usize] != b'.'
}

/// Whether the ASCII byte may start an identifier.
fn starts_ascii(b: u8) -> bool
    ensures { result ≡ (is_ascii_alphabetic b || (b == 95)) }
{
    b.is_ascii_alphabetic() || b == b'_'
}

/// How many bytes the first character has, if it may be inside an identifier.
fn continuing_char(text: &str) -> Option<usize>
    ensures found { IfSome result (FirstChar continues_ident text.now) }
    ensures none { IfNone result (BeginsWithout continues_ident text.now) }
{
    match text.chars().next() {
        Some(c) => if continues_ident(c) {
            Some(c.len_utf8())
        } else {
            None
        },
        None => None,
    }
}

/// Whether the first character may start an identifier.
fn begins_ident(text: &str) -> bool
    ensures yes { result ≡ true → BeginsWith starts_ident text.now }
    ensures no { result ≡ false → BeginsWithout starts_ident text.now }
{
    let bytes = text.as_bytes();
    if bytes.is_empty() {
        return false;
    }
    if bytes[0] < 128 {
        return starts_ascii(bytes[0]);
    }
    match text.chars().next() {
        Some(c) => starts_ident(c),
        None => false,
    }
}

/// How many bytes the ASCII characters at the front have that may be inside an identifier, counted one by one.
#[inline(always)]
fn continuing_few(bytes: &[u8]) -> usize
    ensures count { result ≡ prefix_len continues_ascii bytes.now }
    ensures within { result ≤ length bytes.now }
{
    bytes.iter().take_while(|b| continues_ascii(**b)).count()
}

/// How many bytes the ASCII characters at the front have that may be inside an identifier, counted by blocks.
#[inline(always)]
fn continuing_ascii(bytes: &[u8]) -> usize
    ensures { result ≡ prefix_len continues_ascii bytes.now }
{
    let mut len = 0;
    while BLOCK <= bytes.len() - len {
        let more = continuing_few(&bytes[len..len + BLOCK]);
        if more < BLOCK {
            return len + more;
        }
        len += BLOCK;
    }
    let (_, rest) = bytes.split_at(len);
    len + continuing_few(rest)
}

/// How many bytes the characters at the front have that may be inside an identifier. Nearly always these are ASCII, and
/// are counted as bytes; from the first other one on each is read as a character.
fn continuing_len(text: &str) -> usize
    ensures boundary { IsCharBoundary text.now result }
    ensures continuing { AreContinuing (take result text.now) }
    ensures stops { BeginsWithout continues_ident (drop result text.now) }
{
    let bytes = text.as_bytes();
    let mut len = continuing_ascii(bytes);
    if byte_at(bytes, len) < 128 {
        return len;
    }
    while let Some(n) = continuing_char(&text[len..]) {
        len += n;
    }
    len
}

/// How many bytes the longest identifier at the front has.
#[cold]
#[inline(never)]
pub(crate) fn ident_len(text: &str) -> Option<usize>
    ensures found { IfSome result (IsLongestFront IsIdent text.now) }
    ensures boundary { IfSome result (IsCharBoundary text.now) }
    ensures none { IfNone result (HasNoFront IsIdent text.now) }
{
    if begins_ident(text) {
        Some(continuing_len(text))
    } else {
        None
    }
}

/// The longest identifier at the front, if the first byte may begin one: a run of ASCII characters alone is one.
#[inline(always)]
pub(crate) fn begun_ident(text: &str) -> Option<FoundToken>
    requires { may_begin_ident (get_or text.now 0 0) ≡ true }
    ensures found { IfSome result (λ f. (f.kind ≡ Ident) × IsLongestFront IsIdent text.now f.len) }
    ensures boundary { IfSome result (λ f. IsCharBoundary text.now f.len) }
    ensures none { IfNone result (HasNoFront IsIdent text.now) }
{
    let bytes = text.as_bytes();
    let len = continuing_ascii(bytes);
    if byte_at(bytes, len) < 128 {
        return Some(FoundToken {
            kind: Kind::Ident,
            len,
        });
    }
    match ident_len(text) {
        Some(len) => Some(FoundToken {
            kind: Kind::Ident,
            len,
        }),
        None => None,
    }
}

/// How many bytes of the opener of a heredoc are before its marker; 0 if there is no opener.
fn heredoc_mark_len(seen: &[u8]) -> usize
    ensures { result ≡ heredoc_mark_len seen.now }
{
    if seen.starts_with(b"<<-") {
        3
    } else if seen.starts_with(b"<<") {
        2
    } else {
        0
    }
}

/// How many bytes the marker and the newline after it have.
fn marker_len(seen: &str) -> Option<usize>
    ensures found { IfSome result (IsLongestFront IsMarker seen.now) }
    ensures none { IfNone result (HasNoFront IsMarker seen.now) }
{
    let Some(name) = ident_len(seen) else {
        return None;
    };
    let (_, after) = seen.as_bytes().split_at(name);
    match newline_len(after) {
        Some(end) => Some(name + end),
        None => None,
    }
}

/// How many bytes the opener of a heredoc at the front has.
pub(crate) fn heredoc_open_len(seen: &str) -> Option<usize>
    ensures found { IfSome result (IsLongestFront IsHeredocOpen seen.now) }
    ensures none { IfNone result (HasNoFront IsHeredocOpen seen.now) }
{
    let mark = heredoc_mark_len(seen.as_bytes());
    if mark == 0 {
        return None;
    }
    match marker_len(&seen[mark..]) {
        Some(len) => Some(mark + len),
        None => None,
    }
}
