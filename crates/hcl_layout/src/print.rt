//! The length of the print, and whether the source is its own print.
ghost use Rattle.std.specs.Prelude.{◌≡◌, ◌↔◌, ◌<◌, ◌≤◌, ◌+◌, ◌^◌, ◌==◌, IsTrue, IfSome, length, drop, nat_eq};
ghost use Rattle.std.specs.List.{list_all, starts_with};
ghost use Rattle.hcl_tokens.specs.Balanced.{IsBalanced};
ghost use Rattle.hcl_layout.specs.Inner.Left.{EndsAt, GoesOn, begins_blank};
ghost use Rattle.hcl_layout.specs.Inner.Simple.{IsFrom};
ghost use Rattle.hcl_layout.specs.Print.{print};

use crate::lines::{Columns, Lines, Piece};
use crate::measured::Measured;
use hcl_grammar::Accepted;

/// The length of the print, in bytes.
pub fn printed_len(accepted: &Accepted<'_, '_>) -> u64
    ensures { result ≡ length (print accepted.now.tokens) }
{
    let tokens = Measured::new(accepted);
    let _source = tokens.source();
    let mut lines = Lines::new(Columns::Ahead);
    let mut len = 0;
    while let Some(line) = lines.next(&tokens) {
        let mut stop = line.first;
        for number in line.first..line.end {
            let (piece, next) = line.piece(&tokens, number, stop);
            stop = next;
            len += piece.gap + piece.token.text.len() as u64;
        }
    }
    len
}

/// Whether the print has no bytes. No token is empty, so only an empty token list prints nothing.
pub fn prints_nothing(accepted: &Accepted<'_, '_>) -> bool
    ensures { result ≡ (length (print accepted.now.tokens) == 0) }
{
    let tokens = accepted.tokens();
    // its contract says that the tokens are a scan
    let _scanned = tokens.source();
    tokens.is_empty()
}

pub fn are_spaces(bytes: &[u8]) -> bool
    ensures { result ≡ list_all (λ b. b == 32) bytes.now }
{
    bytes.iter().all(|b| *b == b' ')
}

/// Whether the source has a piece where the text before it ends.
#[inline(always)]
pub fn stays_in_place(source: &[u8], at: usize, piece: Piece<'_>) -> bool
    requires within { at ≤ length source.now }
    requires source { IsFrom source.now piece.token.start piece.token.text.now }
    requires gap { piece.gap ≤ 2 ^ 34 }
    requires small { length source.now < 2 ^ 32 }
    ensures goes { IsTrue result → GoesOn source.now at piece.entry }
    ensures end { IsTrue result → at + piece.entry.gap ≡ piece.entry.token.start }
{
    if at as u64 + piece.gap != piece.token.start as u64 {
        return false;
    }
    if piece.gap == 0 {
        return true;
    }
    if piece.gap == 1 {
        return source[at] == b' ';
    }
    are_spaces(&source[at..piece.token.start])
}

/// Whether there are this many spaces at the front.
fn begins_blank(bytes: &[u8], gap: u64) -> bool
    ensures { result ≡ begins_blank gap bytes.now }
{
    if gap > bytes.len() as u64 {
        return false;
    }
    let (front, _) = bytes.split_at(gap as usize);
    are_spaces(front)
}

/// Whether the source has the text of a piece at a place. If nothing changed before, that is the piece's own place, and
/// nothing is compared.
fn has_text_at(bytes: &[u8], at: usize, piece: Piece<'_>) -> bool
    requires within { at ≤ length bytes.now }
    requires source { IsFrom bytes.now piece.token.start piece.token.text.now }
    ensures { result ≡ starts_with nat_eq (drop at bytes.now) piece.entry.token.text.now }
{
    if piece.token.start == at {
        return true;
    }
    let (_, left) = bytes.split_at(at);
    left.starts_with(piece.token.text.as_bytes())
}

/// The end of a piece of the source at a place, if it is there. Its text is compared with the text there.
#[inline(never)]
fn end_if_found(bytes: &[u8], at: usize, piece: Piece<'_>) -> Option<usize>
    requires within { at ≤ length bytes.now }
    requires source { IsFrom bytes.now piece.token.start piece.token.text.now }
    ensures found { EndsAt bytes.now at piece.entry result }
    ensures within { IfSome result (λ end. end ≤ length bytes.now) }
{
    let (_, left) = bytes.split_at(at);
    if !begins_blank(left, piece.gap) {
        return None;
    }
    let front = at + piece.gap as usize;
    if !has_text_at(bytes, front, piece) {
        return None;
    }
    Some(front + piece.token.text.len())
}

/// The end of a piece of the source at a place, if it is there; an unmoved text isn't compared.
fn piece_end(bytes: &[u8], at: usize, piece: Piece<'_>) -> Option<usize>
    requires within { at ≤ length bytes.now }
    requires source { IsFrom bytes.now piece.token.start piece.token.text.now }
    requires gap { piece.gap ≤ 2 ^ 34 }
    requires small { length bytes.now < 2 ^ 32 }
    ensures found { EndsAt bytes.now at piece.entry result }
    ensures within { IfSome result (λ end. end ≤ length bytes.now) }
{
    if stays_in_place(bytes, at, piece) {
        return Some(piece.token.start + piece.token.text.len());
    }
    end_if_found(bytes, at, piece)
}

/// Whether the print is the source, comparing them piece by piece up to the first difference.
#[inline(never)]
fn agrees(tokens: &Measured<'_, '_>) -> bool
    requires balanced { IsBalanced tokens.now.tokens }
    ensures { IsTrue result ↔ (print tokens.now.tokens ≡ tokens.now.text) }
{
    let bytes = tokens.source();
    let mut lines = Lines::new(Columns::Ahead);
    let mut at = 0;
    while let Some(line) = lines.next(tokens) {
        let mut stop = line.first;
        for number in line.first..line.end {
            let (piece, next) = line.piece(tokens, number, stop);
            stop = next;
            let Some(end) = piece_end(bytes, at, piece) else {
                return false;
            };
            at = end;
        }
    }
    at == bytes.len()
}

/// Whether the source has each piece in place, with the columns of the runs taken from the source, and these columns
/// are right. Nothing is read ahead. This is a call, so that the scan keeps its registers.
#[inline(never)]
fn stands_in_place(tokens: &Measured<'_, '_>) -> bool
    requires balanced { IsBalanced tokens.now.tokens }
    ensures { IsTrue result → print tokens.now.tokens ≡ tokens.now.text }
{
    let source = tokens.source();
    let mut lines = Lines::new(Columns::Found);
    let mut at = 0;
    while let Some(line) = lines.next(tokens) {
        if lines.wrong {
            return false;
        }
        let mut stop = line.first;
        for number in line.first..line.end {
            let (piece, next) = line.piece(tokens, number, stop);
            stop = next;
            if !stays_in_place(source, at, piece) {
                return false;
            }
            at = piece.token.start + piece.token.text.len();
        }
    }
    at == source.len() && lines.are_right()
}

/// Whether the print is found to be the source without reading ahead, as for a formatted file.
pub fn is_surely_formatted(accepted: &Accepted<'_, '_>) -> bool
    ensures { IsTrue result → print accepted.now.tokens ≡ accepted.now.text }
{
    stands_in_place(&Measured::new(accepted))
}

/// Whether the print is the source: both have the same bytes.
pub fn is_formatted(accepted: &Accepted<'_, '_>) -> bool
    ensures { IsTrue result ↔ (print accepted.now.tokens ≡ accepted.now.text) }
{
    let tokens = Measured::new(accepted);
    stands_in_place(&tokens) || agrees(&tokens)
}
