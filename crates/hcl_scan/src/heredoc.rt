//! The line that ends a heredoc.
//!
//! `lanes` searches for its marker at many places at a time. At a possible place, a word at either end is compared
//! before the whole marker:
//!
//! ```text
//! marker         Mabcxyz    of 4 to 8 bytes the first four and the last four tell all
//! a line         Mab99yz
//! first four     Mabc       not `Mab9`
//! last four         cxyz
//! ```

ghost use Rattle.std.specs.Prelude.{◌≡◌, ◌≢◌, ◌<◌, ◌≤◌, ◌+◌, ◌-◌, ◌^◌, ℕ, false, get_or, codes, nat_eq, if◌then◌else◌, drop, length, IfSome, IfNone, IsTrue};
ghost use Rattle.std.specs.List.{position_or_len, starts_with};
ghost use Rattle.hcl_tokens.specs.Lexemes.{is_newline_byte, marker_of};
ghost use Rattle.hcl_tokens.specs.Spelling.{starts, is_blank};
ghost use Rattle.hcl_tokens.specs.Scans.{skip_blanks, at_line_end, closer_len, IsMarkerLine, IsFirstMarkerLine};
ghost use Rattle.hcl_scan.specs.Inner.Lanes.{MarksStanding, NoneStands, IsAfterOthers};
ghost use Rattle.hcl_scan.specs.Inner.MarkerPlaces.{IsPlace, IsBlankFront, EndsLine, IsNextLine};

use crate::lanes::{PLACES, clear_bit, likely_places, lowest_bit};
use crate::text::{count_blanks, is_blank, skip_blanks};
use memchr::memchr;

/// How many bytes are before the first LF or CR, or before the end.
fn word_len(text: &[u8]) -> usize
    ensures count { result ≡ position_or_len is_newline_byte text.now }
    ensures within { result ≤ length text.now }
{
    text.iter()
        .take_while(|b| **b != b'\n' && **b != b'\r')
        .count()
}

/// The text after the `<<` or `<<-` of a heredoc's opener.
fn heredoc_name(opener: &[u8]) -> &[u8]
    requires { 2 ≤ length opener.now }
    ensures { result.now ≡ (if starts_with nat_eq opener.now (codes "<<-") then drop 3 opener.now
        else drop 2 opener.now) }
{
    if opener.starts_with(b"<<-") {
        let (_, after) = opener.split_at(3);
        return after;
    }
    let (_, after) = opener.split_at(2);
    after
}

/// The marker of a heredoc's opener.
pub fn marker_of(opener: &[u8]) -> &[u8]
    requires { 2 ≤ length opener.now }
    ensures { result.now ≡ marker_of opener.now }
{
    let name = heredoc_name(opener);
    let (marker, _) = name.split_at(word_len(name));
    marker
}

fn at_line_end(text: &[u8]) -> bool
    ensures { result ≡ at_line_end text.now }
{
    text.is_empty() || text.starts_with(b"\n") || text.starts_with(b"\r\n")
}

/// Whether there are only blanks between a place and the end of its line.
fn ends_line(text: &[u8], at: usize) -> bool
    requires { at ≤ length text.now }
    ensures { result ≡ at_line_end (skip_blanks (drop at text.now)) }
{
    let (_, after) = text.split_at(at);
    at_line_end(skip_blanks(after))
}

/// The beginning of the line of a place, if only blanks are before the place.
fn blank_line_start(text: &[u8], place: usize) -> Option<usize>
    requires { place ≤ length text.now }
    ensures found { IfSome result (IsBlankFront text.now place) }
    ensures none { IfNone result ((n : ℕ) → ¬ IsBlankFront text.now place n) }
{
    let mut start = place;
    while start > 0 && is_blank(text[start - 1]) {
        start -= 1;
    }
    if start == 0 || text[start - 1] == b'\n' {
        Some(start)
    } else {
        None
    }
}

/// The beginning of the line that is the marker from `place` to `end`, if it is a marker line. The text after the
/// marker is tested first: one byte of it usually decides.
fn line_of_marker(text: &[u8], place: usize, end: usize) -> Option<usize>
    requires order { place ≤ end }
    requires within { end ≤ length text.now }
    ensures found { IfSome result (λ n. IsBlankFront text.now place n × EndsLine text.now end) }
    ensures none { IfNone result ((n : ℕ) → IsBlankFront text.now place n
        → ¬ EndsLine text.now end) }
{
    if ends_line(text, end) {
        blank_line_start(text, place)
    } else {
        None
    }
}

/// Whether the marker is at a place.
#[inline(always)]
fn stands_at(text: &[u8], marker: &[u8], place: usize) -> bool
    requires { place ≤ length text.now }
    ensures { result ≡ starts (drop place text.now) marker.now }
{
    let (_, rest) = text.split_at(place);
    rest.starts_with(marker)
}

/// Whether the marker is at a place, by a test in which one byte usually decides.
#[inline(always)]
fn is_found_at(text: &[u8], marker: &[u8], place: usize) -> bool
    requires some { 0 < length marker.now }
    requires within { place < length text.now }
    ensures { result ≡ starts (drop place text.now) marker.now }
{
    text[place] == marker[0] && stands_at(text, marker, place)
}

/// Whether two texts have this many bytes at either end, and differ in some of them.
#[inline(always)]
fn ends_differ<const N: usize>(text: &[u8], other: &[u8]) -> bool
    requires { N ≤ 16 }
    ensures { IsTrue result → text.now ≢ other.now }
{
    let (Some(front), Some(other_front)) = (text.first_chunk::<N>(), other.first_chunk::<N>())
    else {
        return false;
    };
    let (Some(back), Some(other_back)) = (text.last_chunk::<N>(), other.last_chunk::<N>()) else {
        return false;
    };
    *front != *other_front || *back != *other_back
}

/// Whether two texts differ, by their ends. If both have 2 to 32 bytes, the ends decide it, without a call.
#[inline(always)]
fn are_different(text: &[u8], other: &[u8]) -> bool
    ensures { IsTrue result → text.now ≢ other.now }
{
    match other.len() {
        0..=3 => ends_differ::<2>(text, other),
        4..=8 => ends_differ::<4>(text, other),
        9..=16 => ends_differ::<8>(text, other),
        _ => ends_differ::<16>(text, other),
    }
}

/// Whether the ends of the marker rule it out at a place.
#[inline(always)]
fn is_ruled_out(text: &[u8], marker: &[u8], place: usize) -> bool
    requires within { place + length marker.now ≤ length text.now }
    ensures { IsTrue result → starts (drop place text.now) marker.now ≡ false }
{
    are_different(&text[place..place + marker.len()], marker)
}

/// The likely places from the first on at which the marker isn't ruled out. This is a call, since more loops in one
/// function would take each other's registers; it calls nothing.
#[cold]
#[inline(never)]
fn from_first_in_doubt(text: &[u8], marker: &[u8], at: usize, likely: u64) -> u64
    requires room { at + PLACES + length marker.now < length text.now }
    requires marks { MarksStanding text.now marker.now at likely }
    ensures marks { MarksStanding text.now marker.now at result }
{
    let mut left = likely;
    while left != 0 {
        let lane = lowest_bit(left);
        if !is_ruled_out(text, marker, at + lane + 1) {
            return left;
        }
        left = clear_bit(left, lane);
    }
    left
}

/// The places at which the marker isn't ruled out, and maybe others. Most blocks have no likely place.
#[inline(always)]
fn places_in_doubt(text: &[u8], marker: &[u8], at: usize) -> u64
    requires some { 0 < length marker.now }
    requires room { at + PLACES + length marker.now < length text.now }
    ensures { MarksStanding text.now marker.now at result }
{
    let likely = likely_places(text, at, marker);
    if likely == 0 {
        return likely;
    }
    from_first_in_doubt(text, marker, at, likely)
}

/// The first of the marked places that has the marker. Bit k is the place after `at + k`.
#[inline(always)]
fn first_standing(text: &[u8], marker: &[u8], at: usize, marked: u64) -> Option<usize>
    requires room { at + PLACES < length text.now }
    requires marks { MarksStanding text.now marker.now at marked }
    ensures found { IfSome result (λ n. (n ≤ at + PLACES)
        × IsAfterOthers text.now marker.now at n) }
    ensures none { IfNone result (NoneStands text.now marker.now at (at + PLACES)) }
{
    let mut left = marked;
    while left != 0 {
        let lane = lowest_bit(left);
        let place = at + lane + 1;
        if stands_at(text, marker, place) {
            return Some(place);
        }
        left = clear_bit(left, lane);
    }
    None
}

/// The first place after this one at which a marker line's marker may be. Most places are skipped many at a time.
#[inline(always)]
fn past_unlikely(text: &[u8], marker: &[u8], place: usize) -> usize
    requires some { 0 < length marker.now }
    requires within { place + length marker.now ≤ length text.now }
    ensures after { IsAfterOthers text.now marker.now place result }
    ensures within { result ≤ length text.now }
{
    let last = text.len() - marker.len();
    let mut here = place;
    while PLACES < last - here {
        let marked = places_in_doubt(text, marker, here);
        if let Some(next) = first_standing(text, marker, here, marked) {
            return next;
        }
        here += PLACES;
    }
    here + 1
}

/// The first marker after a line's beginning that may be a marker line's. This is a call, since the loop needs more
/// registers than the scan leaves.
#[cold]
#[inline(never)]
fn next_place(text: &[u8], marker: &[u8], at: usize) -> Option<usize>
    requires some { 0 < length marker.now }
    requires within { at ≤ length text.now }
    ensures found { IfSome result (IsPlace marker.now text.now at) }
    ensures none { IfNone result ((m : ℕ) → at ≤ m → ¬ IsMarkerLine marker.now text.now m) }
{
    let mut here = at;
    while marker.len() <= text.len() - here {
        if is_found_at(text, marker, here) {
            return Some(here);
        }
        here = past_unlikely(text, marker, here);
    }
    None
}

/// The beginning of the next line after a place.
fn next_line(text: &[u8], place: usize) -> Option<usize>
    requires { place ≤ length text.now }
    ensures found { IfSome result (IsNextLine text.now place) }
    ensures none { IfNone result ((n : ℕ) → place < n → n ≤ length text.now
        → get_or text.now (n - 1) 0 ≢ 10) }
{
    let (_, rest) = text.split_at(place);
    let line = memchr(b'\n', rest)?;
    Some(place + line + 1)
}

/// The beginning of the first line that is the marker. A line is tested once, at the first marker in it with a blank or
/// nothing at either end: a marker line's marker has only blanks before it, and no marker begins with one.
pub fn marker_line(text: &[u8], marker: &[u8]) -> Option<usize>
    requires some { 0 < length marker.now }
    requires begins { is_blank (get_or marker.now 0 0) ≡ false }
    ensures found { IfSome result (IsFirstMarkerLine marker.now text.now) }
    ensures none { IfNone result ((n : ℕ) → ¬ IsMarkerLine marker.now text.now n) }
{
    let mut at = 0;
    while let Some(place) = next_place(text, marker, at) {
        if let Some(start) = line_of_marker(text, place, place + marker.len()) {
            return Some(start);
        }
        at = next_line(text, place)?;
    }
    None
}

/// How many bytes the blanks and the marker of a marker line have.
pub fn closer_len(line: &[u8], marker: &[u8]) -> usize
    requires { IsTrue (starts (skip_blanks line.now) marker.now) }
    ensures value { result ≡ closer_len marker.now line.now }
    ensures within { result ≤ length line.now }
{
    count_blanks(line) + marker.len()
}
