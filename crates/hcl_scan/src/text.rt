//! The front of a text: a byte, a line, a newline, blanks.

ghost use Rattle.std.specs.Prelude.{◌≡◌, ◌==◌, ◌≤◌, ◌+◌, length, get_or, slice_range, IfSome, IfNone};
ghost use Rattle.std.specs.List.{prefix_len, position_or_len};
ghost use Rattle.hcl_tokens.specs.Spelling.{is_blank, IsNewline, IsBlanks};
ghost use Rattle.hcl_scan.specs.Inner.Found.{IsLongestFront, HasNoFront};
ghost use Rattle.hcl_tokens.specs.Scans.{skip_blanks};

use crate::lanes::{LANES, line_run};

/// How many bytes of a long run one step reads. The end of the text is tested once per step, which halves the
/// instructions of a test for each byte:
///
/// ```text
/// compute_instance.service_1 = 2
/// |------||------||------|xx
/// ```
///
/// Three blocks pass, the fourth stops after two bytes. The bytes after the last whole block are read one by one.
pub(crate) const BLOCK: usize = 8;

/// The byte at the index, or 0 after the end.
pub(crate) fn byte_at(text: &[u8], index: usize) -> u8
    ensures { result ≡ get_or text.now index 0 }
{
    if index < text.len() { text[index] } else { 0 }
}

/// How many bytes the newline at the front has.
pub(crate) fn newline_len(seen: &[u8]) -> Option<usize>
    ensures found { IfSome result (IsLongestFront IsNewline seen.now) }
    ensures none { IfNone result (HasNoFront IsNewline seen.now) }
{
    if seen.starts_with(b"\n") {
        return Some(1);
    }
    if seen.starts_with(b"\r\n") {
        Some(2)
    } else {
        None
    }
}

/// How many bytes are before the first LF, or before the end, counted one by one.
#[inline(always)]
fn few_before_lf(seen: &[u8]) -> usize
    ensures count { result ≡ position_or_len (λ b. b == 10) seen.now }
    ensures within { result ≤ length seen.now }
{
    seen.iter().take_while(|b| **b != b'\n').count()
}

/// How many bytes are before the first LF, or before the end, counted many at a time.
pub(crate) fn line_len(seen: &[u8]) -> usize
    ensures count { result ≡ position_or_len (λ b. b == 10) seen.now }
    ensures within { result ≤ length seen.now }
{
    let mut len = 0;
    while LANES <= seen.len() - len {
        let more = line_run(&seen[len..len + LANES]);
        if more < LANES {
            return len + more;
        }
        len += LANES;
    }
    let (_, rest) = seen.split_at(len);
    len + few_before_lf(rest)
}

pub(crate) fn is_blank(b: u8) -> bool
    ensures { result ≡ is_blank b }
{
    b == b' ' || b == b'\t'
}

/// The end of the blanks that begin at `at`. Offsets into the whole text take half the instructions of a part and its
/// count.
pub(crate) fn past_blanks(text: &[u8], at: usize, end: usize) -> usize
    requires order { at ≤ end }
    requires within { end ≤ length text.now }
    ensures { result ≡ at + prefix_len is_blank (slice_range text.now at end) }
{
    let mut here = at;
    while here < end {
        if !is_blank(text[here]) {
            return here;
        }
        here += 1;
    }
    here
}

/// How many spaces and tabs are at the front.
pub fn count_blanks(seen: &[u8]) -> usize
    ensures count { result ≡ prefix_len is_blank seen.now }
    ensures within { result ≤ length seen.now }
{
    seen.iter()
        .take_while(|b| **b == b' ' || **b == b'\t')
        .count()
}

/// The text after the blanks at the front.
pub fn skip_blanks(text: &[u8]) -> &[u8]
    ensures { result.now ≡ skip_blanks text.now }
{
    let (_, after) = text.split_at(count_blanks(text));
    after
}

/// How many bytes the blanks at the front have, if there are any.
pub(crate) fn blanks_len(seen: &[u8]) -> Option<usize>
    ensures found { IfSome result (IsLongestFront IsBlanks seen.now) }
    ensures none { IfNone result (HasNoFront IsBlanks seen.now) }
{
    let count = count_blanks(seen);
    if count == 0 { None } else { Some(count) }
}
