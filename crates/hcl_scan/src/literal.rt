//! Literal text of templates.

ghost use Rattle.std.specs.Prelude.{◌≡◌, ◌+◌, ◌≤◌, ◌||◌, ◌&&◌, ◌∷◌, codes, take, drop, length, None, IsTrue};
ghost use Rattle.std.specs.List.{list_all, prefix_len};
ghost use Rattle.std.specs.Char.{is_ascii_hexdigit};
ghost use Rattle.hcl_tokens.specs.Spelling.{escape_len, element_len, are_elements, ends_quoted, hex_digits_after, is_dollar_or_percent, starts};
ghost use Rattle.hcl_scan.specs.Inner.Found.{is_ordinary};

use crate::lanes::{LANES, ordinary_run};

fn are_hex(bytes: &[u8]) -> bool
    ensures { result ≡ list_all is_ascii_hexdigit bytes.now }
{
    bytes.iter().all(|b| b.is_ascii_hexdigit())
}

/// Whether there are this many hexadecimal digits at the front.
fn hex_digits(bytes: &[u8], count: usize) -> bool
    ensures { result ≡ hex_digits_after count bytes.now }
{
    if bytes.len() < count {
        return false;
    }
    let (digits, _) = bytes.split_at(count);
    are_hex(digits)
}

/// Whether there is an escape of a backslash and one character at the front.
fn is_short_escape(seen: &[u8]) -> bool
    ensures { result ≡ (starts seen.now (codes "\\n") || starts seen.now (codes "\\r")
        || starts seen.now (codes "\\t")
        || starts seen.now (codes "\\\"") || starts seen.now (codes "\\\\")) }
{
    seen.starts_with(b"\\n")
        || seen.starts_with(b"\\r")
        || seen.starts_with(b"\\t")
        || seen.starts_with(b"\\\"")
        || seen.starts_with(b"\\\\")
}

/// Whether there is an escape with this many hexadecimal digits at the front; `front` is its backslash and letter.
fn is_code_escape(seen: &[u8], front: &[u8], count: usize) -> bool
    requires { length front.now ≡ 2 }
    ensures { result ≡ (starts seen.now front.now && hex_digits_after count (drop 2 seen.now)) }
{
    if !seen.starts_with(front) {
        return false;
    }
    let (_, after) = seen.split_at(2);
    hex_digits(after, count)
}

/// How many bytes the escape at the front has.
fn escape_len(seen: &[u8]) -> Option<usize>
    ensures { result ≡ escape_len seen.now }
{
    if !seen.starts_with(b"\\") {
        return None;
    }
    if is_short_escape(seen) {
        Some(2)
    } else if is_code_escape(seen, b"\\u", 4) {
        Some(6)
    } else if is_code_escape(seen, b"\\U", 8) {
        Some(10)
    } else {
        None
    }
}

fn ends_quoted(b: u8, after: &[u8]) -> bool
    ensures { result ≡ ends_quoted b after.now }
{
    b == b'"' || b == b'\\' || b == b'\n' || (b == b'\r' && after.starts_with(b"\n"))
}

fn is_dollar_or_percent(b: u8) -> bool
    ensures { result ≡ is_dollar_or_percent b }
{
    b == b'$' || b == b'%'
}

/// Whether `$${` or `%%{` is at the front.
fn is_doubled_sign(seen: &[u8]) -> bool
    ensures { result ≡ (starts seen.now (codes "$${") || starts seen.now (codes "%%{")) }
{
    seen.starts_with(b"$${") || seen.starts_with(b"%%{")
}

/// The bytes that may not be an element of literal text by themselves, each at its own place, and points for all
/// others.
static SPECIAL: [u8; 256] = *b"\
    ..........\n..\r..................\
    ..\".$%..........................\
    ............................\\...\
    ................................\
    ................................\
    ................................\
    ................................\
    ................................";

/// Whether the byte is an element of literal text by itself, at any place. Letters are, so they are tested first.
fn is_ordinary(b: u8) -> bool
    ensures { result ≡ is_ordinary b }
{
    b > b'\\' || SPECIAL[b as usize] == b'.'
}

/// How many bytes at the front are each an element of literal text by itself, counted one by one.
#[inline(always)]
fn ordinary_few(seen: &[u8]) -> usize
    ensures count { result ≡ prefix_len is_ordinary seen.now }
    ensures within { result ≤ length seen.now }
{
    seen.iter().take_while(|b| is_ordinary(**b)).count()
}

/// How many bytes at the front are each an element of literal text by itself, counted many at a time.
#[inline(always)]
fn ordinary_len(seen: &[u8]) -> usize
    ensures count { result ≡ prefix_len is_ordinary seen.now }
    ensures within { result ≤ length seen.now }
{
    let mut len = 0;
    while LANES <= seen.len() - len {
        let more = ordinary_run(&seen[len..len + LANES]);
        if more < LANES {
            return len + more;
        }
        len += LANES;
    }
    let (_, rest) = seen.split_at(len);
    len + ordinary_few(rest)
}

/// The place of the next byte that isn't an element of literal text by itself, or the end. Often it is the current one.
/// This is a call, since the scan needs the registers.
#[inline(never)]
fn past_ordinary(seen: &[u8], from: usize) -> usize
    requires { from ≤ length seen.now }
    ensures place { result ≡ from + prefix_len is_ordinary (drop from seen.now) }
    ensures within { result ≤ length seen.now }
{
    if from < seen.len() && !is_ordinary(seen[from]) {
        return from;
    }
    let (_, rest) = seen.split_at(from);
    from + ordinary_len(rest)
}

/// How many bytes the element of literal text at the front has, which begins with `b` before `after`.
fn element_len(seen: &[u8], b: u8, after: &[u8], quoted: bool) -> Option<usize>
    requires { seen.now ≡ b ∷ after.now }
    ensures { result ≡ element_len quoted seen.now }
{
    if is_dollar_or_percent(b) {
        if is_doubled_sign(seen) {
            Some(3)
        } else if after.starts_with(b"{") {
            None
        } else {
            Some(1)
        }
    } else if quoted && ends_quoted(b, after) {
        escape_len(seen)
    } else {
        Some(1)
    }
}

/// How many bytes the literal text at the front has.
pub fn literal_len(seen: &[u8], quoted: bool) -> usize
    ensures within { result ≤ length seen.now }
    ensures elements { IsTrue (are_elements quoted 0 (take result seen.now)
        (drop result seen.now)) }
    ensures ends { element_len quoted (drop result seen.now) ≡ None }
{
    let mut len = past_ordinary(seen, 0);
    while len < seen.len() {
        let (_, rest) = seen.split_at(len);
        let (_, after) = seen.split_at(len + 1);
        match element_len(rest, seen[len], after, quoted) {
            Some(n) => len = past_ordinary(seen, len + n),
            None => return len,
        }
    }
    len
}
