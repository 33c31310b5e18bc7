//! Lines of a text in turn.

ghost use Rattle.std.specs.Prelude.{◌≡◌, ◌==◌, ◌<◌, ◌≤◌, ◌*◌, length, chars, IfSome, MatchOption};
ghost use Rattle.std.specs.List.{after_first, before_first, position_or_len};
ghost use Rattle.source_snippet.specs.Snippets.{longest_line};

/// The most characters of a line that is shown.
const LONGEST_LINE: usize = 240;

/// The most bytes of a shown line.
pub(crate) const MOST_BYTES: usize = 4 * LONGEST_LINE;

/// The text after the first line.
pub fn after_line(text: &str) -> &str
    ensures { result.now ≡ after_first (λ b. b == 10) text.now }
{
    match text.split_once('\n') {
        Some((_, after)) => after,
        None => "",
    }
}

/// The end of the first line of a text, unless it has too many bytes. It reads no more than these.
fn near_line_end(bytes: &[u8]) -> Option<usize>
    ensures end { MatchOption result (MOST_BYTES < position_or_len (λ b. b == 10) bytes.now)
        (λ end. end ≡ position_or_len (λ b. b == 10) bytes.now) }
    ensures few { IfSome result (λ end. end ≤ MOST_BYTES) }
{
    let mut end = 0;
    while end < bytes.len() && bytes[end] != b'\n' {
        if end == MOST_BYTES {
            return None;
        }
        end += 1;
    }
    Some(end)
}

/// How many characters a text has.
fn char_count(text: &str) -> usize
    ensures { result ≡ length (chars text.now) }
{
    text.chars().count()
}

/// The first line of a text, unless it has too many characters.
pub fn short_line(text: &str) -> Option<&str>
    ensures line { MatchOption result
        (longest_line < length (chars (before_first (λ b. b == 10) text.now)))
        (λ line. (line.now ≡ before_first (λ b. b == 10) text.now)
        × (length (chars line.now) ≤ longest_line)) }
    ensures few { IfSome result (λ line. length line.now ≤ MOST_BYTES) }
{
    let Some(end) = near_line_end(text.as_bytes()) else {
        return None;
    };
    let line = &text[..end];
    if char_count(line) > LONGEST_LINE {
        return None;
    }
    Some(line)
}
