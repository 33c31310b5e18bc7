//! Numbers as values of options.

ghost use Rattle.std.specs.Prelude.{◌≡◌, ◌==◌, false, slice_get};
ghost use Rattle.std.specs.Char.{is_ascii_digit};
ghost use Rattle.std.specs.List.{list_all};
ghost use Rattle.std.specs.Option.{option_map_or};
ghost use Rattle.tree_words.specs.Line.{is_number, number_in};

/// The most digits of a number.
const MOST_DIGITS: usize = 5;

fn begins_with_zero(digits: &[u8]) -> bool
    ensures { result ≡ option_map_or (λ b. b == 48) (slice_get digits.now 0) false }
{
    match digits.first() {
        Some(digit) => *digit == b'0',
        None => false,
    }
}

fn are_digits(digits: &[u8]) -> bool
    ensures { result ≡ list_all is_ascii_digit digits.now }
{
    digits.iter().all(|b| b.is_ascii_digit())
}

/// Whether a text is a number without leading zeros.
fn is_number(text: &str) -> bool
    ensures { result ≡ is_number text.now }
{
    let digits = text.as_bytes();
    !digits.is_empty()
        && digits.len() <= MOST_DIGITS
        && !begins_with_zero(digits)
        && are_digits(digits)
}

/// The number in a text, if it is one.
pub fn number_in(text: &str) -> Option<u32>
    ensures { result ≡ number_in text.now }
{
    if !is_number(text) {
        return None;
    }
    text.parse().ok()
}
