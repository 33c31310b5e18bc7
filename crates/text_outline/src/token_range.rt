//! The places of tokens.

ghost use Rattle.std.specs.Prelude.{◌≡◌, ◌≤◌, ◌<◌, length};
ghost use Rattle.hcl_grammar.specs.Labels.{text_of};
ghost use Rattle.hcl_grammar.specs.Numbered.{number_tokens};
ghost use Rattle.hcl_grammar.specs.Verdict.{start_of};
ghost use Rattle.text_outline.specs.Folds.{line_of_token};
ghost use Rattle.text_outline.specs.Symbols.{range_between, stop_of};

use hcl_syntax::Accepted;
use text_places::{PlaceIndex, Range, Units};

/// The text of a token.
pub fn word_at<'s>(accepted: &Accepted<'_, 's>, number: usize) -> &'s str
    requires { number < length accepted.now.tokens }
    ensures { result.now ≡ text_of (number_tokens accepted.now.tokens) number }
{
    let tokens = accepted.tokens();
    let token = tokens.get(number);
    token.text
}

/// The offset at which a token begins.
fn start_of(accepted: &Accepted<'_, '_>, number: usize) -> usize
    requires { number < length accepted.now.tokens }
    ensures start { result ≡ start_of accepted.now.tokens number }
    ensures within { result ≤ length accepted.now.text }
{
    let tokens = accepted.tokens();
    let token = tokens.get(number);
    token.start
}

/// The offset at which a token ends.
fn stop_of(accepted: &Accepted<'_, '_>, number: usize) -> usize
    requires { number < length accepted.now.tokens }
    ensures stop { result ≡ stop_of accepted.now.tokens number }
    ensures within { result ≤ length accepted.now.text }
{
    let tokens = accepted.tokens();
    let token = tokens.get(number);
    // Its contract says that the text is short, so the sum fits.
    let _text = tokens.source().text();
    token.start + token.text.len()
}

/// The range from the front of one token to the end of another.
pub fn range_between(
    accepted: &Accepted<'_, '_>,
    places: &PlaceIndex<'_>,
    first: usize,
    last: usize,
) -> Range
    requires text { places.now.text ≡ accepted.now.text }
    requires first { first < length accepted.now.tokens }
    requires last { last < length accepted.now.tokens }
    ensures { result ≡ range_between places.now.units accepted.now first last }
{
    Range {
        start: places.place(start_of(accepted, first)),
        end: places.place(stop_of(accepted, last)),
    }
}

/// The line on which a token begins, from 0.
pub fn line_of_token(accepted: &Accepted<'_, '_>, places: &PlaceIndex<'_>, number: usize) -> usize
    requires units { places.now.units ≡ Units.Bytes }
    requires text { places.now.text ≡ accepted.now.text }
    requires number { number < length accepted.now.tokens }
    ensures { result ≡ line_of_token accepted.now number }
{
    places.place(start_of(accepted, number)).line
}
