//! Texts of a file, with the offsets between which they are spelled.

ghost use Rattle.std.specs.Prelude.{◌≡◌, ◌==◌, ◌<◌, ◌^◌, length, if◌then◌else◌};
ghost use Rattle.hcl_grammar.specs.Verdict.{start_of};
ghost use Rattle.tf_names.specs.Inner.Found.{stretch_seen};
ghost use Rattle.tf_names.specs.Names.{label_stretch, stop_of, stretch_at, word_stretch};

use hcl_syntax::{Accepted, Label, label_text};
use tf_facts::word_at;

/// A text of a file, and the offsets between which it is spelled.
#[derive(Clone, Copy)]
pub struct Stretch<'s> {
    pub text: &'s str,
    pub start: usize,
    pub end: usize,
}

/// The text that is spelled from an offset on.
fn stretch_at<'s>(text: &'s str, start: usize) -> Stretch<'s>
    requires { start < 2 ^ 32 }
    ensures { stretch_seen result ≡ stretch_at text.now start }
{
    Stretch {
        text,
        start,
        end: start + text.len(),
    }
}

/// The offset at which a token begins.
pub fn start_of(accepted: &Accepted<'_, '_>, number: usize) -> usize
    requires { number < length accepted.now.tokens }
    ensures start { result ≡ start_of accepted.now.tokens number }
    ensures small { result < 2 ^ 32 }
{
    let tokens = accepted.tokens();
    let token = tokens.get(number);
    // Its contract says that the text is short.
    let _text = tokens.source().text();
    token.start
}

/// The offset at which a token ends.
fn stop_of(accepted: &Accepted<'_, '_>, number: usize) -> usize
    requires { number < length accepted.now.tokens }
    ensures stop { result ≡ stop_of accepted.now.tokens number }
    ensures small { result < 2 ^ 32 }
{
    let tokens = accepted.tokens();
    let token = tokens.get(number);
    // Its contract says that the text is short.
    let _text = tokens.source().text();
    token.start + token.text.len()
}

/// The token of this number.
pub fn word_stretch<'s>(accepted: &Accepted<'_, 's>, number: usize) -> Stretch<'s>
    requires { number < length accepted.now.tokens }
    ensures { stretch_seen result ≡ word_stretch accepted.now.tokens number }
{
    stretch_at(word_at(accepted, number), start_of(accepted, number))
}

/// The offset at which the text of a label begins: after the quote, if it has more than one token.
fn label_start(accepted: &Accepted<'_, '_>, label: Label) -> usize
    requires { label.first < length accepted.now.tokens }
    ensures start { result ≡ (if label.first == label.last
        then start_of accepted.now.tokens label.first
        else stop_of accepted.now.tokens label.first) }
    ensures small { result < 2 ^ 32 }
{
    if label.first == label.last {
        return start_of(accepted, label.first);
    }
    stop_of(accepted, label.first)
}

/// The text of a label.
pub fn label_stretch<'s>(accepted: &Accepted<'_, 's>, label: Label) -> Stretch<'s>
    requires { label.first < length accepted.now.tokens }
    ensures { stretch_seen result ≡ label_stretch accepted.now.tokens label }
{
    let start = label_start(accepted, label);
    stretch_at(label_text(accepted, &label), start)
}
