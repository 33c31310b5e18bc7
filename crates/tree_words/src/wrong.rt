//! The word that makes a line wrong, and the message for the line.

ghost use Rattle.std.specs.Prelude.{◌≡◌, ◌||◌, ◌++◌, ◌==◌, IfOk, OnOk, false, find, map, option_map, slice_get};
ghost use Rattle.std.specs.List.{before_first, list_any, position_or_len};
ghost use Rattle.std.specs.Option.{option_map_or};
ghost use Rattle.std.specs.Str.{bytes_eq};
ghost use Rattle.clap.specs.Lexer.{strip_byte};
ghost use Rattle.tree_words.specs.WrongWords.{about_word, bad_line_words, foreign_hint, hint_of, is_end, is_foreign, is_letter, is_name, is_wrong, unless_end, wrong_word};
ghost use Rattle.tree_words.specs.Vocabularies.{foreign_of, vocabulary_of};

use crate::vocabulary::{Foreign, Vocabulary};
use crate::words::after_first;
use file_tree::quote::quote_name;
use std::alloc::{AllocError, Global};

fn is_one_of(names: &[&str], text: &[u8]) -> bool
    ensures { result ≡ list_any (λ name. bytes_eq name.now text.now) names.now }
{
    names.iter().any(|name| name.as_bytes() == text)
}

/// Whether an option has this name.
fn is_name(of: &Vocabulary, text: &[u8]) -> bool
    ensures { result ≡ is_name (vocabulary_of of.now) text.now }
{
    is_one_of(of.names, text)
}

/// Whether an option has this letter.
fn is_letter(of: &Vocabulary, byte: u8) -> bool
    ensures { result ≡ is_letter (vocabulary_of of.now) byte }
{
    of.letters.iter().any(|letter| *letter == byte)
}

/// Whether an option has the letter at the front of these.
fn has_letter(of: &Vocabulary, letters: &[u8]) -> bool
    ensures { result
        ≡ option_map_or (is_letter (vocabulary_of of.now)) (slice_get letters.now 0) false }
{
    match letters.first() {
        Some(first) => is_letter(of, *first),
        None => false,
    }
}

/// How many bytes stand before the first `=`.
fn name_length(option: &[u8]) -> usize
    ensures { result ≡ position_or_len (λ b. b == 61) option.now }
{
    option.iter().take_while(|b| **b != b'=').count()
}

/// The text before the first `=`.
fn before_value(option: &[u8]) -> &[u8]
    ensures { result.now ≡ before_first (λ b. b == 61) option.now }
{
    &option[..name_length(option)]
}

/// The text after a dash, if the text begins with one.
fn after_dash(text: &[u8]) -> Option<&[u8]>
    ensures { option_map (λ rest. rest.now) result ≡ strip_byte 45 text.now }
{
    match text.split_first() {
        Some((first, rest)) if *first == b'-' => Some(rest),
        _ => None,
    }
}

/// Whether a word is meant as an option, and there is no such option.
fn is_wrong(of: &Vocabulary, word: &[u8]) -> bool
    ensures { result ≡ is_wrong (vocabulary_of of.now) word.now }
{
    let Some(letters) = after_dash(word) else {
        return false;
    };
    match after_dash(letters) {
        Some(option) => !option.is_empty() && !is_name(of, before_value(option)),
        None => !letters.is_empty() && !has_letter(of, letters),
    }
}

fn is_end(word: &str) -> bool
    ensures { result ≡ is_end word.now }
{
    word == "--"
}

fn is_end_or_wrong(of: &Vocabulary, word: &str) -> bool
    ensures { result ≡ (is_end word.now || is_wrong (vocabulary_of of.now) word.now) }
{
    is_end(word) || is_wrong(of, word.as_bytes())
}

/// The first word that ends the options or is wrong.
fn first_of<'a>(of: &Vocabulary, words: &[&'a str]) -> Option<&'a str>
    ensures { result
        ≡ find (λ word. is_end word.now || is_wrong (vocabulary_of of.now) word.now) words.now }
{
    words.iter().copied().find(|word| is_end_or_wrong(of, word))
}

/// The word if it doesn't end the options.
fn unless_end(word: &str) -> Option<&str>
    ensures { option_map (λ word. word.now) result ≡ unless_end word.now }
{
    if is_end(word) { None } else { Some(word) }
}

/// The wrong word of a line, whose first word is the program's name.
fn wrong_word<'a>(of: &Vocabulary, words: &[&'a str]) -> Option<&'a str>
    ensures { option_map (λ word. word.now) result
        ≡ wrong_word (vocabulary_of of.now) (map (λ word. word.now) words.now) }
{
    match first_of(of, after_first(words)) {
        Some(word) => unless_end(word),
        None => None,
    }
}

/// Whether a word is this option of another program, with a value or without.
fn is_foreign(word: &str, foreign: &Foreign) -> bool
    ensures { result ≡ is_foreign word.now (foreign_of foreign.now) }
{
    let option = foreign.option.as_bytes();
    option == word.as_bytes() || option == before_value(word.as_bytes())
}

/// The option of another program that a word is, if it is one.
fn foreign_in<'a>(foreign: &'a [Foreign], word: &str) -> Option<&'a Foreign>
    ensures { option_map (λ one. one.now) result
        ≡ find (λ one. is_foreign word.now (foreign_of one)) foreign.entry.now }
{
    foreign.iter().find(|one| is_foreign(word, one))
}

/// What to write instead of an option of another program.
fn foreign_hint(of: &Vocabulary, word: &str) -> &'static str
    ensures { result.now ≡ foreign_hint (vocabulary_of of.now) word.now }
{
    match foreign_in(of.foreign, word) {
        Some(foreign) => foreign.hint,
        None => "",
    }
}

/// Adds what to write instead of a word.
fn push_hint(to: &mut Vec<u8>, of: &Vocabulary, word: &str) -> Result<(), AllocError>
    ensures { OnOk result
        (to.new.items ≡ to.old.items ++ hint_of (vocabulary_of of.now) word.now) }
{
    if is_name(of, after_first(word.as_bytes())) {
        to.extend_from_slice(b"; write -")?;
        return to.extend_from_slice(word.as_bytes());
    }
    to.extend_from_slice(foreign_hint(of, word).as_bytes())
}

/// The message for a line with this wrong word.
fn about_word(alloc: Global, of: &Vocabulary, word: &str) -> Result<Vec<u8>, AllocError>
    ensures { IfOk result (λ text. text.items ≡ about_word (vocabulary_of of.now) word.now) }
{
    let shown = quote_name(alloc, word.as_bytes())?;
    let mut text = Vec::new(alloc);
    text.extend_from_slice(of.error.as_bytes())?;
    text.extend_from_slice(shown.as_slice())?;
    push_hint(&mut text, of, word)?;
    text.extend_from_slice(b"\n")?;
    text.extend_from_slice(of.usage.as_bytes())?;
    Ok(text)
}

/// The message for a wrong line; the first word is the program's name.
pub fn bad_line_text(alloc: Global, of: &Vocabulary, words: &[&str]) -> Result<Vec<u8>, AllocError>
    ensures { IfOk result (λ text. text.items
        ≡ bad_line_words (vocabulary_of of.now) (map (λ word. word.now) words.now)) }
{
    match wrong_word(of, words) {
        Some(word) => about_word(alloc, of, word),
        None => Vec::from_slice(alloc, of.usage.as_bytes()),
    }
}
