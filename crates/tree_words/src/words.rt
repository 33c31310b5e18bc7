//! The words of a line: those that are texts, and those that aren't UTF-8.

ghost use Rattle.std.specs.Prelude.{◌≡◌, ◌++◌, ◌∷◌, [], IfOk, OnOk, drop, filter, map, not};
ghost use Rattle.std.specs.Str.{is_utf8};
ghost use Rattle.tree_words.specs.Line.{others_in, texts_in};

use std::alloc::{AllocError, Global};

/// The words of a line.
#[derive(Debug, Drop)]
pub struct Words<'a> {
    /// The words that are texts, the program's name first.
    pub texts: Vec<&'a str>,
    /// The words that aren't UTF-8.
    pub others: Vec<&'a [u8]>,
}

/// The words of a line, as slices.
#[derive(Clone, Copy)]
pub struct CommandLine<'w> {
    /// The words that are texts, the program's name first.
    pub texts: &'w [&'w str],
    /// The words that aren't UTF-8.
    pub others: &'w [&'w [u8]],
}

impl<'a> Words<'a> {
    /// Takes one more word.
    fn take(&mut self, word: &'a [u8]) -> Result<(), AllocError>
        ensures texts { OnOk result
            (map (λ text. text.now) self.new.texts.items
            ≡ map (λ text. text.now) self.old.texts.items ++ filter is_utf8 (word.now ∷ [])) }
        ensures others { OnOk result
            (map (λ word. word.now) self.new.others.items
            ≡ map (λ word. word.now) self.old.others.items
            ++ filter (λ word. not (is_utf8 word)) (word.now ∷ [])) }
    {
        match std::str::from_utf8(word) {
            Ok(text) => match self.texts.push(text) {
                Ok(()) => Ok(()),
                Err(_) => Err(AllocError),
            },
            Err(_) => match self.others.push(word) {
                Ok(()) => Ok(()),
                Err(_) => Err(AllocError),
            },
        }
    }
}

/// All words except the first.
pub(crate) fn after_first<T>(words: &[T]) -> &[T]
    ensures { result.now ≡ drop 1 words.now }
{
    match words.split_first() {
        Some((_, rest)) => rest,
        None => words,
    }
}

/// The words of a line of bytes, whose first word is the program's name, whatever name it is called by.
pub fn words_of<'a>(
    alloc: Global,
    program: &'a str,
    words: &[&'a [u8]],
) -> Result<Words<'a>, AllocError>
    ensures texts { IfOk result (λ of. map (λ text. text.now) of.texts.items
        ≡ texts_in program.entry.now (map (λ word. word.now) words.now)) }
    ensures others { IfOk result
        (λ of. map (λ word. word.now) of.others.items
        ≡ others_in (map (λ word. word.now) words.now)) }
{
    let mut of = Words {
        texts: Vec::new(alloc),
        others: Vec::new(alloc),
    };
    if of.texts.push(program).is_err() {
        return Err(AllocError);
    }
    let rest = after_first(words);
    for word in rest {
        of.take(word)?;
    }
    Ok(of)
}
