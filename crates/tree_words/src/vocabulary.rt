//! The texts with which a program finds and explains a wrong word of its line.

/// An option of another program, and what to write here instead.
#[derive(Clone, Copy)]
pub struct Foreign {
    /// The option with its dashes, and with its value if only that value is meant.
    pub option: &'static str,
    /// The text after the word.
    pub hint: &'static str,
}

/// What a program needs to find a wrong word, and to explain it.
#[derive(Clone, Copy)]
pub struct Vocabulary {
    /// The options' names.
    pub names: &'static [&'static str],
    /// The options' letters.
    pub letters: &'static [u8],
    /// The text before a wrong word.
    pub error: &'static str,
    /// Options of other programs.
    pub foreign: &'static [Foreign],
    /// The usage.
    pub usage: &'static str,
}
