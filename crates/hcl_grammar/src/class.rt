//! A token as the grammar sees it.

/// What an identifier can mean to the grammar: a keyword, or a plain name.
#[derive(Clone, Copy)]
pub enum Word {
    Plain,
    For,
    In,
    If,
    Else,
    Endif,
    Endfor,
}

/// The classes of tokens that the grammar distinguishes: a number with digits alone from other numbers; operators that
/// are always binary are one class.
#[derive(Clone, Copy)]
pub enum Class {
    Trivia,
    Newline,
    Ident(Word),
    Number(bool),
    HeredocOpen,
    HeredocClose,
    QuoteOpen,
    QuoteClose,
    Lit,
    InterpOpen,
    ControlOpen,
    SeqClose,
    ParenOpen,
    ParenClose,
    BracketOpen,
    BracketClose,
    BraceOpen,
    BraceClose,
    Dot,
    Comma,
    Ellipsis,
    Question,
    Colon,
    ColonColon,
    Assign,
    Arrow,
    Not,
    Minus,
    Star,
    Binary,
}

/// A token's class, and its number, counted from 0.
#[derive(Clone, Copy)]
pub struct Lookahead {
    pub class: Class,
    pub number: u32,
}
