//! What the grammar's symbols expect.

/// Whether a Newline is seen, or passed over.
#[derive(Clone, Copy)]
pub enum Newlines {
    Seen,
    Dropped,
}

/// A token that a state can expect.
#[derive(Clone, Copy)]
pub enum Terminal {
    Name,
    InWord,
    IfWord,
    ForWord,
    Equals,
    Separator,
    FatArrow,
    CommaSign,
    Ellipses,
    Asterisk,
    EndParen,
    EndBracket,
    EndBrace,
    EndSequence,
    EndQuote,
    EndHeredoc,
}

/// The section of a directive that a template is in.
#[derive(Clone, Copy)]
pub enum Section {
    InIf,
    InElse,
    InFor,
}
