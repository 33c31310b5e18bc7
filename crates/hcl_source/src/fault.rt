//! Why a text is refused, and where.

ghost use Rattle.std.specs.Prelude.{◌≡◌};
ghost use Rattle.hcl_source.specs.FaultTexts.{fault_text};

use thiserror::Error;

/// A place in a text. Lines are ended by LF and begin at 1. The column is 1 plus the number of
/// extended grapheme clusters (UAX 29) between the start of the line and the place.
#[derive(Clone, Copy, Debug, PartialEq, Eq)]
pub struct Position {
    pub line: u32,
    pub column: u32,
}

/// Why a text is refused. Each kind has one place at which it is reported.
#[derive(Clone, Copy, Debug, PartialEq, Eq)]
pub enum FaultKind {
    /// More than `MAX_SOURCE` bytes, at 1:1.
    TooLarge,
    /// No UTF-8, at the first bad byte.
    InvalidUtf8,
    /// A byte order mark at the front, at 1:1.
    ByteOrderMark,
    /// A character that begins no token, at the character.
    InvalidCharacter,
    /// A quote without its end, at its opening quote.
    UnterminatedQuote,
    /// A comment without its end, at its `/*`.
    UnterminatedComment,
    /// A heredoc without its marker line, at its `<<`.
    UnterminatedHeredoc,
    /// An interpolation or a directive without its end, at its `${` or `%{`.
    UnterminatedTemplate,
    /// A backslash that begins no escape, at the backslash.
    InvalidEscape,
    /// An opener beyond the limit of open ones, at the opener.
    TooDeep,
    /// A token that the grammar has no place for, at the token.
    UnexpectedToken,
    /// The end of the text where the grammar expects more, at the end.
    UnexpectedEnd,
    /// A formatted text of more than `MAX_SOURCE` bytes, at 1:1.
    ResultTooLarge,
}

impl FaultKind {
    /// Its words in messages.
    pub fn text(self) -> &'static str
        ensures { result.now ≡ fault_text self }
    {
        match self {
            FaultKind::TooLarge => "source too large",
            FaultKind::InvalidUtf8 => "invalid UTF-8",
            FaultKind::ByteOrderMark => "byte order mark",
            FaultKind::InvalidCharacter => "invalid character",
            FaultKind::UnterminatedQuote => "unterminated quote",
            FaultKind::UnterminatedComment => "unterminated comment",
            FaultKind::UnterminatedHeredoc => "unterminated heredoc",
            FaultKind::UnterminatedTemplate => "unterminated template",
            FaultKind::InvalidEscape => "invalid escape",
            FaultKind::TooDeep => "too deep",
            FaultKind::UnexpectedToken => "unexpected token",
            FaultKind::UnexpectedEnd => "unexpected end",
            FaultKind::ResultTooLarge => "result too large",
        }
    }
}

/// Why a text is refused, and where.
#[derive(Clone, Copy, Debug, PartialEq, Eq)]
pub struct Fault {
    pub kind: FaultKind,
    pub at: Position,
}

/// Why bytes became no `Source`.
#[derive(Debug, Drop, Error)]
pub enum LoadError {
    /// The bytes are no source: `TooLarge`, `InvalidUtf8` or `ByteOrderMark`.
    #[error("the source is refused")]
    Fault(Fault),
    /// A read failed.
    #[error("a read failed")]
    ReadFailed,
    /// Memory ran out.
    #[error("out of memory")]
    OutOfMemory,
}
