//! The lookahead of a token.

ghost use Rattle.std.specs.Prelude.{◌≡◌, ◌<◌, ◌+◌, ◌∷◌, length, drop, if◌then◌else◌};
ghost use Rattle.std.specs.Char.{is_ascii_digit};
ghost use Rattle.std.specs.List.{list_all};
ghost use Rattle.hcl_grammar.specs.Classes.{word_of, class_at, lookaheads_from};
ghost use Rattle.hcl_grammar.specs.Classes.{is_trivia};

use hcl_grammar::{Class, Lookahead, Word};
use hcl_tokens::{Kind, Tokens};

fn word_of(text: &str) -> Word
    ensures { result ≡ word_of text.now }
{
    match text {
        "for" => Word::For,
        "in" => Word::In,
        "if" => Word::If,
        "else" => Word::Else,
        "endif" => Word::Endif,
        "endfor" => Word::Endfor,
        _ => Word::Plain,
    }
}

fn is_digits(text: &str) -> bool
    ensures { result ≡ list_all is_ascii_digit text.now }
{
    text.as_bytes().iter().all(|b| b.is_ascii_digit())
}

/// All other kinds are only between two operands; the definition names them kind by kind.
#[inline(always)]
fn class_at(kind: Kind, text: &str) -> Class
    ensures { result ≡ class_at kind text.now }
{
    match kind {
        Kind::Newline => Class::Newline,
        Kind::LineComment | Kind::InlineComment | Kind::Blank => Class::Trivia,
        Kind::Ident => Class::Ident(word_of(text)),
        Kind::Number => Class::Number(is_digits(text)),
        Kind::HeredocOpen => Class::HeredocOpen,
        Kind::QuoteOpen => Class::QuoteOpen,
        Kind::ParenOpen => Class::ParenOpen,
        Kind::BracketOpen => Class::BracketOpen,
        Kind::BraceOpen => Class::BraceOpen,
        Kind::ParenClose => Class::ParenClose,
        Kind::BracketClose => Class::BracketClose,
        Kind::SeqClose => Class::SeqClose,
        Kind::BraceClose => Class::BraceClose,
        Kind::Dot => Class::Dot,
        Kind::Comma => Class::Comma,
        Kind::Ellipsis => Class::Ellipsis,
        Kind::Question => Class::Question,
        Kind::Colon => Class::Colon,
        Kind::ColonColon => Class::ColonColon,
        Kind::Assign => Class::Assign,
        Kind::Arrow => Class::Arrow,
        Kind::Not => Class::Not,
        Kind::Minus => Class::Minus,
        Kind::Star => Class::Star,
        Kind::Lit => Class::Lit,
        Kind::InterpOpen => Class::InterpOpen,
        Kind::ControlOpen => Class::ControlOpen,
        Kind::QuoteClose => Class::QuoteClose,
        Kind::HeredocClose => Class::HeredocClose,
        _ => Class::Binary,
    }
}

/// The number of a token in 32 bits: a source has fewer bytes than these count.
#[inline(always)]
fn narrow(tokens: &Tokens, number: usize) -> u32
    requires { number < length tokens.now.tokens }
    ensures { result ≡ number }
{
    let _count = tokens.len();
    let _text = tokens.source().text();
    number as u32
}

/// The lookahead of the token of this number.
#[inline(always)]
pub fn lookahead_at(tokens: &Tokens, number: usize) -> Lookahead
    requires { number < length tokens.now.tokens }
    ensures { lookaheads_from number (drop number tokens.now.tokens)
        ≡ (if is_trivia result.class then lookaheads_from (number + 1)
        (drop (number + 1) tokens.now.tokens)
        else result ∷ lookaheads_from (number + 1) (drop (number + 1) tokens.now.tokens)) }
{
    let token = tokens.get(number);
    Lookahead {
        class: class_at(token.kind, token.text),
        number: narrow(tokens, number),
    }
}
