//! Which tokens are a file.

ghost use Rattle.std.specs.Prelude.{◌≡◌, ◌<◌, length};
ghost use Rattle.hcl_source.specs.Places.{place};
ghost use Rattle.hcl_grammar.specs.Verdict.{start_of, fault_at, verdict};
ghost use Rattle.hcl_syntax.specs.Inner.Parsing.{Names};

use crate::cursor::Cursor;
use hcl_grammar::{Accepted, Refusal};
use hcl_tokens::{Fault, FaultKind, Position, Tokens};

/// The offset of the token of this number.
fn position_of(tokens: &Tokens, number: usize) -> Position
    requires { number < length tokens.now.tokens }
    ensures { result ≡ place tokens.now.text (start_of tokens.now.tokens number) }
{
    let token = tokens.get(number);
    tokens.source().position(token.start)
}

/// The end of the text.
fn end_position(tokens: &Tokens) -> Position
    ensures { result ≡ place tokens.now.text (length tokens.now.text) }
{
    let source = tokens.source();
    source.position(source.text().len())
}

/// The fault for a refusal of the tokens.
fn fault_at(tokens: &Tokens, refusal: Refusal) -> Fault
    requires { Names refusal (length tokens.now.tokens) }
    ensures { result ≡ fault_at tokens.now refusal }
{
    match refusal {
        Refusal::UnexpectedToken(number) => Fault {
            kind: FaultKind::UnexpectedToken,
            at: position_of(tokens, number as usize),
        },
        Refusal::UnexpectedEnd => Fault {
            kind: FaultKind::UnexpectedEnd,
            at: end_position(tokens),
        },
        Refusal::TooDeep(number) => Fault {
            kind: FaultKind::TooDeep,
            at: position_of(tokens, number as usize),
        },
    }
}

/// The tokens, if they are a file, and otherwise the one fault of the grammar: `UnexpectedToken` at the first token
/// that the grammar has no place for, `UnexpectedEnd` at the end of the text, or `TooDeep` at the `%{` of the first
/// directive beyond the limit of open ones. It allocates nothing, and takes time linear in the tokens.
#[inline(never)]
pub fn accepts<'t, 's>(tokens: &'t Tokens<'s>) -> Result<Accepted<'t, 's>, Fault>
    ensures { result ≡ verdict tokens.now }
{
    let mut cursor = Cursor::new(tokens);
    match cursor.file() {
        Ok(()) => Ok(Accepted::new(tokens)),
        Err(_) => Err(fault_at(tokens, cursor.refusal())),
    }
}
