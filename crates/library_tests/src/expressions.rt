//! The token at the front of an expression, and after a front that sets the context.

use crate::checks::same_text;
use crate::shown::{push_error, push_length};
use hcl_scan::{ScanError, Source, Tokens, scan};
use std::alloc::{AllocError, Global};
use std::process::Abort;
use std::test::Fail;

// After a dot, and in an expression of a heredoc.
const DOT: &str = "a.";

const HEREDOC: &str = "<<E\n${a";

/// A front, the text after it, and the token there.
static ROWS: [(&str, &str, &str); 61] = [
    // identifiers
    ("", "a.1e5", "Ident 1"),
    ("", "a-b_1 c", "Ident 5"),
    ("", "é", "Ident 2"),
    ("", "_é9-=", "Ident 5"),
    ("", "\u{b7}a", "InvalidCharacter at 1:1"),
    ("", "a\u{b7}\u{300}b.", "Ident 6"),
    ("", "日本 ", "Ident 6"),
    ("", "a→", "InvalidCharacter at 1:2"),
    ("", "→", "InvalidCharacter at 1:1"),
    // numbers
    (DOT, "1e5", "Number 1"),
    ("", "1e+", "Number 1"),
    ("", "1e+7e", "Number 4"),
    ("", "1.5.2", "Number 3"),
    (DOT, "1.5.2", "Number 1"),
    ("", "1 .5", "Number 1"),
    ("", "1.e5", "Number 1"),
    ("", "10.25E-03x", "Number 9"),
    ("", "5e3.1", "Number 3"),
    // comments
    ("", "/* x */ */", "InlineComment 7"),
    ("", "/*/ */", "InlineComment 6"),
    ("", "/**/", "InlineComment 4"),
    ("", "/*/", "UnterminatedComment at 1:1"),
    ("", "/* é", "UnterminatedComment at 1:1"),
    ("", "//x\r\n", "LineComment 4"),
    ("", "# é", "LineComment 4"),
    ("", "/ /", "Slash 1"),
    ("", "/", "Slash 1"),
    // heredocs
    ("", "<<E\nE", "HeredocOpen 4"),
    ("", "<<-E\r\nE", "HeredocOpen 6"),
    ("", "<< E\n", "Less 1"),
    ("", "<<E \n", "Less 1"),
    ("", "<<E\r", "InvalidCharacter at 1:4"),
    ("", "<<--E\n", "Less 1"),
    ("", "<<É-1\nÉ-1", "HeredocOpen 7"),
    ("", "<=", "LessEqual 2"),
    ("", "<", "Less 1"),
    // closers and space
    (HEREDOC, "~}\nE", "SeqClose 2"),
    ("", "~}", "InvalidCharacter at 1:1"),
    (HEREDOC, "~\nE", "InvalidCharacter at 2:4"),
    (HEREDOC, "}~\nE", "SeqClose 1"),
    ("", "}", "BraceClose 1"),
    (HEREDOC, " \t x}\nE", "Blank 3"),
    ("", " x", "nothing"),
    (" ", "x", "Ident 1"),
    ("", "\n\n", "Newline 1"),
    ("", "\r\n", "Newline 2"),
    ("", "\rx", "InvalidCharacter at 1:1"),
    ("", "", "nothing"),
    // punctuation
    ("", "&", "InvalidCharacter at 1:1"),
    ("", "&&", "And 2"),
    ("", "...", "Ellipsis 3"),
    ("", "..", "Dot 1"),
    ("", "::", "ColonColon 2"),
    ("", ": :", "Colon 1"),
    ("", "=>", "Arrow 2"),
    ("", "==", "Equal 2"),
    ("", "=", "Assign 1"),
    ("", "\"${a}\"", "QuoteOpen 1"),
    ("", "!=", "NotEqual 2"),
    ("", "$", "InvalidCharacter at 1:1"),
    ("", "'", "InvalidCharacter at 1:1"),
];

/// The kind and the length of the token that begins there.
fn push_found(line: &mut String, tokens: &Tokens<'_>, start: usize) -> Result<(), AllocError> {
    for i in 0..tokens.len() {
        let token = tokens.get(i);
        if token.start == start {
            return push_length(line, &token);
        }
    }
    line.push_str("nothing")
}

/// The token there, or the fault of the text.
fn push_answer(
    line: &mut String,
    answer: &Result<Tokens<'_>, ScanError>,
    start: usize,
) -> Result<(), AllocError> {
    match answer {
        Ok(tokens) => push_found(line, tokens, start),
        Err(error) => push_error(line, error),
    }
}

/// The token after the front.
fn token_after(alloc: Global, front: &str, source: &Source) -> Result<String, Fail> {
    let mut line = String::new(alloc);
    push_answer(&mut line, &scan(alloc, source), front.len())?;
    Ok(line)
}

/// A front and the text after it, as a source.
fn source_of(alloc: Global, front: &str, rest: &str) -> Result<Source, Fail> {
    let text = format!(in alloc; "{front}{rest}")?;
    Ok(Source::from_bytes(alloc, text.as_bytes())?)
}

/// Checks the token after each front.
fn finds(rt: &impl Abort, alloc: Global, rows: &[(&str, &str, &str)]) -> Result<(), Fail> {
    for (front, rest, wanted) in rows {
        let source = source_of(alloc, *front, *rest)?;
        let given = token_after(alloc, *front, &source)?;
        same_text(rt, given.as_str(), *wanted, source.text());
    }
    Ok(())
}

#[test]
fn found_at_the_front(rt: HostRuntime) -> Result<(), Fail> {
    finds(&rt, rt.alloc(), &ROWS)
}
