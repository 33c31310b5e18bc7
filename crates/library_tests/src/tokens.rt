//! Texts, and their tokens or their fault. The expected values were worked out apart from this code.

use crate::checks::{holds, same_text};
use crate::shown::{push_error, push_places};
use hcl_scan::{ScanError, Source, Tokens, scan};
use std::alloc::{AllocError, Global};
use std::process::Abort;
use std::test::Fail;

/// Texts, and their tokens by kind and place, those inside heredocs with a `!`, or their fault.
static ROWS: [(&str, &str); 73] = [
    // literal text and escapes
    ("\"$$${a}\"", "QuoteOpen 0-1 Lit 1-7 QuoteClose 7-8"),
    ("\"$\"", "QuoteOpen 0-1 Lit 1-2 QuoteClose 2-3"),
    ("\"%\"", "QuoteOpen 0-1 Lit 1-2 QuoteClose 2-3"),
    ("\"$${\"", "QuoteOpen 0-1 Lit 1-4 QuoteClose 4-5"),
    ("\"$$$$\"", "QuoteOpen 0-1 Lit 1-5 QuoteClose 5-6"),
    ("\"%%%{a}%%{b\"", "QuoteOpen 0-1 Lit 1-11 QuoteClose 11-12"),
    ("\"a\r\"", "QuoteOpen 0-1 Lit 1-3 QuoteClose 3-4"),
    (
        "\"\\u1234\\U0001F600\\n\"",
        "QuoteOpen 0-1 Lit 1-19 QuoteClose 19-20",
    ),
    // sequences in a quote
    (
        "\"${\"${x}\"}\"",
        "QuoteOpen 0-1 InterpOpen 1-3 QuoteOpen 3-4 InterpOpen 4-6 Ident 6-7 SeqClose 7-8 QuoteClose 8-9 SeqClose 9-10 QuoteClose 10-11",
    ),
    (
        "\"${~x~}\"",
        "QuoteOpen 0-1 InterpOpen 1-4 Ident 4-5 SeqClose 5-7 QuoteClose 7-8",
    ),
    (
        "\"é${é}é\"",
        "QuoteOpen 0-1 Lit 1-3 InterpOpen 3-5 Ident 5-7 SeqClose 7-8 Lit 8-10 QuoteClose 10-11",
    ),
    (
        "\"${{}}\"",
        "QuoteOpen 0-1 InterpOpen 1-3 BraceOpen 3-4 BraceClose 4-5 SeqClose 5-6 QuoteClose 6-7",
    ),
    (
        "\"${{}~}\"",
        "QuoteOpen 0-1 InterpOpen 1-3 BraceOpen 3-4 BraceClose 4-5 SeqClose 5-7 QuoteClose 7-8",
    ),
    (
        "\"${(}\"",
        "QuoteOpen 0-1 InterpOpen 1-3 ParenOpen 3-4 SeqClose 4-5 QuoteClose 5-6",
    ),
    // heredocs: marker lines, blanks and nesting
    (
        "<<E\nx ${ a }\n E\t\n",
        "HeredocOpen 0-4 !Lit 4-6 !InterpOpen 6-8 !Blank 8-9 !Ident 9-10 !Blank 10-11 !SeqClose 11-12 !Lit 12-13 !HeredocClose 13-15 Newline 16-17",
    ),
    ("<<E\nx\nE", "HeredocOpen 0-4 !Lit 4-6 !HeredocClose 6-7"),
    (
        "<<E\nE\r\nx",
        "HeredocOpen 0-4 !HeredocClose 4-5 Newline 5-7 Ident 7-8",
    ),
    (
        "a = <<-X\n  ${<<Y\n  z\n Y \t\n}\n\tX\t q\n  X \n b",
        "Ident 0-1 Assign 2-3 HeredocOpen 4-9 !Lit 9-11 !InterpOpen 11-13 !HeredocOpen 13-17 !Lit 17-21 !HeredocClose 21-23 !Blank 23-25 !Newline 25-26 !SeqClose 26-27 !Lit 27-34 !HeredocClose 34-37 Newline 38-39 Ident 40-41",
    ),
    ("<<E\n${<<E\na\nE\n}\nE\n", "UnterminatedHeredoc at 2:3"),
    (
        "<<EE\nE\nEE \nEE",
        "HeredocOpen 0-5 !Lit 5-7 !HeredocClose 7-9 Newline 10-11 Ident 11-13",
    ),
    (
        "<<E\n$$\n\"\\\nE\n",
        "HeredocOpen 0-4 !Lit 4-10 !HeredocClose 10-11 Newline 11-12",
    ),
    (
        "<<E\n${a.1.5}${a. 1.5}\nE\n",
        "HeredocOpen 0-4 !InterpOpen 4-6 !Ident 6-7 !Dot 7-8 !Number 8-9 !Dot 9-10 !Number 10-11 !SeqClose 11-12 !InterpOpen 12-14 !Ident 14-15 !Dot 15-16 !Blank 16-17 !Number 17-20 !SeqClose 20-21 !Lit 21-22 !HeredocClose 22-23 Newline 23-24",
    ),
    (
        "<<E\n%{if x}a%{endif}$\nE\n",
        "HeredocOpen 0-4 !ControlOpen 4-6 !Ident 6-8 !Blank 8-9 !Ident 9-10 !SeqClose 10-11 !Lit 11-12 !ControlOpen 12-14 !Ident 14-19 !SeqClose 19-20 !Lit 20-22 !HeredocClose 22-23 Newline 23-24",
    ),
    ("<<é\né\n", "HeredocOpen 0-5 !HeredocClose 5-7 Newline 7-8"),
    // lines that have a heredoc's marker in them, and the one that is the marker
    (
        "<<M\nxMM M\nM\n",
        "HeredocOpen 0-4 !Lit 4-10 !HeredocClose 10-11 Newline 11-12",
    ),
    (
        "<<M\nM x\n\tM.\nM\n",
        "HeredocOpen 0-4 !Lit 4-12 !HeredocClose 12-13 Newline 13-14",
    ),
    (
        "<<M\nx M\n-M \n M\n",
        "HeredocOpen 0-4 !Lit 4-12 !HeredocClose 12-14 Newline 14-15",
    ),
    (
        "<<M\nM\rM\n\t M\t \nx",
        "HeredocOpen 0-4 !Lit 4-8 !HeredocClose 8-11 Newline 13-14 Ident 14-15",
    ),
    (
        "<<M\r\nMx\r\n M \r\n",
        "HeredocOpen 0-5 !Lit 5-9 !HeredocClose 9-11 Newline 12-14",
    ),
    (
        "<<MM\nM\nMMM\n M MM\n\tMM",
        "HeredocOpen 0-5 !Lit 5-17 !HeredocClose 17-20",
    ),
    ("<<M\nMx\nx M", "UnterminatedHeredoc at 1:1"),
    ("<<M\nx\nM\r", "UnterminatedHeredoc at 1:1"),
    // closers, and text that closes nothing
    ("}", "BraceClose 0-1"),
    (
        "a = [}",
        "Ident 0-1 Assign 2-3 BracketOpen 4-5 BraceClose 5-6",
    ),
    (
        "a = (] )",
        "Ident 0-1 Assign 2-3 ParenOpen 4-5 BracketClose 5-6 ParenClose 7-8",
    ),
    ("a}b", "Ident 0-1 BraceClose 1-2 Ident 2-3"),
    ("(})", "ParenOpen 0-1 BraceClose 1-2 ParenClose 2-3"),
    ("{[}", "BraceOpen 0-1 BracketOpen 1-2 BraceClose 2-3"),
    // the fault of a text, and its place
    ("\"${x\"", "UnterminatedQuote at 1:5"),
    ("\"b\n", "UnterminatedQuote at 1:1"),
    ("\"b", "UnterminatedQuote at 1:1"),
    ("\"\\u12\"", "InvalidEscape at 1:2"),
    ("\"\\u123\"", "InvalidEscape at 1:2"),
    ("\"\\U0001F60\"", "InvalidEscape at 1:2"),
    ("\"\t\\q\"", "InvalidEscape at 1:3"),
    ("\"a\r\n\"", "UnterminatedQuote at 1:1"),
    ("~}", "InvalidCharacter at 1:1"),
    ("a}b~}c", "InvalidCharacter at 1:4"),
    ("\"${/*}\"", "UnterminatedComment at 1:4"),
    ("<<E\nE\r", "UnterminatedHeredoc at 1:1"),
    ("<<E\n", "UnterminatedHeredoc at 1:1"),
    ("<<E\n${<<F\nE\nF\n", "UnterminatedHeredoc at 2:3"),
    ("<<E\n${\"\nE\n\"}\nE\n", "UnterminatedQuote at 2:3"),
    ("<<E\n${(\nE\n", "UnterminatedTemplate at 2:1"),
    ("\"${a", "UnterminatedTemplate at 1:2"),
    ("\"${\"b", "UnterminatedQuote at 1:4"),
    // comments, also at the end of the visible text, and numbers
    ("# x", "LineComment 0-3"),
    ("// x\r", "LineComment 0-5"),
    ("/**/", "InlineComment 0-4"),
    ("/* a */ */", "InlineComment 0-7 Star 8-9 Slash 9-10"),
    (
        "<<E\n${a # c\n}\nE",
        "HeredocOpen 0-4 !InterpOpen 4-6 !Ident 6-7 !Blank 7-8 !LineComment 8-11 !Newline 11-12 !SeqClose 12-13 !Lit 13-14 !HeredocClose 14-15",
    ),
    ("<<E\n${a # c\nE\n", "UnterminatedTemplate at 2:1"),
    ("<<E\n${a /* c\nE\n*/}\nE", "UnterminatedComment at 2:5"),
    ("<<E\n${a // c", "UnterminatedHeredoc at 1:1"),
    ("l.0.1", "Ident 0-1 Dot 1-2 Number 2-3 Dot 3-4 Number 4-5"),
    ("1 .5", "Number 0-1 Dot 2-3 Number 3-4"),
    ("1.5", "Number 0-3"),
    ("a.1e5", "Ident 0-1 Dot 1-2 Number 2-3 Ident 3-5"),
    ("1e+", "Number 0-1 Ident 1-2 Plus 2-3"),
    ("1.5.2", "Number 0-3 Dot 3-4 Number 4-5"),
    ("1e5.0", "Number 0-3 Dot 3-4 Number 4-5"),
    // some of each
    (
        " long-name=_x1\r\nb = 20",
        "Ident 1-10 Assign 10-11 Ident 11-14 Newline 14-16 Ident 16-17 Assign 18-19 Number 20-22",
    ),
    ("a=1\nb=^1\n", "InvalidCharacter at 2:3"),
];

/// The tokens by kind and place, or the fault of the text.
fn push_answer(
    line: &mut String,
    answer: &Result<Tokens<'_>, ScanError>,
) -> Result<(), AllocError> {
    match answer {
        Ok(tokens) => push_places(line, tokens),
        Err(error) => push_error(line, error),
    }
}

/// The tokens of a text by kind and place, those inside heredocs with a `!`, or its fault.
fn list_tokens(alloc: Global, text: &str) -> Result<String, Fail> {
    let source = Source::from_bytes(alloc, text.as_bytes())?;
    let mut line = String::new(alloc);
    push_answer(&mut line, &scan(alloc, &source))?;
    Ok(line)
}

fn push_times(text: &mut String, part: &str, count: usize) -> Result<(), AllocError> {
    for _ in 0..count {
        text.push_str(part)?;
    }
    Ok(())
}

/// `count` openers in turn, and then a text.
fn nest(alloc: Global, opener: &str, count: usize, rest: &str) -> Result<String, AllocError> {
    let mut text = String::new(alloc);
    push_times(&mut text, opener, count)?;
    text.push_str(rest)?;
    Ok(text)
}

/// Checks the tokens of a text, or its fault.
fn has(rt: &impl Abort, alloc: Global, text: &str, wanted: &str) -> Result<(), Fail> {
    let given = list_tokens(alloc, text)?;
    same_text(rt, given.as_str(), wanted, text);
    Ok(())
}

/// Checks the tokens of each text, or its fault.
fn all_have(rt: &impl Abort, alloc: Global, rows: &[(&str, &str)]) -> Result<(), Fail> {
    for (text, wanted) in rows {
        has(rt, alloc, *text, *wanted)?;
    }
    Ok(())
}

#[test]
fn tokens_and_faults(rt: HostRuntime) -> Result<(), Fail> {
    all_have(&rt, rt.alloc(), &ROWS)
}

/// The opener beyond 256 open ones, also if it has no marker line.
#[test]
fn too_deep(rt: HostRuntime) -> Result<(), Fail> {
    let rows = [
        ("(", 257, "", "TooDeep at 1:257"),
        ("(", 256, "\"", "TooDeep at 1:257"),
        ("(", 256, "<<E\n", "TooDeep at 1:257"),
        ("\"${", 128, "\"", "TooDeep at 1:385"),
        ("\"${", 128, "${", "InvalidCharacter at 1:385"),
    ];
    for (opener, count, rest, fault) in rows {
        let text = nest(rt.alloc(), opener, count, rest)?;
        has(&rt, rt.alloc(), text.as_str(), fault)?;
    }
    Ok(())
}

/// 256 may be open.
#[test]
fn as_deep_as_can_be(rt: HostRuntime) -> Result<(), Fail> {
    let rows = [
        (256, "x", "Ident 256-257"),
        (
            255,
            "<<E\nE\n",
            "HeredocOpen 255-259 !HeredocClose 259-260 Newline 260-261",
        ),
    ];
    for (count, rest, last) in rows {
        let text = nest(rt.alloc(), "(", count, rest)?;
        let line = list_tokens(rt.alloc(), text.as_str())?;
        holds(&rt, line.as_str().ends_with(last), last);
    }
    Ok(())
}

/// The parts in turn: a front, this many letters, and the text after them.
fn long_text(alloc: Global, parts: &[(&str, usize, &str)]) -> Result<String, AllocError> {
    let mut text = String::new(alloc);
    for (front, count, rest) in parts {
        text.push_str(*front)?;
        push_times(&mut text, "x", *count)?;
        text.push_str(*rest)?;
    }
    Ok(text)
}

/// Long tokens, which are stored separately, with short ones between them.
#[test]
fn long_tokens(rt: HostRuntime) -> Result<(), Fail> {
    let parts = [
        ("a /*", 65_530, "*/\n"),
        ("b \"", 65_535, "\"\n"),
        ("c /*", 65_532, "*/\n"),
        ("d <<E\n", 199_999, "\nE\n"),
        ("e #", 65_534, "\nf"),
    ];
    let wanted = "\
Ident 0-1 InlineComment 2-65536 Newline 65536-65537 \
Ident 65537-65538 QuoteOpen 65539-65540 Lit 65540-131075 QuoteClose 131075-131076 Newline 131076-131077 \
Ident 131077-131078 InlineComment 131079-196615 Newline 196615-196616 \
Ident 196616-196617 HeredocOpen 196618-196622 !Lit 196622-396622 !HeredocClose 396622-396623 Newline 396623-396624 \
Ident 396624-396625 LineComment 396626-462161 Newline 462161-462162 Ident 462162-462163";
    let text = long_text(rt.alloc(), &parts)?;
    let line = list_tokens(rt.alloc(), text.as_str())?;
    same_text(&rt, line.as_str(), wanted, "long tokens");
    Ok(())
}

/// A line that is a marker of this many letters except for the one at a place.
fn push_nearly(text: &mut String, length: usize, place: usize) -> Result<(), AllocError> {
    push_times(text, "m", place)?;
    text.push_str("x")?;
    push_times(text, "m", length.saturating_sub(place).saturating_sub(1))?;
    text.push_str("\n")
}

/// A heredoc whose marker has this many letters, with each line that differs from it in one, and a comment after it.
fn among_alike(alloc: Global, length: usize) -> Result<String, AllocError> {
    let mut text = String::new(alloc);
    text.push_str("<<")?;
    push_times(&mut text, "m", length)?;
    text.push_str("\n")?;
    for place in 0..length {
        push_nearly(&mut text, length, place)?;
    }
    push_times(&mut text, "m", length)?;
    text.push_str("\n#")?;
    push_times(&mut text, "x", 99)?;
    Ok(text)
}

/// The line that is the marker among lines that differ from it in one letter, for markers of each length.
#[test]
fn markers_among_alike(rt: HostRuntime) -> Result<(), Fail> {
    for length in 1..=70usize {
        let text = among_alike(rt.alloc(), length)?;
        let body = length.saturating_add(3);
        let close = text
            .as_str()
            .len()
            .saturating_sub(101)
            .saturating_sub(length);
        let end = close.saturating_add(length);
        let comment = end.saturating_add(1);
        let last = comment.saturating_add(100);
        let mut wanted = String::new(rt.alloc());
        write!(
            wanted,
            "HeredocOpen 0-{body} !Lit {body}-{close} !HeredocClose {close}-{end} Newline {end}-{comment} LineComment {comment}-{last}"
        )?;
        has(&rt, rt.alloc(), text.as_str(), wanted.as_str())?;
    }
    Ok(())
}
