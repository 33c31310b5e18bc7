//! Marks that join side by side, and texts that two pairs of marks make: their tokens. The answers were worked out from the
//! table of marks by the longest match, apart from this code. That other marks stay apart is the law `neighbours`.

use crate::checks::{check_same, same_text};
use hcl_scan::{ScanError, Source, Tokens, scan};
use std::alloc::{AllocError, Global};
use std::process::Abort;
use std::test::Fail;

/// A text and its tokens, or its fault, in each line.
static PAIRS: &str = "\
....\t... .\n\
::\t::\n\
:::\t:: :\n\
==\t==\n\
==>\t== >\n\
===\t== =\n\
=>\t=>\n\
=>=\t=> =\n\
!=\t!=\n\
!=>\t!= >\n\
!==\t!= =\n\
<=\t<=\n\
<=>\t<= >\n\
<==\t<= =\n\
>=\t>=\n\
>=>\t>= >\n\
>==\t>= =\n\
/*\tunterminated comment\n\
//\t//";

/// The texts of tokens with a blank between them.
fn push_texts(line: &mut String, tokens: &Tokens<'_>) -> Result<(), AllocError> {
    for i in 0..tokens.len() {
        if i > 0 {
            line.push(' ')?;
        }
        line.push_str(tokens.get(i).text)?;
    }
    Ok(())
}

/// The texts of the tokens, or the message of the fault.
fn push_answer(
    line: &mut String,
    answer: &Result<Tokens<'_>, ScanError>,
) -> Result<(), AllocError> {
    match answer {
        Ok(tokens) => push_texts(line, tokens),
        Err(ScanError::Fault(fault)) => line.push_str(fault.kind.text()),
        Err(ScanError::OutOfMemory) => line.push_str("out of memory"),
    }
}

/// Checks the tokens of a text, or its fault.
fn has(rt: &impl Abort, alloc: Global, text: &str, wanted: &str) -> Result<(), Fail> {
    let source = Source::from_bytes(alloc, text.as_bytes())?;
    let mut line = String::new(alloc);
    push_answer(&mut line, &scan(alloc, &source))?;
    same_text(rt, line.as_str(), wanted, text);
    Ok(())
}

#[test]
fn neighbours(rt: HostRuntime) -> Result<(), Fail> {
    let mut count = 0usize;
    for row in PAIRS.lines() {
        let Some((text, wanted)) = row.split_once('\t') else {
            continue;
        };
        has(&rt, rt.alloc(), text, wanted)?;
        count = count.wrapping_add(1);
    }
    check_same(&rt, &count, &19, "the count of pairs");
    Ok(())
}
