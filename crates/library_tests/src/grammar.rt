//! Small files, and texts that aren't files with their faults, worked out by hand or by another program.

use crate::checks::holds_at;
use hcl_scan::{Fault, FaultKind, Position, Source, scan};
use hcl_syntax::accepts;
use std::alloc::{AllocError, Global};
use std::process::Abort;
use std::test::Fail;

/// Why a text is refused; nothing for a file, whose tokens are then all accepted.
fn fault_of(rt: &impl Abort, alloc: Global, text: &str) -> Result<Option<Fault>, Fail> {
    let source = Source::from_bytes(alloc, text.as_bytes())?;
    let tokens = scan(alloc, &source)?;
    match accepts(&tokens) {
        Ok(accepted) => {
            let is_whole = accepted.tokens().len() == tokens.len();
            holds_at(rt, is_whole, "all tokens", text);
            Ok(None)
        }
        Err(fault) => Ok(Some(fault)),
    }
}

/// Checks the answer for the text.
fn is_fault(rt: &impl Abort, found: Option<Fault>, wanted: Option<Fault>, text: &str) {
    assert_eq!(rt; found, wanted, "{text}");
}

/// Checks that the text is a file.
fn takes(rt: &impl Abort, alloc: Global, text: &str) -> Result<(), Fail> {
    let found = fault_of(rt, alloc, text)?;
    is_fault(rt, found, None, text);
    Ok(())
}

/// Checks that the text is refused for this fault.
fn refuses(
    rt: &impl Abort,
    alloc: Global,
    text: &str,
    kind: FaultKind,
    line: u32,
    column: u32,
) -> Result<(), Fail> {
    let at = Position { line, column };
    let found = fault_of(rt, alloc, text)?;
    is_fault(rt, found, Some(Fault { kind, at }), text);
    Ok(())
}

/// Checks that each text is a file.
fn takes_all(rt: &impl Abort, alloc: Global, texts: &[&str]) -> Result<(), Fail> {
    for text in texts {
        takes(rt, alloc, *text)?;
    }
    Ok(())
}

/// Checks that each text is refused, for a fault of this kind at this line and column.
fn refuses_all(
    rt: &impl Abort,
    alloc: Global,
    kind: FaultKind,
    rows: &[(&str, u32, u32)],
) -> Result<(), Fail> {
    for (text, line, column) in rows {
        refuses(rt, alloc, *text, kind, *line, *column)?;
    }
    Ok(())
}

#[test]
fn takes_files(rt: HostRuntime) -> Result<(), Fail> {
    static TEXTS: &[&str] = &["", "\n\na=1\n", "a = 1", "a = 1 # x\n/* y */ b = 2 // z\n"];
    takes_all(&rt, rt.alloc(), TEXTS)
}

#[test]
fn takes_blocks(rt: HostRuntime) -> Result<(), Fail> {
    static TEXTS: &[&str] = &[
        "b {\n}\n",
        "b {}\n",
        "b {}",
        "b { c = 1 }\n",
        "b \"x\" c \"\" \"y\" {\n  d = 1\n\n  e {\n    f {}\n  }\n}\n",
    ];
    takes_all(&rt, rt.alloc(), TEXTS)
}

#[test]
fn takes_operands(rt: HostRuntime) -> Result<(), Fail> {
    static TEXTS: &[&str] = &[
        "a = -!-b\n",
        "a = 1.5e3\n",
        "a = \"x\"\n",
        "a = <<E\nx\nE\n",
        "a = (b)\n",
        "a = (\nb\n)\n",
        "a = []\n",
        "a = {}\n",
        "a = b /* c */ + /* d */ e\n",
    ];
    takes_all(&rt, rt.alloc(), TEXTS)
}

#[test]
fn takes_follows(rt: HostRuntime) -> Result<(), Fail> {
    static TEXTS: &[&str] = &[
        "a = b.c.0.*.d\n",
        "a = b[*].c.0\n",
        "a = b[0][c][*]\n",
        "a = b + c * -d / e % !f && g || h == i != j < k > l <= m >= n - o\n",
        "a = b ? c : d ? e : f\n",
        "a = b ? c ? d : e : f\n",
        "a = [b\n(c)]\n",
        "a = l . 0 . 1\n",
        "a = b.1.5\n",
    ];
    takes_all(&rt, rt.alloc(), TEXTS)
}

#[test]
fn takes_calls(rt: HostRuntime) -> Result<(), Fail> {
    static TEXTS: &[&str] = &[
        "a = f()\n",
        "a = f(b, c,)\n",
        "a = f(\n  b,\n  c...\n)\n",
        "a = f(g(h)[0].i)\n",
        "a = p::f()\n",
        "a = p :: x::f(b)[0].c\n",
        "a = [\n  p\n  ::\n  f\n  (b)\n]\n",
        "a = b ? p::f(1) : p::g(2)\n",
    ];
    takes_all(&rt, rt.alloc(), TEXTS)
}

#[test]
fn takes_tuples(rt: HostRuntime) -> Result<(), Fail> {
    static TEXTS: &[&str] = &[
        "a = [b]\n",
        "a = [\n  b,\n  c,\n]\n",
        "a = [for b in c : d]\n",
        "a = [for b, c in d : e if f]\n",
        "a = [[b], [c]]\n",
    ];
    takes_all(&rt, rt.alloc(), TEXTS)
}

#[test]
fn takes_objects(rt: HostRuntime) -> Result<(), Fail> {
    static TEXTS: &[&str] = &[
        "a = {\n\n  b = c\n  \"d\" : e, f = g,\n  (h) = i\n}\n",
        "a = { b : 1 }\n",
        "a = {for b in c : d => e}\n",
        "a = {\n  for b, c in d : e => f...\n  if g\n}\n",
        "a = { if = in, b = for }\n",
    ];
    takes_all(&rt, rt.alloc(), TEXTS)
}

#[test]
fn takes_templates(rt: HostRuntime) -> Result<(), Fail> {
    static TEXTS: &[&str] = &[
        "a = \"\"\n",
        "a = \"x${b}y${\"z\"}\"\n",
        "a = \"%{ if b }x${c}%{ else }y%{ endif }\"\n",
        "a = \"%{if b~}x%{else}y%{~endif}\"\n",
        "a = \"%{ for b, c in d }${b}%{ endfor }\"\n",
        "a = \"%{ if b }%{ for c in d }%{ if e }%{ else }%{ endif }%{ endfor }%{ endif }\"\n",
        "a = <<E\n%{ if b }\nx${ c }\n%{ endif }\nE\n",
        "a = \"%{\nif b\n}x%{\nendif\n}\"\n",
        "a = \"%{if b}%{else}%{if c}%{endif}${d}%{endif}\"\n",
        "a = \"%{for b in c}x${b}%{endfor}\"\n",
    ];
    takes_all(&rt, rt.alloc(), TEXTS)
}

#[test]
fn refuses_files(rt: HostRuntime) -> Result<(), Fail> {
    static ROWS: &[(&str, u32, u32)] = &[("=\n", 1, 1), ("a = 1\n}\n", 2, 1), ("\"x\"\n", 1, 1)];
    refuses_all(&rt, rt.alloc(), FaultKind::UnexpectedToken, ROWS)
}

#[test]
fn refuses_attributes(rt: HostRuntime) -> Result<(), Fail> {
    static ROWS: &[(&str, u32, u32)] = &[
        ("a\n", 1, 2),
        ("a b\n", 1, 4),
        ("a = 1 2\n", 1, 7),
        ("a = 1 b = 2\n", 1, 7),
        ("a =\n", 1, 4),
        ("a = # x\n", 1, 8),
        ("a = 1 }\n", 1, 7),
    ];
    refuses_all(&rt, rt.alloc(), FaultKind::UnexpectedToken, ROWS)?;
    static ENDS: &[(&str, u32, u32)] = &[("a =", 1, 4)];
    refuses_all(&rt, rt.alloc(), FaultKind::UnexpectedEnd, ENDS)
}

#[test]
fn refuses_blocks(rt: HostRuntime) -> Result<(), Fail> {
    static ROWS: &[(&str, u32, u32)] = &[
        ("b \"x\" = 1\n", 1, 7),
        ("b \"${x}\" {}\n", 1, 4),
        ("b { c = 1 d = 2 }\n", 1, 11),
        ("b { c = 1, }\n", 1, 10),
        ("b { \"c\" = 1 }\n", 1, 5),
        ("b {\n  1\n}\n", 2, 3),
        ("b { c = 1 } d\n", 1, 13),
        ("b {} c = 1\n", 1, 6),
        ("b {\n  c = 1 }\n", 2, 9),
        ("b { c = 1\n}\n", 1, 10),
    ];
    refuses_all(&rt, rt.alloc(), FaultKind::UnexpectedToken, ROWS)?;
    static ENDS: &[(&str, u32, u32)] = &[("b {", 1, 4), ("a {", 1, 4)];
    refuses_all(&rt, rt.alloc(), FaultKind::UnexpectedEnd, ENDS)
}

#[test]
fn refuses_operands(rt: HostRuntime) -> Result<(), Fail> {
    static ROWS: &[(&str, u32, u32)] = &[
        ("a = *\n", 1, 5),
        ("a = (b c)\n", 1, 8),
        ("a = )\n", 1, 5),
        ("a = - \n", 1, 7),
        ("a = b\n+ c\n", 2, 1),
        ("a = if\n== c\n", 2, 1),
    ];
    refuses_all(&rt, rt.alloc(), FaultKind::UnexpectedToken, ROWS)?;
    static ENDS: &[(&str, u32, u32)] = &[("a = (b\n", 2, 1)];
    refuses_all(&rt, rt.alloc(), FaultKind::UnexpectedEnd, ENDS)
}

#[test]
fn refuses_follows(rt: HostRuntime) -> Result<(), Fail> {
    static ROWS: &[(&str, u32, u32)] = &[
        ("a = b.\n", 1, 7),
        ("a = b.\"c\"\n", 1, 7),
        ("a = b[]\n", 1, 7),
        ("a = b[* c]\n", 1, 9),
        ("a = b[c d]\n", 1, 9),
        ("a = b ? c\n", 1, 10),
        ("a = b ? c , d\n", 1, 11),
        ("a = b ! c\n", 1, 7),
        ("a = b => c\n", 1, 7),
    ];
    refuses_all(&rt, rt.alloc(), FaultKind::UnexpectedToken, ROWS)
}

#[test]
fn refuses_calls(rt: HostRuntime) -> Result<(), Fail> {
    static ROWS: &[(&str, u32, u32)] = &[
        ("a = f(,)\n", 1, 7),
        ("a = f(b,,c)\n", 1, 9),
        ("a = f(b c)\n", 1, 9),
        ("a = f(b... , c)\n", 1, 12),
        ("a = f(b..., )\n", 1, 11),
        ("a = f(...)\n", 1, 7),
    ];
    refuses_all(&rt, rt.alloc(), FaultKind::UnexpectedToken, ROWS)
}

#[test]
fn refuses_paths(rt: HostRuntime) -> Result<(), Fail> {
    static ROWS: &[(&str, u32, u32)] = &[
        ("a=b::c\n", 1, 7),
        ("a=b::c.d\n", 1, 7),
        ("a=b::c[0]\n", 1, 7),
        ("a=b::1()\n", 1, 6),
        ("a=b::\nc()\n", 1, 6),
        ("a=b?c: :d\n", 1, 8),
        ("a=b?c::d\n", 1, 9),
        ("a=::b()\n", 1, 3),
        ("a=b()::c()\n", 1, 6),
        ("a=b.c::d()\n", 1, 6),
        ("a={b::c=1}\n", 1, 8),
        ("a={b::1}\n", 1, 7),
        ("a::b=1\n", 1, 2),
    ];
    refuses_all(&rt, rt.alloc(), FaultKind::UnexpectedToken, ROWS)?;
    static ENDS: &[(&str, u32, u32)] = &[("a=b::", 1, 6), ("a=b::c", 1, 7)];
    refuses_all(&rt, rt.alloc(), FaultKind::UnexpectedEnd, ENDS)
}

#[test]
fn refuses_tuples(rt: HostRuntime) -> Result<(), Fail> {
    static ROWS: &[(&str, u32, u32)] = &[
        ("a = [b,,]\n", 1, 8),
        ("a = [,]\n", 1, 6),
        ("a = [b c]\n", 1, 8),
        ("a = [for]\n", 1, 9),
        ("a = [for b c : d]\n", 1, 12),
        ("a = [for b, in c : d]\n", 1, 16),
        ("a = [for b, c, d in e : f]\n", 1, 14),
        ("a = [for b in c => d]\n", 1, 17),
        ("a = [for b in c : d unless e]\n", 1, 21),
        ("a = [for b in c : d => e]\n", 1, 21),
        ("a = [b : c]\n", 1, 8),
    ];
    refuses_all(&rt, rt.alloc(), FaultKind::UnexpectedToken, ROWS)
}

#[test]
fn refuses_objects(rt: HostRuntime) -> Result<(), Fail> {
    static ROWS: &[(&str, u32, u32)] = &[
        ("a = { b }\n", 1, 9),
        ("a = { b\n = c }\n", 1, 8),
        ("a = { b =\n c }\n", 1, 10),
        ("a = { b = c d = e }\n", 1, 13),
        ("a = { b = c,, d = e }\n", 1, 13),
        ("a = { , }\n", 1, 7),
        ("a = { for = 1 }\n", 1, 11),
        ("a = {for b in c : d}\n", 1, 20),
        ("a = {for b in c : d => e, f}\n", 1, 25),
        ("a = {for b in c : d => e... f}\n", 1, 29),
        ("a = {for b in c : d => e if f g}\n", 1, 31),
        ("a = { b = c...\n}\n", 1, 12),
    ];
    refuses_all(&rt, rt.alloc(), FaultKind::UnexpectedToken, ROWS)
}

#[test]
fn refuses_templates(rt: HostRuntime) -> Result<(), Fail> {
    static ROWS: &[(&str, u32, u32)] = &[
        ("a = \"${}\"\n", 1, 8),
        ("a = \"${b c}\"\n", 1, 10),
        ("a = \"%{ x }\"\n", 1, 9),
        ("a = \"%{ endif }\"\n", 1, 9),
        ("a = \"%{ else }\"\n", 1, 9),
        ("a=\"%{ if b }x\"\n", 1, 14),
        ("a = \"%{if b}%{else}x\"\n", 1, 21),
        ("a = \"%{for b in c}x\"\n", 1, 20),
        ("a = \"%{ if b }%{ endfor }\"\n", 1, 18),
        ("a = \"%{ for b in c }%{ endif }\"\n", 1, 24),
        ("a = \"%{ for b in c }%{ else }%{ endfor }\"\n", 1, 24),
        ("a = \"%{ if b }%{ else }%{ else }%{ endif }\"\n", 1, 27),
        ("a = \"%{ if b c }%{ endif }\"\n", 1, 14),
        ("a = \"%{ for b }%{ endfor }\"\n", 1, 15),
        ("a = \"%{ if b }%{ else b }%{ endif }\"\n", 1, 23),
        ("a = \"%{ if b }%{ endif b }\"\n", 1, 24),
        ("a = <<E\n%{ if b }\nE\n", 3, 1),
        ("a = <<E\n${a. 0.1}\nE\n", 2, 6),
    ];
    refuses_all(&rt, rt.alloc(), FaultKind::UnexpectedToken, ROWS)
}

/// A text that is `front`, then a number of times `part`, then `middle`, then as many times `back`, then `end`.
#[derive(Clone, Copy)]
struct Nest<'a> {
    front: &'a str,
    part: &'a str,
    middle: &'a str,
    back: &'a str,
    end: &'a str,
}

/// A nest of whole lines.
fn lines<'a>(front: &'a str, part: &'a str, middle: &'a str, back: &'a str) -> Nest<'a> {
    Nest {
        front,
        part,
        middle,
        back,
        end: "\n",
    }
}

/// Appends a part this many times to the text.
fn repeat(text: &mut String, part: &str, count: usize) -> Result<(), AllocError> {
    for _ in 0..count {
        text.push_str(part)?;
    }
    Ok(())
}

/// Appends a nest of this many parts to the text.
fn write_nest(text: &mut String, nest: Nest<'_>, count: usize) -> Result<(), AllocError> {
    text.push_str(nest.front)?;
    repeat(text, nest.part, count)?;
    text.push_str(nest.middle)?;
    repeat(text, nest.back, count)?;
    text.push_str(nest.end)?;
    Ok(())
}

/// Why a nest of this many parts is refused, if it is.
fn nest_fault(
    rt: &impl Abort,
    alloc: Global,
    nest: Nest<'_>,
    count: usize,
) -> Result<Option<Fault>, Fail> {
    let mut text = String::new(alloc);
    write_nest(&mut text, nest, count)?;
    fault_of(rt, alloc, text.as_str())
}

/// Checks that the nest of this many parts is a file.
fn takes_nest(rt: &impl Abort, alloc: Global, nest: Nest<'_>, count: usize) -> Result<(), Fail> {
    let found = nest_fault(rt, alloc, nest, count)?;
    is_fault(rt, found, None, nest.part);
    Ok(())
}

/// Checks that each of these, with this many parts and as whole lines, is a file.
fn takes_nests(
    rt: &impl Abort,
    alloc: Global,
    count: usize,
    rows: &[(&str, &str, &str, &str)],
) -> Result<(), Fail> {
    for (front, part, middle, back) in rows {
        let nest = lines(*front, *part, *middle, *back);
        takes_nest(rt, alloc, nest, count)?;
    }
    Ok(())
}

/// Constructs without an opener may be as long as a source can be.
#[test]
fn takes_long_chains(rt: HostRuntime) -> Result<(), Fail> {
    static ROWS: &[(&str, &str, &str, &str)] = &[
        ("a=", "b?", "b", ":b"),
        ("a=", "!", "b", ""),
        ("a=", "- ", "b", ""),
        ("a=b", ".c", "", ""),
        ("a=b", "[0]", "", ""),
        ("a=b", "+1", "", ""),
        ("b", " c", "{}", ""),
        ("", "b {}\n", "", ""),
        ("a=[", "b,", "]", ""),
    ];
    takes_nests(&rt, rt.alloc(), 100_000, ROWS)
}

#[test]
fn nests_to_the_limit(rt: HostRuntime) -> Result<(), Fail> {
    static ROWS: &[(&str, &str, &str, &str)] = &[
        ("a=", "(", "1", ")"),
        ("a=", "{b=", "1", "}"),
        ("a=", "[for b in c:", "d", "]"),
        ("", "b {\n", "", "}\n"),
    ];
    takes_nests(&rt, rt.alloc(), 256, ROWS)
}

#[test]
fn counts_open_directives(rt: HostRuntime) -> Result<(), Fail> {
    let directives = Nest {
        front: "a=\"",
        part: "%{if b}",
        middle: "",
        back: "%{endif}",
        end: "\"\n",
    };
    let fits = nest_fault(&rt, rt.alloc(), directives, 256)?;
    is_fault(&rt, fits, None, "256 directives");
    let exceeds = nest_fault(&rt, rt.alloc(), directives, 257)?;
    let at = Position {
        line: 1,
        column: 1796,
    };
    let kind = FaultKind::TooDeep;
    is_fault(&rt, exceeds, Some(Fault { kind, at }), "257 directives");
    Ok(())
}
