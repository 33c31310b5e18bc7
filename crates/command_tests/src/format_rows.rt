//! Files and the program's results for them, from small ones up to the limits.

use crate::compared::Shown;
use crate::format_runs::check;
use std::alloc::Global;
use std::process::Abort;

/// The words that ask for a print.
pub static PRINT: [&str; 1] = ["tffmt"];

/// The words that ask for a check.
pub static CHECK: [&str; 2] = ["tffmt", "--check"];

static NOTHING: &[u8] = b"";

// The result of a check of a file that is its own print, and of another.
static FORMATTED: Shown<'static> = (b"", b"", 0);

static UNFORMATTED: Shown<'static> = (b"", b"", 3);

// Checks that the input is formatted to this print.
fn gives(rt: &impl Abort, alloc: Global, input: &[u8], print: &[u8]) {
    check(rt, alloc, &PRINT, input, (print, NOTHING, 0));
}

// Checks that the file is its own print, and found to be.
fn stays(rt: &impl Abort, alloc: Global, file: &[u8]) {
    gives(rt, alloc, file, file);
    check(rt, alloc, &CHECK, file, FORMATTED);
}

// Checks that the input isn't its own print, which is this one.
fn turns_to(rt: &impl Abort, alloc: Global, input: &[u8], print: &[u8]) {
    gives(rt, alloc, input, print);
    check(rt, alloc, &CHECK, input, UNFORMATTED);
    stays(rt, alloc, print);
}

// Checks that the input is refused with this line, printed or checked.
fn gives_fault(rt: &impl Abort, alloc: Global, input: &[u8], line: &[u8]) {
    check(rt, alloc, &PRINT, input, (NOTHING, line, 2));
    check(rt, alloc, &CHECK, input, (NOTHING, line, 2));
}

// An input, and its print or its line.
type Pair = (&'static [u8], &'static [u8]);

fn all_give(rt: &impl Abort, alloc: Global, rows: &[Pair]) {
    for (input, print) in rows {
        gives(rt, alloc, input, print);
    }
}

fn all_turn(rt: &impl Abort, alloc: Global, rows: &[Pair]) {
    for (input, print) in rows {
        turns_to(rt, alloc, input, print);
    }
}

fn all_stay(rt: &impl Abort, alloc: Global, files: &[&[u8]]) {
    for file in files {
        stays(rt, alloc, file);
    }
}

fn all_refused(rt: &impl Abort, alloc: Global, rows: &[Pair]) {
    for (input, line) in rows {
        gives_fault(rt, alloc, input, line);
    }
}

/// Each part this many times, in turn.
pub fn repeat_parts(rt: &impl Abort, alloc: Global, parts: &[(&[u8], usize)]) -> Vec<u8> {
    let mut bytes = Vec::new(alloc);
    for (part, count) in parts {
        for _ in 0..*count {
            bytes.extend_from_slice(part).expect(rt, "memory");
        }
    }
    bytes
}

static PRINTS: [Pair; 8] = [
    (b"", b""),
    (b"\n\n  \n\t\n", b"\n\n\n\n"),
    (b"a=1\n", b"a = 1\n"),
    (b"a=1", b"a = 1"),
    (b"a=1\r\nb=2\r\n", b"a = 1\r\nb = 2\r\n"),
    (b"b  \"x\"{ }\nc {d=1}\n", b"b \"x\" {}\nc { d = 1 }\n"),
    (b"\xc3\xa9=1 /* c */ # x\n", b"\xc3\xa9 = 1 /* c */ # x\n"),
    (
        b"x=[{\na=1\n},{\nb=2\n}]\n",
        b"x = [{\n  a = 1\n  }, {\n  b = 2\n}]\n",
    ),
];

#[test]
fn prints(rt: HostRuntime) {
    all_give(&rt, rt.alloc(), &PRINTS);
}

static EXPRESSIONS: [Pair; 8] = [
    (b"a=b -1\nc=b-1\nd=- 1\n", b"a = b - 1\nc = b-1\nd = -1\n"),
    (b"w=1 .5\n", b"w = 1 .5\n"),
    (b"v=l . 0 . 1\nw=1 .x\n", b"v = l.0.1\nw = 1 .x\n"),
    (b"a = b[*].c.0\n", b"a = b[*].c.0\n"),
    (
        b"m={a:1,\"b\"=c?d:e}\n",
        b"m = { a : 1, \"b\" = c ? d : e }\n",
    ),
    (
        b"l=[for k,v in m:\"${k}=${v}\" if v!=null]\n",
        b"l = [for k, v in m : \"${k}=${v}\" if v != null]\n",
    ),
    (b"a=provider :: x::f( 1 )\n", b"a = provider::x::f(1)\n"),
    (b"v=c?p::f(1):p::g(2)\n", b"v = c ? p::f(1) : p::g(2)\n"),
];

#[test]
fn prints_expressions(rt: HostRuntime) {
    all_give(&rt, rt.alloc(), &EXPRESSIONS);
}

static TEMPLATES: [Pair; 4] = [
    (b"a=\"${ f( var.x ,1) }\"\n", b"a = \"${f(var.x, 1)}\"\n"),
    (b"b=\"${x},${y}\"\n", b"b = \"${x},${y}\"\n"),
    (b"a=\"${\nb}\"\n", b"a = \"${\nb}\"\n"),
    (
        b"a=\"%{if b~}x%{else}y%{~endif}\"\n",
        b"a = \"%{if b~}x%{else}y%{~endif}\"\n",
    ),
];

#[test]
fn prints_templates(rt: HostRuntime) {
    all_give(&rt, rt.alloc(), &TEMPLATES);
}

static ALIGNED: [Pair; 4] = [
    (
        b"a=1 # x\nlong_name=2 # yy\n",
        b"a         = 1 # x\nlong_name = 2 # yy\n",
    ),
    (
        b"b { # x\nlonger=1// y\n}\n",
        b"b {          # x\n  longer = 1 // y\n}\n",
    ),
    (b"\n\n  \na=1\n\t\nbcd=2\n", b"\n\n\na = 1\n\nbcd = 2\n"),
    (b"e\xcc\x81=2\nab=1\n", b"e\xcc\x81  = 2\nab = 1\n"),
];

#[test]
fn aligns(rt: HostRuntime) {
    all_give(&rt, rt.alloc(), &ALIGNED);
}

// The widths are by grapheme clusters; each character below U+0300 is one.
static CLUSTERS: [Pair; 7] = [
    // U+00E9, and the same letter with an accent of its own
    (b"\xc3\xa9=1\nab=2\n", b"\xc3\xa9  = 1\nab = 2\n"),
    (b"e\xcc\x81e=1\nabc=2\n", b"e\xcc\x81e  = 1\nabc = 2\n"),
    // U+02FF, the last below, and U+0300 after a letter and by itself
    (
        b"a=\"\xcb\xbf\xcb\xbf\"#x\nb=\"c\"#y\n",
        b"a = \"\xcb\xbf\xcb\xbf\" #x\nb = \"c\"  #y\n",
    ),
    (
        b"a=\"d\xcc\x80\"#x\nb=\"cd\"#y\n",
        b"a = \"d\xcc\x80\"  #x\nb = \"cd\" #y\n",
    ),
    (
        b"a=\"\xcc\x80\"#x\nb=\"cd\"#y\n",
        b"a = \"\xcc\x80\"  #x\nb = \"cd\" #y\n",
    ),
    // U+00AD, which is a control, and the letters of a flag
    (
        b"a=\"\xc2\xad\xc2\xad\"#x\nb=\"c\"#y\n",
        b"a = \"\xc2\xad\xc2\xad\" #x\nb = \"c\"  #y\n",
    ),
    (
        b"a=\"\xf0\x9f\x87\xa6\xf0\x9f\x87\xa7\"#x\nb=\"cd\"#y\n",
        b"a = \"\xf0\x9f\x87\xa6\xf0\x9f\x87\xa7\"  #x\nb = \"cd\" #y\n",
    ),
];

#[test]
fn aligns_by_clusters(rt: HostRuntime) {
    all_turn(&rt, rt.alloc(), &CLUSTERS);
}

// A run whose column is the greatest width, wherever the widest line is, and whatever is beside the run.
static FILES: [&[u8]; 12] = [
    b"",
    b"a = 1\n",
    b"a   = 1\nbcd = 2",
    b"bcd = 1\na   = 2\nef  = 3\n",
    b"a   = 1\nbcd = 2\n\ne  = 3\nfg = 4\n",
    b"a  = 1  # x\nbc = 22 # y\n\n# z\nd = 3 # x\n",
    b"b {\n  a   = 1 # x\n  bcd = 2 # y\n}\n",
    b"b {          # x\n  longer = 1 // y\n}\n",
    b"a = 1 /* x\ny */ # z\nbcd = 2 # x\n",
    b"a = \"\xc3\xa9\"  # x\nb = \"ee\" # y\n",
    b"\xc3\xa9   = 1\nabc = 2\n",
    b"abc = \"\xc3\xa9\" # x\nd   = 1   # y\n",
];

#[test]
fn keeps_formatted(rt: HostRuntime) {
    all_stay(&rt, rt.alloc(), &FILES);
}

static NEARLY_FORMATTED: [Pair; 16] = [
    // a column further than the widest line, in all lines of the run, before the end or another run
    (b"a    = 1\nbcd  = 2\n", b"a   = 1\nbcd = 2\n"),
    (b"a  = 1\n", b"a = 1\n"),
    (b"a    = 1\nbcd  = 2", b"a   = 1\nbcd = 2"),
    (b"a  = 1\n\nbcd = 2\n", b"a = 1\n\nbcd = 2\n"),
    (
        b"a   = 1\nbcd = 2\n\ne   = 3\n",
        b"a   = 1\nbcd = 2\n\ne = 3\n",
    ),
    // a column that the widest line is beyond
    (b"a  = 1\nbcd= 2\n", b"a   = 1\nbcd = 2\n"),
    (b"a  = 1\nbcd = 2\n", b"a   = 1\nbcd = 2\n"),
    (b"bcd = 1\na = 2\n", b"bcd = 1\na   = 2\n"),
    // such columns of comments
    (
        b"a  = 1   # x\nbc = 22  # y\n",
        b"a  = 1  # x\nbc = 22 # y\n",
    ),
    (b"a  = 1  # x\nbc = 22  # y", b"a  = 1  # x\nbc = 22 # y"),
    (b"a = 1  # x\n\nb = 22 # y\n", b"a = 1 # x\n\nb = 22 # y\n"),
    // a text as long as the blanks in its place
    (b"a\t= 1\n", b"a = 1\n"),
    (b"b {\n\t\tc = 1\n}\n", b"b {\n  c = 1\n}\n"),
    (b"a\t  = 1\nbcd = 2\n", b"a   = 1\nbcd = 2\n"),
    // blanks at an end
    (b"a = 1 \nb = 2\n", b"a = 1\nb = 2\n"),
    (b"a = 1\n ", b"a = 1\n"),
];

#[test]
fn tells_nearly_formatted(rt: HostRuntime) {
    all_turn(&rt, rt.alloc(), &NEARLY_FORMATTED);
}

static HEREDOCS: [Pair; 2] = [
    (
        b"a=<<-EOT\n\t x  ${ b }\n  EOT  \n",
        b"a = <<-EOT\n\t x  ${ b }\n  EOT\n",
    ),
    (
        b"a=<<-EOT\n\t x  ${ b }\n  EOT",
        b"a = <<-EOT\n\t x  ${ b }\n  EOT",
    ),
];

static HEREDOC_FAULTS: [Pair; 2] = [
    (b"a=<<E\nx\n", b"tffmt: error: 1:3: unterminated heredoc\n"),
    (
        b"a=<<-EOT\n\t x  ${ b }\n  EO",
        b"tffmt: error: 1:3: unterminated heredoc\n",
    ),
];

#[test]
fn heredocs(rt: HostRuntime) {
    all_give(&rt, rt.alloc(), &HEREDOCS);
    all_refused(&rt, rt.alloc(), &HEREDOC_FAULTS);
}

static NO_SOURCES: [Pair; 3] = [
    (b"a=\xff", b"tffmt: error: 1:3: invalid UTF-8\n"),
    (b"e\xcc", b"tffmt: error: 1:2: invalid UTF-8\n"),
    (
        b"\xef\xbb\xbfa=1\n",
        b"tffmt: error: 1:1: byte order mark\n",
    ),
];

#[test]
fn refuses_no_source(rt: HostRuntime) {
    all_refused(&rt, rt.alloc(), &NO_SOURCES);
}

static SCAN_FAULTS: [Pair; 8] = [
    (b"a=1 ^\n", b"tffmt: error: 1:5: invalid character\n"),
    (b"a=\r1\n", b"tffmt: error: 1:3: invalid character\n"),
    (b"a=\"x\\q\"\n", b"tffmt: error: 1:5: invalid escape\n"),
    (b"a=\"b\n", b"tffmt: error: 1:3: unterminated quote\n"),
    (b"\"${x\"", b"tffmt: error: 1:5: unterminated quote\n"),
    (b"a=\"${b\n", b"tffmt: error: 1:4: unterminated template\n"),
    (b"a=1 /* x\n", b"tffmt: error: 1:5: unterminated comment\n"),
    (
        b"a = 1 2\nb = \"c\n",
        b"tffmt: error: 2:5: unterminated quote\n",
    ),
];

#[test]
fn refuses_scan_faults(rt: HostRuntime) {
    all_refused(&rt, rt.alloc(), &SCAN_FAULTS);
}

static GRAMMAR_FAULTS: [Pair; 9] = [
    (b"a=\n", b"tffmt: error: 1:3: unexpected token\n"),
    (b"a=", b"tffmt: error: 1:3: unexpected end\n"),
    (b"a {", b"tffmt: error: 1:4: unexpected end\n"),
    (b"a = 1 2\n", b"tffmt: error: 1:7: unexpected token\n"),
    (
        b"b { c = 1 d = 2 }\n",
        b"tffmt: error: 1:11: unexpected token\n",
    ),
    (
        b"a=\"%{ if b }x\"\n",
        b"tffmt: error: 1:14: unexpected token\n",
    ),
    (b"a=b::c\n", b"tffmt: error: 1:7: unexpected token\n"),
    (b"a=b::", b"tffmt: error: 1:6: unexpected end\n"),
    (b"a=b?c: :d\n", b"tffmt: error: 1:8: unexpected token\n"),
];

#[test]
fn refuses_grammar_faults(rt: HostRuntime) {
    all_refused(&rt, rt.alloc(), &GRAMMAR_FAULTS);
}

type Parts = &'static [(&'static [u8], usize)];

// Checks that these parts are formatted to those.
fn all_parts_give(rt: &impl Abort, alloc: Global, rows: &[(Parts, Parts)]) {
    for (parts, printed) in rows {
        let input = repeat_parts(rt, alloc, parts);
        let print = repeat_parts(rt, alloc, printed);
        gives(rt, alloc, &input, &print);
    }
}

// Checks that these parts are refused with this line.
fn all_parts_refused(rt: &impl Abort, alloc: Global, rows: &[(Parts, &[u8])]) {
    for (parts, line) in rows {
        let input = repeat_parts(rt, alloc, parts);
        gives_fault(rt, alloc, &input, line);
    }
}

static DEEP: [(Parts, Parts); 2] = [
    (
        &[(b"a=", 1), (b"(", 256), (b"1", 1), (b")", 256), (b"\n", 1)],
        &[
            (b"a = ", 1),
            (b"(", 256),
            (b"1", 1),
            (b")", 256),
            (b"\n", 1),
        ],
    ),
    (
        &[
            (b"a=\"", 1),
            (b"%{if b}", 256),
            (b"%{endif}", 256),
            (b"\"\n", 1),
        ],
        &[
            (b"a = \"", 1),
            (b"%{if b}", 256),
            (b"%{endif}", 256),
            (b"\"\n", 1),
        ],
    ),
];

static TOO_DEEP: [(Parts, &[u8]); 3] = [
    (
        &[(b"a=", 1), (b"(", 257), (b"1", 1), (b")", 257), (b"\n", 1)],
        b"tffmt: error: 1:259: too deep\n",
    ),
    (
        &[(b"a=", 1), (b"(", 256), (b"\"x\"", 1)],
        b"tffmt: error: 1:259: too deep\n",
    ),
    (
        &[
            (b"a=\"", 1),
            (b"%{if b}", 257),
            (b"%{endif}", 257),
            (b"\"\n", 1),
        ],
        b"tffmt: error: 1:1796: too deep\n",
    ),
];

// 256 may be open, and no more. Directives are open until their end.
#[test]
fn limits_openers(rt: HostRuntime) {
    all_parts_give(&rt, rt.alloc(), &DEEP);
    all_parts_refused(&rt, rt.alloc(), &TOO_DEEP);
}

static LARGE: [(Parts, Parts); 3] = [
    (&[(b"a=1\n", 699_050)], &[(b"a = 1\n", 699_050)]),
    (&[(b"\n", 1_048_577)], &[(b"\n", 1_048_577)]),
    (&[(b"\n", 4_194_304)], &[(b"\n", 4_194_304)]),
];

static TOO_LARGE: [(Parts, &[u8]); 3] = [
    (
        &[(b"\n", 150_000), (b"a=\n", 1)],
        b"tffmt: error: 150001:3: unexpected token\n",
    ),
    (
        &[(b"\n", 4_194_305)],
        b"tffmt: error: 1:1: source too large\n",
    ),
    (
        &[(b"b", 1000), (b"=1\n", 1), (b"a=1\n", 4173)],
        b"tffmt: error: 1:1: result too large\n",
    ),
];

// An input may have 4,194,304 bytes, and so may a print: 4,172 short lines beside a long name fit, and one more does not.
#[test]
fn sizes(rt: HostRuntime) {
    all_parts_give(&rt, rt.alloc(), &LARGE);
    all_parts_refused(&rt, rt.alloc(), &TOO_LARGE);
}

// Checks that this many short lines beside a name of 1,000 bytes are aligned to it.
fn aligns_to_a_long_name(rt: &impl Abort, alloc: Global, count: usize) {
    let aligned = repeat_parts(rt, alloc, &[(b"a", 1), (b" ", 1000), (b"= 1\n", 1)]);
    let input = repeat_parts(rt, alloc, &[(b"b", 1000), (b"=1\n", 1), (b"a=1\n", count)]);
    let print = repeat_parts(
        rt,
        alloc,
        &[(b"b", 1000), (b" = 1\n", 1), (&aligned, count)],
    );
    gives(rt, alloc, &input, &print);
}

#[test]
fn sizes_of_prints(rt: HostRuntime) {
    aligns_to_a_long_name(&rt, rt.alloc(), 1043);
    aligns_to_a_long_name(&rt, rt.alloc(), 4172);
}
