//! The names of small files, worked out by hand.

use crate::checks::holds_at;
use hcl_scan::{Source, scan};
use hcl_syntax::accepts;
use std::alloc::Global;
use std::process::Abort;
use std::test::Fail;
use tf_names::{
    Name, Occurrence, OccurrenceKind, is_same, last_part, occurrences_of, with_last_part,
};

/// An expected occurrence: its name, whether it declares it, where it begins, and where the name is.
#[derive(Clone, Copy)]
struct Wanted<'a> {
    name: Name<'a>,
    is_declaration: bool,
    front: usize,
    start: usize,
    end: usize,
}

/// A declaration of a name between these offsets.
fn declares<'a>(name: Name<'a>, start: usize, end: usize) -> Wanted<'a> {
    Wanted {
        name,
        is_declaration: true,
        front: start,
        start,
        end,
    }
}

/// A reference to a name from an offset on; its last part is between the others.
fn refers<'a>(name: Name<'a>, front: usize, start: usize, end: usize) -> Wanted<'a> {
    Wanted {
        name,
        is_declaration: false,
        front,
        start,
        end,
    }
}

/// Whether an occurrence is the expected one.
fn is_wanted(found: &Occurrence<'_>, wanted: Wanted<'_>) -> bool {
    is_same(found.name, wanted.name)
        && (found.kind == OccurrenceKind::Declaration) == wanted.is_declaration
        && found.front == wanted.front
        && found.start == wanted.start
        && found.end == wanted.end
}

/// Whether the occurrence of this number is the expected one.
fn is_found(found: &[Occurrence<'_>], i: usize, wanted: Wanted<'_>) -> bool {
    match found.get(i) {
        Some(occurrence) => is_wanted(occurrence, wanted),
        None => false,
    }
}

/// Checks the occurrences in a file.
fn finds(rt: &impl Abort, alloc: Global, text: &str, wanted: &[Wanted<'_>]) -> Result<(), Fail> {
    let source = Source::from_bytes(alloc, text.as_bytes())?;
    let tokens = scan(alloc, &source)?;
    let accepted = accepts(&tokens)?;
    let found = occurrences_of(alloc, &accepted)?;
    holds_at(rt, found.len() == wanted.len(), "count of names", text);
    for i in 0..wanted.len() {
        holds_at(rt, is_found(&found, i, wanted[i]), "name", text);
    }
    Ok(())
}

#[test]
fn finds_declarations(rt: HostRuntime) -> Result<(), Fail> {
    let text =
        "variable \"v\" {}\nvariable w {}\nlocals {\n  l = { m = 1 }\n}\ndata \"t\" \"n\" {}\nmodule \"\" {}\nresource \"r\" \"s\" {}\n";
    let wanted = [
        declares(Name::Variable("v"), 10, 11),
        declares(Name::Variable("w"), 25, 26),
        declares(Name::Local("l"), 41, 42),
        declares(Name::Data("t", "n"), 67, 68),
        declares(Name::Module(""), 81, 81),
    ];
    finds(&rt, rt.alloc(), text, &wanted)
}

#[test]
fn finds_no_other_declarations(rt: HostRuntime) -> Result<(), Fail> {
    let text =
        "locals \"x\" {\n  a = 1\n}\nvariable \"a\" \"b\" {}\ndata \"t\" {}\nlocals {\n  b {\n    c = 1\n  }\n}\nr {\n  variable \"d\" {}\n}\n";
    finds(&rt, rt.alloc(), text, &[])
}

#[test]
fn finds_references(rt: HostRuntime) -> Result<(), Fail> {
    let text =
        "a = var.b.c + x.var.y\nd = <<E\n${ local . e }\nE\nf = data.g.h.var.i\nj = data.k\nm = module.n.o\n";
    let wanted = [
        refers(Name::Variable("b"), 4, 8, 9),
        refers(Name::Local("e"), 33, 41, 42),
        refers(Name::Data("g", "h"), 51, 58, 59),
        refers(Name::Module("n"), 81, 88, 89),
    ];
    finds(&rt, rt.alloc(), text, &wanted)
}

#[test]
fn finds_references_in_own_blocks(rt: HostRuntime) -> Result<(), Fail> {
    let text = "variable \"v\" {\n  validation {\n    condition = var.v != \"\"\n  }\n}\n";
    let wanted = [
        declares(Name::Variable("v"), 10, 11),
        refers(Name::Variable("v"), 46, 50, 51),
    ];
    finds(&rt, rt.alloc(), text, &wanted)
}

#[test]
fn tells_names_apart(rt: HostRuntime) -> Result<(), Fail> {
    let name = Name::Data("t", "n");
    holds_at(&rt, is_same(name, Name::Data("t", "n")), "same", "data");
    holds_at(&rt, !is_same(name, Name::Data("u", "n")), "type", "data");
    holds_at(&rt, !is_same(name, Name::Module("n")), "module", "data");
    let other = with_last_part(name, "m");
    holds_at(&rt, is_same(other, Name::Data("t", "m")), "new", "data");
    holds_at(&rt, last_part(other) == "m", "last part", "data");
    Ok(())
}

/// How many references the large file has.
const MANY: usize = 20_000;

#[test]
fn finds_many_references(rt: HostRuntime) -> Result<(), Fail> {
    let alloc = rt.alloc();
    let mut text = String::new(alloc);
    for _ in 0..MANY {
        text.push_str("a = var.b\n")?;
    }
    let source = Source::from_bytes(alloc, text.as_bytes())?;
    let tokens = scan(alloc, &source)?;
    let accepted = accepts(&tokens)?;
    let found = occurrences_of(alloc, &accepted)?;
    holds_at(&rt, found.len() == MANY, "count of names", "many");
    let last = refers(
        Name::Variable("b"),
        10 * MANY - 6,
        10 * MANY - 2,
        10 * MANY - 1,
    );
    holds_at(&rt, is_found(&found, MANY - 1, last), "name", "many");
    Ok(())
}
