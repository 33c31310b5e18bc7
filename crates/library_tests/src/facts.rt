//! The facts of small files, worked out by hand.

use crate::checks::holds_at;
use hcl_scan::{Source, scan};
use hcl_syntax::{Accepted, accepts, outline};
use rule_set::{Rule, RuleSet};
use std::alloc::{AllocError, Global};
use std::process::Abort;
use std::test::Fail;
use tf_facts::{
    DeclarationKind, Declared, FileFacts, FoundComment, ModuleSource, TextSet, add_references_of,
    facts_of,
};

/// The expected facts and references of a file.
#[derive(Clone, Copy)]
enum Wanted<'a> {
    /// The kind of the first module's source.
    Source(ModuleSource),
    /// The rules that the first comment silences, if there is one.
    Silenced(RuleSet),
    Patterns {
        interpolations: &'a [usize],
        indexes: &'a [usize],
    },
    /// For each declaration its kind, and whether it has a type and a source.
    Declarations(&'a [(DeclarationKind, bool, bool)]),
    /// For each comment, whether it has slashes, and whether it silences a rule.
    Comments(&'a [(bool, bool)]),
    References(&'a [&'a str]),
}

/// The kind of the first module's source, if it has one.
fn first_source(found: &[Declared<'_>]) -> Option<ModuleSource> {
    match found.first() {
        Some(declared) => match declared.source {
            Some(found) => Some(found.source),
            None => None,
        },
        None => None,
    }
}

/// The rules that the first comment silences.
fn first_silenced(found: &[FoundComment]) -> RuleSet {
    match found.first() {
        Some(comment) => comment.silences,
        None => RuleSet::none(),
    }
}

/// Whether the declaration of this number is of the kind, and has a type and a source as expected.
fn is_declared(found: &[Declared<'_>], i: usize, wanted: (DeclarationKind, bool, bool)) -> bool {
    let (kind, is_typed, has_source) = wanted;
    match found.get(i) {
        Some(declared) => {
            declared.kind == kind
                && declared.is_typed == is_typed
                && declared.source.is_some() == has_source
        }
        None => false,
    }
}

/// Checks the declarations.
fn are_declared(
    rt: &impl Abort,
    found: &[Declared<'_>],
    wanted: &[(DeclarationKind, bool, bool)],
    text: &str,
) {
    holds_at(
        rt,
        found.len() == wanted.len(),
        "count of declarations",
        text,
    );
    for i in 0..wanted.len() {
        holds_at(rt, is_declared(found, i, wanted[i]), "declaration", text);
    }
}

/// Whether the comment of this number has slashes, and silences a rule, as expected.
fn is_comment(found: &[FoundComment], i: usize, wanted: (bool, bool)) -> bool {
    let (has_slashes, is_silencing) = wanted;
    match found.get(i) {
        Some(comment) => {
            comment.has_slashes == has_slashes
                && comment.silences.holds(Rule::ModuleVersion) == is_silencing
        }
        None => false,
    }
}

/// Checks the comments.
fn are_comments(rt: &impl Abort, found: &[FoundComment], wanted: &[(bool, bool)], text: &str) {
    holds_at(rt, found.len() == wanted.len(), "count of comments", text);
    for i in 0..wanted.len() {
        holds_at(rt, is_comment(found, i, wanted[i]), "comment", text);
    }
}

/// Checks the references.
fn are_references(rt: &impl Abort, used: &TextSet, wanted: &[&str], text: &str) {
    holds_at(rt, used.len() == wanted.len(), "count of references", text);
    for reference in wanted {
        holds_at(rt, used.contains(*reference), "reference", *reference);
    }
}

/// Checks the facts and the references of a text.
fn are_found(
    rt: &impl Abort,
    found: &FileFacts<'_>,
    used: &TextSet,
    wanted: Wanted<'_>,
    text: &str,
) {
    match wanted {
        Wanted::Source(source) => {
            let first = first_source(&found.declarations);
            holds_at(rt, first == Some(source), "source", text);
        }
        Wanted::Silenced(rules) => {
            holds_at(
                rt,
                first_silenced(&found.comments) == rules,
                "silenced",
                text,
            );
        }
        Wanted::Patterns {
            interpolations,
            indexes,
        } => {
            let wrapped = found.interpolations.as_slice();
            holds_at(rt, wrapped == interpolations, "interpolations", text);
            holds_at(rt, found.indexes.as_slice() == indexes, "indexes", text);
        }
        Wanted::Declarations(rows) => are_declared(rt, &found.declarations, rows, text),
        Wanted::Comments(rows) => are_comments(rt, &found.comments, rows, text),
        Wanted::References(texts) => are_references(rt, used, texts, text),
    }
}

/// The facts of a file; its references are added to the set.
fn facts_in<'s>(
    alloc: Global,
    accepted: &Accepted<'_, 's>,
    used: &mut TextSet,
) -> Result<FileFacts<'s>, AllocError> {
    let items = outline(alloc, accepted)?;
    add_references_of(alloc, accepted, &items, used)?;
    facts_of(alloc, accepted, &items)
}

/// The facts of a source that is a file; its references are added to the set.
fn facts<'s>(alloc: Global, source: &'s Source, used: &mut TextSet) -> Result<FileFacts<'s>, Fail> {
    let tokens = scan(alloc, source)?;
    let accepted = accepts(&tokens)?;
    Ok(facts_in(alloc, &accepted, used)?)
}

/// Checks the facts and the references of a file.
fn finds(rt: &impl Abort, alloc: Global, text: &str, wanted: Wanted<'_>) -> Result<(), Fail> {
    let source = Source::from_bytes(alloc, text.as_bytes())?;
    let mut used = TextSet::new(alloc);
    let found = facts(alloc, &source, &mut used)?;
    are_found(rt, &found, &used, wanted, text);
    Ok(())
}

/// Checks that a module with this source has one of this sort.
fn is_source(
    rt: &impl Abort,
    alloc: Global,
    source: &str,
    wanted: ModuleSource,
) -> Result<(), Fail> {
    let file = format!(in alloc; "module \"m\" {{\n  source = \"{source}\"\n}}\n")?;
    finds(rt, alloc, file.as_str(), Wanted::Source(wanted))
}

/// Texts of sources, and the kind of each.
static SOURCES: &[(&str, ModuleSource)] = &[
    (
        "git::https://e.com/r.git?depth=1&ref=v1",
        ModuleSource::Other,
    ),
    ("hg::x?rev=1", ModuleSource::Other),
    ("app/x/y/aws", ModuleSource::Other),
    ("./m", ModuleSource::Other),
    ("./a/b/c", ModuleSource::Other),
    ("../a/b", ModuleSource::Other),
    ("../a/b/c", ModuleSource::Other),
    ("", ModuleSource::Other),
    ("a/b", ModuleSource::Other),
    ("a/b/c/d", ModuleSource::Other),
    ("a//b/c", ModuleSource::Other),
    ("/a/b/c", ModuleSource::Other),
    ("a.b/c/d", ModuleSource::Other),
    ("hashicorp/consul/aws", ModuleSource::Registry),
    ("app.terraform.io/x/y/aws", ModuleSource::Registry),
    ("hashicorp/consul/aws//modules/x", ModuleSource::Registry),
    ("h.x:1/a/b-1_/c", ModuleSource::Registry),
    ("git::https://e.com/r.git?ref=", ModuleSource::NotPinned),
    ("hg::http://e.com/r?ref=v1", ModuleSource::NotPinned),
    ("git@x", ModuleSource::NotPinned),
    ("bitbucket.org/a/b?xref=1", ModuleSource::NotPinned),
    (
        "github.com/a/b?ref=main",
        ModuleSource::DefaultBranch("main"),
    ),
    ("git@x?ref=master", ModuleSource::DefaultBranch("master")),
    (
        "git::x?a=1&ref=develop&ref=v1",
        ModuleSource::DefaultBranch("develop"),
    ),
    ("hg::x?rev=default", ModuleSource::DefaultBranch("default")),
];

#[test]
fn tells_sources(rt: HostRuntime) -> Result<(), Fail> {
    for (text, sort) in SOURCES {
        is_source(&rt, rt.alloc(), *text, *sort)?;
    }
    Ok(())
}

/// Checks that the first comment of each text silences these rules.
fn silences(rt: &impl Abort, alloc: Global, texts: &[&str], wanted: RuleSet) -> Result<(), Fail> {
    for text in texts {
        finds(rt, alloc, *text, Wanted::Silenced(wanted))?;
    }
    Ok(())
}

#[test]
fn tells_what_is_silenced(rt: HostRuntime) -> Result<(), Fail> {
    static ONE: &[&str] = &[
        "# tflint-ignore: terraform_typed_variables",
        "//\ttflint-ignore:,terraform_typed_variables\t, nope,\r",
    ];
    static TWO: &[&str] = &[
        "# tflint-ignore: terraform_typed_variables, terraform_unused_declarations # later",
    ];
    static EACH: &[&str] = &["// tflint-ignore: all", "#tflint-ignore:all"];
    let typed = RuleSet::none().with(Rule::TypedVariables);
    silences(&rt, rt.alloc(), ONE, typed)?;
    silences(&rt, rt.alloc(), TWO, typed.with(Rule::UnusedDeclarations))?;
    silences(&rt, rt.alloc(), EACH, RuleSet::all())
}

#[test]
fn tells_what_is_not_silenced(rt: HostRuntime) -> Result<(), Fail> {
    static TEXTS: &[&str] = &[
        "# tflint-ignore: nope",
        "## tflint-ignore: all",
        "# x tflint-ignore: all",
        "# tflint-ignore # all",
        "# tflint-ignore: # all",
        "# tflint-ignore: terraform_typed_variables terraform_unused_declarations",
        "#\rtflint-ignore: all",
        "#",
        "//",
    ];
    silences(&rt, rt.alloc(), TEXTS, RuleSet::none())
}

#[test]
fn finds_patterns(rt: HostRuntime) -> Result<(), Fail> {
    let text =
        "x = \"${\nvar.a # c\n}\"\ny = \"a${b}\"\nz = a.b . /* c */ 0[1].2\nw = \"${{a = \"${b}\"}}\"\n";
    let wanted = Wanted::Patterns {
        interpolations: &[2, 38, 43],
        indexes: &[27, 33],
    };
    finds(&rt, rt.alloc(), text, wanted)
}

#[test]
fn collects_references(rt: HostRuntime) -> Result<(), Fail> {
    let text =
        "a = var.b.c + x.var.y\nd = <<E\n${ local . e }\nE\nf = data.g.h.var.i\nj = data.k\n";
    let wanted = ["var.b", "local.e", "data.g.h"];
    finds(&rt, rt.alloc(), text, Wanted::References(&wanted))
}

/// A block of each sort, with a reference in a variable's own block and one outside.
static BLOCKS: &str =
    "variable \"v\" {\n  type = var.v\n}\nlocals {\n  a = var.w\n}\ndata \"t\" \"n\" {}\nmodule \"m\" {\n  source = \"a/b/c\"\n}\noutput {}\n";

#[test]
fn leaves_out_references_in_own_blocks(rt: HostRuntime) -> Result<(), Fail> {
    finds(&rt, rt.alloc(), BLOCKS, Wanted::References(&["var.w"]))
}

#[test]
fn lists_declarations(rt: HostRuntime) -> Result<(), Fail> {
    let wanted = [
        (DeclarationKind::Variable, true, false),
        (DeclarationKind::Local, false, false),
        (DeclarationKind::Data, false, false),
        (DeclarationKind::Module, false, true),
    ];
    finds(&rt, rt.alloc(), BLOCKS, Wanted::Declarations(&wanted))
}

#[test]
fn lists_comments(rt: HostRuntime) -> Result<(), Fail> {
    let text = "# a\n// b\n/* // c */\n# tflint-ignore: all\n";
    let wanted = [(true, false), (false, true)];
    finds(&rt, rt.alloc(), text, Wanted::Comments(&wanted))
}
