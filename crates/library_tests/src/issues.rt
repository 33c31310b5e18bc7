//! The reports for small modules, worked out by hand.

use crate::checks::holds;
use crate::reports::{add, has_issues, settings_for};
use std::alloc::{AllocError, Global};
use std::process::Abort;
use std::test::Fail;
use tf_rules::{Facts, Naming, Rule, RuleSet, Settings};

/// The requested rules.
#[derive(Clone, Copy)]
enum Asked {
    All,
    Recommended,
    Only(&'static [Rule]),
}

fn only(rules: &[Rule]) -> RuleSet {
    let mut set = RuleSet::none();
    for rule in rules {
        set = set.with(*rule);
    }
    set
}

fn rules_of(asked: Asked) -> RuleSet {
    match asked {
        Asked::All => RuleSet::all(),
        Asked::Recommended => RuleSet::recommended(),
        Asked::Only(rules) => only(rules),
    }
}

fn add_files(alloc: Global, facts: &mut Facts, files: &[&str]) -> Result<(), Fail> {
    let mut number = 0u32;
    for text in files {
        add(alloc, facts, number, *text)??;
        number = number.wrapping_add(1);
    }
    Ok(())
}

/// The stored facts of a module whose files are numbered from 0.
fn facts_of(alloc: Global, files: &[&str]) -> Result<Facts, Fail> {
    let mut facts = Facts::new(alloc)?;
    add_files(alloc, &mut facts, files)?;
    Ok(facts)
}

/// Checks the report of a module.
fn reports(
    rt: &impl Abort,
    alloc: Global,
    files: &[&str],
    asked: Asked,
    wanted: &str,
) -> Result<(), Fail> {
    let what = files.first().copied().unwrap_or("no file");
    let settings = settings_for(rules_of(asked));
    let facts = facts_of(alloc, files)?;
    Ok(has_issues(rt, alloc, &facts, &settings, (wanted, what))?)
}

/// A module, the requested rules, and the report.
type Row = (&'static [&'static str], Asked, &'static str);

fn all_report(rt: &impl Abort, alloc: Global, rows: &[Row]) -> Result<(), Fail> {
    for (files, asked, wanted) in rows {
        reports(rt, alloc, files, *asked, wanted)?;
    }
    Ok(())
}

const MIXED: &str =
    "// old\nvariable \"n\" {}\nlocals {\n  Bad = \"${var.n}\"\n  u   = aws.x.0\n}\n";

const OUTPUT: &str =
    "output \"o\" {\n  value = data.t.n.id\n}\ndata \"t\" \"n\" {}\ndata \"t\" \"k\" {}\n";

static BY_RULES: [Row; 4] = [
    (
        &[MIXED],
        Asked::All,
        "0:1:1: Warning - line comments should begin with # (terraform_comment_syntax)\n\
0:2:1: Notice - variable \"n\" has no description (terraform_documented_variables)\n\
0:2:1: Warning - variable \"n\" has no type (terraform_typed_variables)\n\
0:4:3: Notice - local name \"Bad\" must match snake_case (terraform_naming_convention)\n\
0:4:3: Warning - local \"Bad\" is declared but not used (terraform_unused_declarations)\n\
0:4:9: Warning - interpolation-only expressions are deprecated (terraform_deprecated_interpolation)\n\
0:5:3: Warning - local \"u\" is declared but not used (terraform_unused_declarations)\n\
0:5:14: Warning - list items should be accessed using square brackets (terraform_deprecated_index)\n",
    ),
    (
        &["x = \"${\nvar.a # c\n}\"\n"],
        Asked::All,
        "0:1:5: Warning - interpolation-only expressions are deprecated (terraform_deprecated_interpolation)\n",
    ),
    (
        &[MIXED],
        Asked::Only(&[
            Rule::TypedVariables,
            Rule::CommentSyntax,
            Rule::DeprecatedInterpolation,
            Rule::DocumentedVariables,
            Rule::DocumentedOutputs,
            Rule::DeprecatedIndex,
        ]),
        "0:1:1: Warning - line comments should begin with # (terraform_comment_syntax)\n\
0:2:1: Notice - variable \"n\" has no description (terraform_documented_variables)\n\
0:2:1: Warning - variable \"n\" has no type (terraform_typed_variables)\n\
0:4:9: Warning - interpolation-only expressions are deprecated (terraform_deprecated_interpolation)\n\
0:5:14: Warning - list items should be accessed using square brackets (terraform_deprecated_index)\n",
    ),
    (
        &[OUTPUT],
        Asked::Only(&[Rule::UnusedDeclarations, Rule::DocumentedOutputs]),
        "0:1:1: Notice - output \"o\" has no description (terraform_documented_outputs)\n\
0:5:1: Warning - data \"t\" \"k\" is declared but not used (terraform_unused_declarations)\n",
    ),
];

#[test]
fn reports_by_rules(rt: HostRuntime) -> Result<(), Fail> {
    all_report(&rt, rt.alloc(), &BY_RULES)
}

const TYPED: &str = "variable \"n\" { type = string }\n";

const OWN: &str =
    "variable \"n\" {\n  type = string\n  validation {\n    condition = var.n != \"\"\n  }\n}\n";

static USES: [Row; 4] = [
    (
        &[TYPED, "output \"o\" {\n  value = <<EOT\n${var.n}\nEOT\n}\n"],
        Asked::Recommended,
        "",
    ),
    (
        &[
            TYPED,
            "output \"o\" {\n  value = <<EOT\n${var.n}${var.n}\nEOT\n}\n",
            "x = var.n\n",
        ],
        Asked::Recommended,
        "",
    ),
    (
        &[OWN],
        Asked::Recommended,
        "0:1:1: Warning - variable \"n\" is declared but not used (terraform_unused_declarations)\n",
    ),
    (&[OWN, "x = var.n\n"], Asked::Recommended, ""),
];

#[test]
fn uses_count_in_all_files(rt: HostRuntime) -> Result<(), Fail> {
    all_report(&rt, rt.alloc(), &USES)
}

/// The text with this in the middle of two others.
fn push_between(
    text: &mut String,
    (front, end): (&str, &str),
    middle: &str,
) -> Result<(), AllocError> {
    text.push_str(front)?;
    text.push_str(middle)?;
    text.push_str(end)
}

/// Checks the issues of a module with this source.
fn source_reports(rt: &impl Abort, alloc: Global, source: &str, wanted: &str) -> Result<(), Fail> {
    let mut text = String::new(alloc);
    push_between(
        &mut text,
        ("module \"m\" {\n  source = \"", "\"\n}\n"),
        source,
    )?;
    reports(rt, alloc, &[text.as_str()], Asked::Recommended, wanted)
}

const NOT_PINNED: &str =
    "0:2:12: Warning - module \"m\" source is not pinned (terraform_module_pinned_source)\n";

const NO_VERSION: &str =
    "0:1:1: Warning - module \"m\" has no version (terraform_module_version)\n";

static SOURCES: [(&str, &str); 9] = [
    ("git::https://e.com/r.git?depth=1&ref=v1", ""),
    ("git::https://e.com/r.git?ref=", NOT_PINNED),
    ("hg::http://e.com/r?ref=v1", NOT_PINNED),
    ("app.terraform.io/x/y/aws", NO_VERSION),
    ("app/x/y/aws", ""),
    ("./m", ""),
    ("../a/b", ""),
    ("hashicorp/consul/aws//modules/x", NO_VERSION),
    ("hashicorp/consul/aws", NO_VERSION),
];

#[test]
fn tells_sources_of_modules(rt: HostRuntime) -> Result<(), Fail> {
    for (source, wanted) in &SOURCES {
        source_reports(&rt, rt.alloc(), source, wanted)?;
    }
    Ok(())
}

static SILENCED: [Row; 6] = [
    (
        &["# tflint-ignore: terraform_typed_variables\nvariable \"n\" {}\n"],
        Asked::Recommended,
        "0:2:1: Warning - variable \"n\" is declared but not used (terraform_unused_declarations)\n",
    ),
    (
        &[
            "# tflint-ignore: terraform_typed_variables, terraform_unused_declarations # later\nvariable \"n\" {}\n",
        ],
        Asked::Recommended,
        "",
    ),
    (
        &["variable \"n\" {} // tflint-ignore: all\n"],
        Asked::All,
        "",
    ),
    (
        &["# tflint-ignore: all\n", "\nvariable \"n\" {}\n"],
        Asked::Recommended,
        "1:2:1: Warning - variable \"n\" has no type (terraform_typed_variables)\n\
1:2:1: Warning - variable \"n\" is declared but not used (terraform_unused_declarations)\n",
    ),
    (
        &["# tflint-ignore: nope\nvariable \"n\" {}\n"],
        Asked::Recommended,
        "0:2:1: Warning - variable \"n\" has no type (terraform_typed_variables)\n\
0:2:1: Warning - variable \"n\" is declared but not used (terraform_unused_declarations)\n",
    ),
    (
        &["# tflint-ignore: all\n\nvariable \"n\" {}\n"],
        Asked::Recommended,
        "0:3:1: Warning - variable \"n\" has no type (terraform_typed_variables)\n\
0:3:1: Warning - variable \"n\" is declared but not used (terraform_unused_declarations)\n",
    ),
];

#[test]
fn comments_silence(rt: HostRuntime) -> Result<(), Fail> {
    all_report(&rt, rt.alloc(), &SILENCED)
}

/// Whether the rule on names reports something.
fn names_are_reported(facts: &Facts, naming: Naming) -> Result<bool, AllocError> {
    let rules = only(&[Rule::NamingConvention]);
    let issues = facts.issues(&Settings { rules, naming })?;
    Ok(!issues.is_empty())
}

/// Checks whether the names of a module follow this naming.
fn fits(
    rt: &impl Abort,
    facts: &Facts,
    naming: Naming,
    fits: bool,
    name: &str,
) -> Result<(), AllocError> {
    let is_reported = names_are_reported(facts, naming)?;
    holds(rt, is_reported != fits, name);
    Ok(())
}

/// Checks whether the names of a module, such as this one, follow these namings.
fn fits_both(
    rt: &impl Abort,
    facts: &Facts,
    name: &str,
    (snake, mixed): (bool, bool),
) -> Result<(), AllocError> {
    fits(rt, facts, Naming::SnakeCase, snake, name)?;
    fits(rt, facts, Naming::MixedSnakeCase, mixed, name)
}

/// The stored facts of a module with this name in a label.
fn facts_with_name(alloc: Global, name: &str) -> Result<Facts, Fail> {
    let mut text = String::new(alloc);
    push_between(&mut text, ("variable \"", "\" {}\n"), name)?;
    facts_of(alloc, &[text.as_str()])
}

/// Checks whether a name in a label follows these namings.
fn fits_in_a_label(
    rt: &impl Abort,
    alloc: Global,
    name: &str,
    namings: (bool, bool),
) -> Result<(), Fail> {
    let facts = facts_with_name(alloc, name)?;
    Ok(fits_both(rt, &facts, name, namings)?)
}

/// A name, and whether it is in snake_case and in mixed_snake_case.
static NAMES: [(&str, (bool, bool)); 12] = [
    ("a", (true, true)),
    ("a1_b2", (true, true)),
    ("a_1", (true, true)),
    ("", (false, false)),
    ("a__b", (false, false)),
    ("_a", (false, false)),
    ("a_", (false, false)),
    ("a-b", (false, false)),
    ("1a", (false, false)),
    ("é", (false, false)),
    ("Ab_C", (false, true)),
    ("Bad", (false, true)),
];

#[test]
fn tells_namings(rt: HostRuntime) -> Result<(), Fail> {
    for (name, fits) in &NAMES {
        fits_in_a_label(&rt, rt.alloc(), name, *fits)?;
    }
    Ok(())
}

static NAMINGS: [(Naming, &str); 2] = [
    (Naming::SnakeCase, "snake_case"),
    (Naming::MixedSnakeCase, "mixed_snake_case"),
];

#[test]
fn namings_have_names(rt: HostRuntime) {
    for (naming, text) in &NAMINGS {
        holds(&rt, naming.text() == *text, text);
    }
}

/// A source with a default branch, and a text with clusters of several characters, a tab and a line end of two bytes
/// before the reported place.
static PLACES: [Row; 2] = [
    (
        &["module \"M\" {\n  source = \"github.com/a/b?ref=main\"\n}\n"],
        Asked::All,
        "0:1:1: Notice - module name \"M\" must match snake_case (terraform_naming_convention)\n\
0:2:12: Warning - module \"M\" source uses a default branch: main (terraform_module_pinned_source)\n",
    ),
    (
        &[
            "a = 1 // e\u{301}\nlocals {\n\tb = \"\u{1f468}\u{200d}\u{1f469}x${ c.0 }\u{e9}\" // d\r\n}\n// f\n",
        ],
        Asked::All,
        "0:1:7: Warning - line comments should begin with # (terraform_comment_syntax)\n\
0:3:2: Warning - local \"b\" is declared but not used (terraform_unused_declarations)\n\
0:3:13: Warning - list items should be accessed using square brackets (terraform_deprecated_index)\n\
0:3:20: Warning - line comments should begin with # (terraform_comment_syntax)\n\
0:5:1: Warning - line comments should begin with # (terraform_comment_syntax)\n",
    ),
];

#[test]
fn places_are_counted_in_clusters(rt: HostRuntime) -> Result<(), Fail> {
    all_report(&rt, rt.alloc(), &PLACES)
}
