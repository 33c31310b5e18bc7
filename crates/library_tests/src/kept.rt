//! The stored facts of small files, by their issues, worked out by hand.

use crate::reports::{add, has_issues, settings_for};
use std::alloc::{AllocError, Global};
use std::process::Abort;
use std::test::Fail;
use tf_rules::{Facts, RuleSet};

const FIRST: &str =
    "variable \"v\" {\n  type = var.v\n}\nmodule \"m\" {\n  source = \"git@x?ref=main\"\n}\n// é\n";

const OF_FIRST: &str =
    "0:1:1: Notice - variable \"v\" has no description (terraform_documented_variables)\n\
0:1:1: Warning - variable \"v\" is declared but not used (terraform_unused_declarations)\n\
0:5:12: Warning - module \"m\" source uses a default branch: main (terraform_module_pinned_source)\n\
0:7:1: Warning - line comments should begin with # (terraform_comment_syntax)\n";

const SECOND: &str =
    "locals {\n  é = \"é${ l.0 }\" # tflint-ignore: all\n}\ndata \"t\" \"n\" {\n  a = \"${var.w}\"\n}\n";

const OF_SECOND: &str =
    "7:4:1: Warning - data \"t\" \"n\" is declared but not used (terraform_unused_declarations)\n\
7:5:7: Warning - interpolation-only expressions are deprecated (terraform_deprecated_interpolation)\n";

// The second file with a comment that silences less, and that is itself reported.
const LOUDER: &str =
    "locals {\n  é = \"é${ l.0 }\" // tflint-ignore: terraform_naming_convention\n}\n";

const OF_LOUDER: &str =
    "8:2:3: Warning - local \"é\" is declared but not used (terraform_unused_declarations)\n\
8:2:13: Warning - list items should be accessed using square brackets (terraform_deprecated_index)\n\
8:2:19: Warning - line comments should begin with # (terraform_comment_syntax)\n";

// Used in the second file; the first variable isn't used.
const USED: &str = "variable \"w\" {\n  type        = string\n  description = \"\"\n}\n";

fn push_all(all: &mut String, texts: &[&str]) -> Result<(), AllocError> {
    for text in texts {
        all.push_str(*text)?;
    }
    Ok(())
}

/// Checks the reports of all rules, one text after another.
fn reports(
    rt: &impl Abort,
    alloc: Global,
    facts: &Facts,
    wanted: &[&str],
) -> Result<(), AllocError> {
    let settings = settings_for(RuleSet::all());
    let mut all = String::new(alloc);
    push_all(&mut all, wanted)?;
    has_issues(rt, alloc, facts, &settings, (all.as_str(), "kept files"))
}

/// Adds a file to those of a module, which then has these issues.
fn add_reported(
    rt: &impl Abort,
    alloc: Global,
    facts: &mut Facts,
    (number, text): (u32, &str),
    wanted: &[&str],
) -> Result<(), Fail> {
    add(alloc, facts, number, text)??;
    Ok(reports(rt, alloc, facts, wanted)?)
}

/// A file with its number, and the report when it is added after those before it.
static KEPT: [((u32, &str), &[&str]); 4] = [
    ((0, FIRST), &[OF_FIRST]),
    ((7, SECOND), &[OF_FIRST, OF_SECOND]),
    ((8, LOUDER), &[OF_FIRST, OF_SECOND, OF_LOUDER]),
    ((9, USED), &[OF_FIRST, OF_SECOND, OF_LOUDER]),
];

/// Adds the files one by one to none.
fn adds_each(rt: &impl Abort, alloc: Global, facts: &mut Facts) -> Result<(), Fail> {
    reports(rt, alloc, facts, &[])?;
    for (file, wanted) in &KEPT {
        add_reported(rt, alloc, facts, *file, wanted)?;
    }
    Ok(())
}

#[test]
fn keeps_files(rt: HostRuntime) -> Result<(), Fail> {
    let mut facts = Facts::new(rt.alloc())?;
    adds_each(&rt, rt.alloc(), &mut facts)
}

/// Adds a file to none, and one more; all of its facts are stored, or none.
fn adds_all_or_nothing(rt: &impl Abort, alloc: Global, facts: &mut Facts) -> Result<(), Fail> {
    add_reported(rt, alloc, facts, (0, FIRST), &[OF_FIRST])?;
    let wanted = match add(alloc, facts, 7, SECOND)? {
        Ok(()) => [OF_FIRST, OF_SECOND].as_slice(),
        Err(AllocError) => &[OF_FIRST],
    };
    Ok(reports(rt, alloc, facts, wanted)?)
}

/// Run with a refused growth, it checks that a refused file leaves the facts as they were.
#[test]
fn keeps_nothing_of_a_refused_file(rt: HostRuntime) -> Result<(), Fail> {
    let mut facts = Facts::new(rt.alloc())?;
    adds_all_or_nothing(&rt, rt.alloc(), &mut facts)
}
