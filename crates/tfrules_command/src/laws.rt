//! Laws of the definitions alone. No program calls these functions: their contracts are the laws.

ghost use Rattle.std.specs.Prelude.{◌≡◌, ℕ, List, map};
ghost use Rattle.command_line.specs.Rows.{Row};
ghost use Rattle.tf_rules.specs.declared.issue.Issue.{Issue};
ghost use Rattle.tfrules_command.specs.AnswerLaws.{AreNamed, IsAnswer, named_file};
ghost use Rattle.tfrules_command.specs.Files.{NamedFile};
ghost use Rattle.tfrules_command.specs.Line.{Request, options_of};
ghost use Rattle.tfrules_command.specs.Report.{status};
ghost use Rattle.tfrules_command.specs.Inner.Outcomes.{HasOutcome};

use hcl_scan::laws::{list_or_fault, text_or_fault};

/// Bytes have a load fault, or are a text with an outcome. The body shows it: it loads and scans, and keeps nothing.
fn show_outcome(bytes: &[u8])
    ensures { HasOutcome bytes.now }
{
    match text_or_fault(bytes) {
        Some(text) => list_or_fault(text),
        None => {}
    }
}

/// A line of words and the files that it names have an answer. The body shows it for files given as values: it loads
/// and scans each.
pub fn an_answer(words: &[&str], files: &[(&str, &[u8])])
    ensures { let line = map (λ word. word.now) words.now in
        let given = map (λ file. named_file file.0.now file.1.now) files.now in
        AreNamed (options_of line) given → (row : Row) × IsAnswer line given row }
{
    let _ = words;
    for file in files {
        show_outcome(file.1);
    }
}

/// A line of words and the files that it names have one answer at most.
pub fn one_answer()
    ensures { (words : List (List ℕ)) (files : List NamedFile) (row other : Row)
        → IsAnswer words files row → IsAnswer words files other → row ≡ other }
{}

/// The status of a report depends only on the rules of its issues.
pub fn status_by_rules()
    ensures { (asking : Request) (issues others : List Issue)
        → map (λ i. i.rule) issues ≡ map (λ i. i.rule) others
        → status asking issues ≡ status asking others }
{}
