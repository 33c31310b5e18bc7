//! The laws on both programs: formatting the files of a module changes none of its issues. No program calls these
//! functions: their contracts are the laws.
//!
//! They are separate from the linter, so that it doesn't wait for the formatter.
#![tactic(auto)]

ghost use Rattle.std.specs.Prelude.{◌≡◌, ◌≤◌, ℕ, List, length};
ghost use Rattle.std.specs.List.{All, AllZip};
ghost use Rattle.hcl_source.specs.Load.{max_source};
ghost use Rattle.hcl_tokens.specs.Scanned.{Scanned};
ghost use Rattle.command_line.specs.Rows.{Row};
ghost use Rattle.tf_rules.specs.Agreement.{told_all};
ghost use Rattle.tf_rules.specs.Issues as issues;
ghost use Rattle.tfrules_command.specs.Answer.{IsReported};
ghost use Rattle.tfrules_command.specs.Files.{NamedFile, AreAccepted, IsAcceptedAs, max_module, numbered_files, size_of};
ghost use Rattle.tfrules_command.specs.Line.{Request};
ghost use Rattle.agreement.specs.Formatted.{IsFormatted, without_columns};

/// If all files of a module are accepted, whatever its size, so are the formatted files, unless one of them is too
/// large for a source; and a report of the formatted files has the same issues in the same order, with the same lines,
/// rules and messages: columns alone may differ.
pub fn agree_at_any_size()
    ensures accepted { (files formatted : List NamedFile) (sources : List Scanned)
        → AllZip IsAcceptedAs files sources → AllZip IsFormatted files formatted
        → All (λ f. length f.bytes ≤ max_source) formatted
        → (others : List Scanned) × AllZip IsAcceptedAs formatted others }
    ensures reports { (asked : issues.Asked) (files formatted : List NamedFile)
        (sources others : List Scanned) (report other : List issues.Issue)
        → AllZip IsFormatted files formatted
        → AllZip IsAcceptedAs files sources → AllZip IsAcceptedAs formatted others
        → issues.IsReport asked (numbered_files 0 sources) report
        → issues.IsReport asked (numbered_files 0 others) other → told_all report ≡ told_all other }
{}

/// If the files of a module are accepted, so are the formatted files, unless they are too large, and a run over them
/// has the same issues in the same order, with the same lines, rules and messages, and the same status: columns alone
/// may differ.
pub fn agree()
    ensures accepted { (files formatted : List NamedFile) (sources : List Scanned)
        → AreAccepted files sources → AllZip IsFormatted files formatted
        → All (λ f. length f.bytes ≤ max_source) formatted → size_of formatted ≤ max_module
        → (others : List Scanned) × AreAccepted formatted others }
    ensures issues { (request : Request) (files formatted : List NamedFile) (row other : Row)
        → AllZip IsFormatted files formatted
        → (first : IsReported request files row) → (again : IsReported request formatted other)
        → without_columns first.issues ≡ without_columns again.issues }
    ensures status { (request : Request) (files formatted : List NamedFile) (row other : Row)
        → AllZip IsFormatted files formatted
        → IsReported request files row → IsReported request formatted other
        → row.status ≡ other.status }
{}
