//! Laws of the definitions alone. No program calls these functions: their contracts are the laws.

ghost use Rattle.std.specs.Prelude.{◌≡◌, ℕ, List, map};
ghost use Rattle.command_line.specs.Rows.{Row};
ghost use Rattle.tffmt_command.specs.Answer.{IsAnswer};
ghost use Rattle.tffmt_command.specs.PrintAgain.{AskForCheck, AskForPrint, row_of_check, row_of_print};

use hcl_scan::laws::{list_or_fault, text_or_fault};

/// A line of words and an input have an answer. The body shows it: it takes both as values, loads and scans, and keeps
/// nothing.
pub fn an_answer(words: &[&str], input: &[u8])
    ensures { (row : Row) × IsAnswer (map (λ word. word.now) words.now) input.now row }
{
    let _ = words;
    match text_or_fault(input) {
        Some(text) => list_or_fault(text),
        None => {}
    }
}

/// A line of words and an input have one answer at most.
pub fn one_answer()
    ensures { (words : List (List ℕ)) (input : List ℕ) (row other : Row) → IsAnswer words input row
        → IsAnswer words input other → row ≡ other }
{}

/// A print that a run gave with status 0, other than help, gives itself as the input of a later run, with an empty
/// standard error and status 0. A check of it gives nothing and status 0.
pub fn printed_twice()
    ensures printed { (words later : List (List ℕ)) (input : List ℕ) (row : Row) → AskForPrint words
        → AskForPrint later → IsAnswer words input row
        → row.status ≡ 0 → IsAnswer later row.out (row_of_print row.out) }
    ensures formatted { (words later : List (List ℕ)) (input : List ℕ) (row : Row)
        → AskForPrint words → AskForCheck later → IsAnswer words input row
        → row.status ≡ 0 → IsAnswer later row.out row_of_check }
{}
