//! Laws of a print: it is scanned to the same tokens, printing twice changes nothing, and files of the earlier tables
//! are read and printed as before. No program calls these functions: their contracts are the laws.
//!
//! They are separate from the layout, since they need the laws of a scan, and its code doesn't.

ghost use Rattle.std.specs.Prelude.{◌≡◌, ◌≤◌, ℕ, List, length};
ghost use Rattle.hcl_tokens.specs.Lexemes.{Lexeme};
ghost use Rattle.hcl_tokens.specs.Scans.{Scans};
ghost use Rattle.text_format.specs.Older.Prints.{was_print};
ghost use Rattle.text_format.specs.Older.Rows.{WasAccepted};
ghost use Rattle.text_format.specs.Older.Tokens.{HasNoPath, WasScanned};
ghost use Rattle.hcl_layout.specs.Print.{print};
ghost use Rattle.text_format.specs.Reprinted.{printed_tokens};
ghost use Rattle.hcl_grammar.specs.Classes.{lookaheads};
ghost use Rattle.hcl_grammar.specs.Numbered.{number_tokens};
ghost use Rattle.hcl_grammar.specs.Verdict.{IsAccepted, start_of};
ghost use Rattle.hcl_source.specs.Load.{IsText, max_source};
ghost use Rattle.hcl_source.specs.Places.{line_of};

/// A print is scanned to the tokens that make it: none join, split or change their kind.
pub fn rescan()
    ensures { (text : List ℕ) (ts : List Lexeme) → Scans text ts
        → Scans (print ts) (printed_tokens ts) }
{}

/// The tokens of a print print it again, and the grammar sees them as it saw the first tokens.
pub fn print_kept()
    ensures again { (ts : List Lexeme) → print (printed_tokens ts) ≡ print ts }
    ensures seen { (ts : List Lexeme) → lookaheads (printed_tokens ts) ≡ lookaheads ts }
{}

/// Printing twice changes nothing: a print that isn't too large is a source, its tokens are a file,
/// and their print is the same.
pub fn print_is_idempotent()
    ensures { (text : List ℕ) (ts : List Lexeme) → IsText text → Scans text ts → IsAccepted ts
        → length (print ts) ≤ max_source
        → IsText (print ts) × Scans (print ts) (printed_tokens ts) × IsAccepted (printed_tokens ts)
        × (print (printed_tokens ts) ≡ print ts) }
{}

/// A print has the tokens of its text, by kind and text in the same order, and each on the same line.
pub fn same_lines()
    ensures tokens { (text : List ℕ) (ts us : List Lexeme) → Scans text ts → Scans (print ts) us
        → number_tokens us ≡ number_tokens ts }
    ensures lines { (text : List ℕ) (ts us : List Lexeme) → Scans text ts → Scans (print ts) us
        → (n : ℕ) → line_of (print ts) (start_of us n) ≡ line_of text (start_of ts n) }
{}

/// A text that was accepted by the tables before names with `::` has the same tokens by those of
/// now, is accepted, and has the same print.
pub fn older_files()
    ensures { (text : List ℕ) (ts : List Lexeme) → WasScanned text ts → WasAccepted ts
        → Scans text ts × IsAccepted ts × (was_print ts ≡ print ts) }
{}

/// Before names with `::` existed, a text without `::` was scanned to the same tokens, and accepted if it is accepted
/// now: so [`older_files`] covers all such files.
pub fn older_without_paths()
    ensures scanned { (text : List ℕ) (ts : List Lexeme) → Scans text ts → HasNoPath ts
        → WasScanned text ts }
    ensures accepted { (ts : List Lexeme) → IsAccepted ts → HasNoPath ts → WasAccepted ts }
{}
