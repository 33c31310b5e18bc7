//! Laws about the definitions alone. No program calls these functions: their contracts are the laws.

ghost use Rattle.std.specs.Prelude.{◌≡◌, ◌++◌, ◌∷◌, ◌+◌, ◌≤◌, ◌<◌, [], ℕ, List, Some, length, slice_get};
ghost use Rattle.std.specs.List.{AllZip};
ghost use Rattle.tf_rules.specs.Issues.{Asked, File, Issue, IsReport, issues};
ghost use Rattle.tf_rules.specs.Agreement.{SameTokens, told_all};
ghost use Rattle.hcl_tokens.specs.Lexemes.{Lexeme};
ghost use Rattle.hcl_tokens.specs.Scans.{Scans};
ghost use Rattle.hcl_grammar.specs.Verdict.{IsAccepted, start_of};
ghost use Rattle.hcl_grammar.specs.Items.{outline};
ghost use Rattle.hcl_grammar.specs.Labels.{label_text};
ghost use Rattle.hcl_grammar.specs.Numbered.{number_tokens};
ghost use Rattle.hcl_grammar.specs.declared.item.Item.TheVariants as item;
ghost use Rattle.hcl_grammar.specs.declared.item.Label.{Label};
ghost use Rattle.tf_rules.specs.AsWritten.{IsAsWritten, between_quotes};
ghost use Rattle.tf_rules.specs.Growth.{entries, name_bytes};
ghost use Rattle.tf_rules.specs.Stored.{Stored, stored_of, with_file};
ghost use Rattle.tf_rules.specs.StoredIssues.{issues_of_stored};

pub use tf_facts::laws::variable_blocks_are_disjoint;

/// The stored facts of files and one more are a function of the stored facts of the files, and of that one.
pub fn stored_of_more()
    ensures { (files : List File) (file : File)
        → stored_of (files ++ file ∷ []) ≡ with_file (stored_of files) file }
{}

/// One more file adds at most as many stored entries, of all kinds together, as it has tokens.
pub fn stored_entries_bounded()
    ensures { (kept : Stored) (file : File)
        → entries (with_file kept file) ≤ entries kept + length file.source.tokens }
{}

/// One more file that is scanned and accepted adds stored texts with at most as many bytes as the file.
pub fn stored_names_bounded()
    ensures { (kept : Stored) (file : File) → Scans file.source.text file.source.tokens
        → IsAccepted file.source.tokens
        → name_bytes (with_file kept file) ≤ name_bytes kept + length file.source.text }
{}

/// The issues of files are a function of their stored facts.
pub fn issues_of_stored()
    ensures { (asked : Asked) (files : List File)
        → issues asked files ≡ issues_of_stored asked (stored_of files) }
{}

/// Files have at most one ordered list of issues.
pub fn one_report()
    ensures { (asked : Asked) (files : List File) (report other : List Issue)
        → IsReport asked files report → IsReport asked files other → report ≡ other }
{}

/// Files with the same tokens, by kind and text, on the same lines have the same issues, apart from columns.
pub fn issues_agree()
    ensures { (asked : Asked) (files others : List File) → AllZip SameTokens files others
        → told_all (issues asked files) ≡ told_all (issues asked others) }
{}

/// Files with the same tokens on the same lines have the same ordered list of issues, apart from columns.
pub fn reports_agree()
    ensures { (asked : Asked) (files others : List File) (report other : List Issue)
        → AllZip SameTokens files others
        → IsReport asked files report → IsReport asked others other
        → told_all report ≡ told_all other }
{}

/// Tokens begin in the order of their numbers.
pub fn starts_rise()
    ensures { (text : List ℕ) (tokens : List Lexeme) → Scans text tokens → (i j : ℕ) → i ≤ j
        → j < length tokens → start_of tokens i ≤ start_of tokens j }
{}

/// Between the quotes of a label of a file there is nothing, or one literal, which is its text as written.
pub fn one_literal()
    ensures { (text : List ℕ) (tokens : List Lexeme) → Scans text tokens → IsAccepted tokens
        → (i : ℕ) (l : Label) → slice_get (outline tokens) i ≡ Some (item.Label l)
        → l.first < l.last → IsAsWritten (between_quotes (number_tokens tokens) l)
        (label_text (number_tokens tokens) l) }
{}
