//! Laws of the definitions alone. No program calls these functions: their contracts are the laws.

ghost use Rattle.std.specs.Prelude.{◌≡◌, ◌⊎◌, ◌<◌, ◌≤◌, ◌+◌, ◌==◌, ◌++◌, ℕ, Bool, true, false, IsTrue, IsFalse, IsUtf8, IfSome, IfNone, List, [], ◌∷◌, length, take, drop, count_by};
ghost use Rattle.std.specs.List.{flat_map};
ghost use Rattle.hcl_tokens.specs.Spelling.{IsSpelling};
ghost use Rattle.hcl_tokens.specs.Lexemes.{Lexeme, Opener, open_after_all, in_heredoc, marker_of, max_open};
ghost use Rattle.hcl_tokens.specs.Scans.{Scans, State, Next, Run, IsLongest, IsFirstMarkerLine, Hidden, hides, at_line_end, skip_blanks};
ghost use Rattle.hcl_tokens.specs.Neighbours.{stays};
ghost use Rattle.hcl_tokens.specs.Regapped.{AllFit, placed_tokens, text_with_gaps, without_gaps};
ghost use Rattle.hcl_tokens.specs.SideBySide.{AreTexts, Besides};
ghost use Rattle.hcl_scan.specs.InHeredocs.{ReadsToo, SameInside};
ghost use Rattle.hcl_tokens.specs.declared.token.Kind.TheVariants.{Newline, HeredocOpen};
ghost use Rattle.hcl_tokens.specs.Kinds.{is};
ghost use Rattle.hcl_tokens.specs.Faults.{IsScanFault};
ghost use Rattle.hcl_source.specs.Places.{line_of};
ghost use Rattle.hcl_source.specs.Load.{max_source, IsText, IsLoadFault, has_byte_order_mark};
ghost use Rattle.hcl_source.specs.declared.fault.Fault.{Fault};
ghost use Rattle.hcl_source.specs.declared.fault.FaultKind.{FaultKind};
ghost use Rattle.hcl_tokens.specs.declared.token.Kind.{Kind};

use crate::scanner::Scanner;
use crate::stack::StackStorage;
pub use hcl_source::laws::{fault_or_text, one_load_fault, text_or_fault};

/// A text is a list of tokens or has a scan fault. The body shows it: it scans, and keeps nothing.
pub fn list_or_fault(text: &str)
    requires { length text.now ≤ max_source }
    ensures { ((ts : List Lexeme) × Scans text.now ts)
        ⊎ ((kind : FaultKind) × (at : ℕ) × IsScanFault text.now kind at) }
{
    let mut room = StackStorage::new();
    let mut scanner = Scanner::new(text, &mut room);
    while let Some(read) = scanner.next_token() {
        match read {
            Ok(_) => {}
            Err(_) => return,
        }
    }
}

/// A text, scanned or not, is at most one list of tokens.
pub fn one_list()
    ensures { (text : List ℕ) (ts us : List Lexeme) → Scans text ts → Scans text us → ts ≡ us }
{}

/// A text has at most one fault, of one kind at one place.
pub fn one_fault()
    ensures { (text : List ℕ) (kind other : FaultKind) (at there : ℕ) → IsScanFault text kind at
        → IsScanFault text other there → (kind ≡ other) × (at ≡ there) }
{}

/// A text that has a fault is no list of tokens.
pub fn fault_or_list()
    ensures { (text : List ℕ) (kind : FaultKind) (at : ℕ) (ts : List Lexeme)
        → IsScanFault text kind at → ¬ Scans text ts }
{}

/// The open constructs after a list of tokens are a function of the list.
pub fn context_of_list()
    ensures { (s : State) (ts : List Lexeme) (end : State) → Run s ts end
        → end.opens ≡ open_after_all s.opens ts }
{}

/// After each front of a text's list of tokens at most `max_open` constructs are open.
pub fn open_constructs_are_bounded()
    ensures { (text : List ℕ) (front back : List Lexeme) → Scans text (front ++ back)
        → length (open_after_all [] front) ≤ max_open }
{}

/// The test of kinds leaves out no kind.
pub fn all_kinds_told()
    ensures { (kind : Kind) → is kind kind ≡ true }
{}

/// At one place a text has one kind, and no token is empty.
pub fn one_kind()
    ensures one_kind { (opens : List Opener) (after_dot : Bool) (kind other : Kind)
        (text rest : List ℕ) → IsSpelling opens after_dot kind text rest
        → IsSpelling opens after_dot other text rest → kind ≡ other }
    ensures nonempty { (opens : List Opener) (after_dot : Bool) (kind : Kind) (text rest : List ℕ)
        → IsSpelling opens after_dot kind text rest → 0 < length text }
{}

/// Outside heredocs a token that was the longest before one text is the longest before another,
/// except where the table of neighbours says that they join.
pub fn neighbours()
    ensures { (opens : List Opener) (after_dot : Bool) (kind : Kind) (text rest other : List ℕ)
        → IsFalse (in_heredoc opens)
        → IsLongest opens after_dot (text ++ rest) kind text rest
        → IsTrue (stays after_dot kind rest other)
        → IsLongest opens after_dot (text ++ other) kind text other }
{}

/// Text after the marker line of a heredoc doesn't move it, as long as it ends the line.
pub fn marker_line_kept()
    ensures { (opens : List Opener) (after_dot : Bool) (text rest after : List ℕ) (n : ℕ)
        → IsSpelling opens after_dot HeredocOpen text rest
        → IsFirstMarkerLine (marker_of text) rest n → IsTrue (at_line_end (skip_blanks after))
        → IsFirstMarkerLine (marker_of text)
        (take n rest ++ ((hides (marker_of text) (drop n rest)).closer ++ after)) n }
{}

/// The facts of adjacent tokens in a scan.
pub fn side_by_side()
    ensures { (text : List ℕ) (ts : List Lexeme) → Scans text ts → Besides Newline ts }
{}

/// The tokens of a text with other gaps between them are scanned again, if these gaps fit.
pub fn other_gaps()
    ensures { (text : List ℕ) (ps : List (ℕ × Lexeme)) → Scans text (without_gaps ps)
        → AllFit false Newline ps → Scans (text_with_gaps ps) (placed_tokens 0 ps) }
{}

/// The tokens of a text that is UTF-8 are UTF-8, and the first begins with no byte order mark.
pub fn texts()
    ensures utf8 { (text : List ℕ) (ts : List Lexeme) → IsUtf8 text → Scans text ts → AreTexts ts }
    ensures unmarked { (text : List ℕ) (t : Lexeme) (ts : List Lexeme) (more : List ℕ)
        → Scans text (t ∷ ts) → IsFalse (has_byte_order_mark (t.text ++ more)) }
{}

/// Inside an outermost heredoc the tokens are the same, whatever text follows it.
pub fn heredoc_kept()
    ensures { (other : List ℕ) (s twin : State) (t : Lexeme) (next : State)
        → SameInside other s twin → IsTrue (in_heredoc s.opens) → 0 < length s.hidden
        → 0 < length next.hidden → Next s t next → ReadsToo other twin t next }
{}

/// The line of a token is 1 plus the LFs in the texts before it: gaps end no line.
pub fn line_of_token()
    ensures { (text : List ℕ) (front : List Lexeme) (t : Lexeme) (back : List Lexeme)
        → Scans text (front ++ t ∷ back)
        → line_of text t.start ≡ 1 + count_by (λ b. b == 10) (flat_map (λ u. u.text) front) }
{}
