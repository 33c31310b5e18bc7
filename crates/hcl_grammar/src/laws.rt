//! Laws about the definitions alone. No program calls these functions: their contracts are the laws.

ghost use Rattle.std.specs.Prelude.{◌≡◌, ℕ, List, [], ◌∷◌, Option, length};
ghost use Rattle.hcl_tokens.specs.Lexemes.{Lexeme};
ghost use Rattle.hcl_tokens.specs.Scans.{Scans};
ghost use Rattle.hcl_grammar.specs.declared.class.Lookahead.{Lookahead};
ghost use Rattle.hcl_grammar.specs.declared.expected.Newlines.TheVariants.{Seen};
ghost use Rattle.hcl_grammar.specs.declared.refusal.Refusal.{Refusal};
ghost use Rattle.hcl_grammar.specs.Grammar.{file, ◌at◌};
ghost use Rattle.hcl_grammar.specs.Predictor.{refusal_of};
ghost use Rattle.hcl_grammar.specs.Relation.{ComesTo};
ghost use Rattle.hcl_grammar.specs.Verdict.{IsAccepted};
ghost use Rattle.hcl_tokens.specs.Balanced.{IsBalanced};
ghost use Rattle.hcl_grammar.specs.ItemOrder.{Climbs, TopsDisjoint};
ghost use Rattle.hcl_grammar.specs.Items.{outline};

/// In each front of the tokens of a file there are 0 to 256 more openers than closers.
pub fn balanced()
    ensures { (text : List ℕ) (tokens : List Lexeme) → Scans text tokens → IsAccepted tokens
        → IsBalanced tokens }
{}

/// The answer of the grammar as a relation is that of the grammar as a function.
pub fn run_is_answer()
    ensures { (tokens : List Lookahead) (answer : Option Refusal)
        → ComesTo 0 (file at Seen ∷ []) tokens answer → refusal_of tokens ≡ answer }
{}

/// The grammar as a relation has a run with the answer of the grammar as a function.
pub fn answer_has_run()
    ensures { (tokens : List Lookahead) → ComesTo 0 (file at Seen ∷ []) tokens (refusal_of tokens) }
{}

/// Each item begins after the one before it, which includes an attribute's value and a label's or block's first token;
/// no item reaches beyond the tokens.
pub fn climbs()
    ensures { (tokens : List Lexeme) → Climbs 0 (outline tokens) (length tokens) }
{}

/// Each top-level block begins after the end of the one before it.
pub fn blocks_are_disjoint()
    ensures { (tokens : List Lexeme) → TopsDisjoint 0 (outline tokens) (length tokens) }
{}
