//! A law of the definitions alone. No program calls this function: its contract is the law. The laws of a print that is
//! scanned again are in `text_format`.

ghost use Rattle.std.specs.Prelude.{◌≡◌, List, length};
ghost use Rattle.hcl_tokens.specs.Lexemes.{Lexeme};
ghost use Rattle.hcl_layout.specs.Gaps.{gaps};

/// There is one gap for each token, so a print leaves no token out.
pub fn one_gap_each()
    ensures { (ts : List Lexeme) → length (gaps ts) ≡ length ts }
{}
