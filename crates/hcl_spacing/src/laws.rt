//! Laws of the definitions alone. No program calls these functions: their contracts are the laws.

ghost use Rattle.std.specs.Prelude.{◌≡◌, Option, false, true};
ghost use Rattle.hcl_tokens.specs.Lexemes.{Lexeme};
ghost use Rattle.hcl_tokens.specs.Neighbours.{joins};
ghost use Rattle.hcl_tokens.specs.Regapped.{is_template};
ghost use Rattle.hcl_tokens.specs.SideBySide.{Beside};
ghost use Rattle.hcl_tokens.specs.Kinds.{is};
ghost use Rattle.hcl_tokens.specs.declared.token.Kind.TheVariants.{Dot, Newline};
ghost use Rattle.hcl_spacing.specs.Spacing.{has_blank, follows_kind};

/// Outside heredocs and templates, neighbours are separated if a scan would read them differently side by side.
pub fn neighbours_are_separated()
    ensures { (before : Option Lexeme) (u t : Lexeme) → Beside u.kind t → t.inside_heredoc ≡ false
        → is_template t.kind ≡ false
        → joins (follows_kind (is Dot) before) u.kind t.kind t.text ≡ true
        → has_blank before u t ≡ true }
{}

/// Nothing is added before a newline, inside a heredoc, or where a template continues.
pub fn nothing_is_added()
    ensures newline { (before : Option Lexeme) (u t : Lexeme) → is Newline t.kind ≡ true
        → has_blank before u t ≡ false }
    ensures heredoc { (before : Option Lexeme) (u t : Lexeme) → t.inside_heredoc ≡ true
        → has_blank before u t ≡ false }
    ensures template { (before : Option Lexeme) (u t : Lexeme) → Beside u.kind t
        → t.inside_heredoc ≡ false → is_template t.kind ≡ true → has_blank before u t ≡ false }
{}
