//! Identifiers (HCL Native Syntax Specification, "Identifiers").

ghost use Rattle.std.specs.Prelude.{◌≡◌};
ghost use Rattle.std.specs.List.{list_all};
ghost use Rattle.std.specs.Str.{chars};
ghost use Rattle.hcl_tokens.specs.Spelling.{are_ident, continues_ident, starts_ident};

fn starts_ident(c: char) -> bool
    ensures { result ≡ starts_ident c }
{
    unicode_ident::is_xid_start(c) || c == '_'
}

fn continues_ident(c: char) -> bool
    ensures { result ≡ continues_ident c }
{
    unicode_ident::is_xid_continue(c) || c == '-'
}

fn all_continue(text: &str) -> bool
    ensures { result ≡ list_all continues_ident (chars text.now) }
{
    text.chars().all(|c| continues_ident(c))
}

/// Whether a text is an identifier.
pub fn is_identifier(text: &str) -> bool
    ensures { result ≡ are_ident (chars text.now) }
{
    let mut chars = text.chars();
    match chars.next() {
        Some(first) => starts_ident(first) && all_continue(chars.as_str()),
        None => false,
    }
}
