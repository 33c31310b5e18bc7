//! The tokens of templates.

ghost use Rattle.std.specs.Prelude.{◌≡◌, ◌≤◌, Bool, List, length, drop, codes, if◌then◌else◌, IfSome, IfNone, IsUtf8};
ghost use Rattle.std.specs.Str.{IsCharBoundary};
ghost use Rattle.hcl_tokens.specs.Lexemes.{Opener};
ghost use Rattle.hcl_tokens.specs.Spelling.{Template, context, starts};
ghost use Rattle.hcl_scan.specs.Inner.Found.{Finds};
ghost use Rattle.hcl_tokens.specs.Scans.{HasNone};

use crate::found::FoundToken;
use crate::literal::literal_len;
use hcl_tokens::Kind;

/// How many bytes the opener of a sequence at the front has: the longer one if it fits.
fn sequence_open_len(seen: &[u8]) -> usize
    requires { 2 ≤ length seen.now }
    ensures { result ≡ (if starts (drop 2 seen.now) (codes "~") then 3 else 2) }
{
    let (_, after) = seen.split_at(2);
    if after.starts_with(b"~") { 3 } else { 2 }
}

/// The longest token at the front of the visible text of a template.
pub fn next_in_template(seen: &[u8], quoted: bool) -> Option<FoundToken>
    ensures found { IfSome result (λ f. (opens : List Opener) (after_dot : Bool)
        → context opens ≡ Template quoted → Finds opens after_dot seen.now f.kind f.len) }
    ensures none { IfNone result ((opens : List Opener) (after_dot : Bool)
        → context opens ≡ Template quoted → HasNone opens after_dot seen.now) }
    ensures boundary { IsUtf8 seen.now → IfSome result (λ f. IsCharBoundary seen.now f.len) }
{
    if quoted && seen.starts_with(b"\"") {
        return Some(FoundToken {
            kind: Kind::QuoteClose,
            len: 1,
        });
    }
    let len = literal_len(seen, quoted);
    if len > 0 {
        return Some(FoundToken {
            kind: Kind::Lit,
            len,
        });
    }
    if seen.starts_with(b"${") {
        return Some(FoundToken {
            kind: Kind::InterpOpen,
            len: sequence_open_len(seen),
        });
    }
    if seen.starts_with(b"%{") {
        return Some(FoundToken {
            kind: Kind::ControlOpen,
            len: sequence_open_len(seen),
        });
    }
    None
}
