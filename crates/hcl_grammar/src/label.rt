//! The texts of labels.

ghost use Rattle.std.specs.Prelude.{◌≡◌, ◌<◌, ◌+◌, length, drop};
ghost use Rattle.hcl_tokens.specs.Kinds.{is};
ghost use Rattle.hcl_tokens.specs.declared.token.Kind.TheVariants.{Lit};
ghost use Rattle.hcl_grammar.specs.Labels.{first_literal, label_text};
ghost use Rattle.hcl_grammar.specs.Numbered.{number_tokens};

use crate::accepted::Accepted;
use crate::item::Label;
use hcl_tokens::{Kind, Tokens};

fn is_lit(kind: Kind) -> bool
    ensures { result ≡ is Lit kind }
{
    matches!(kind, Kind::Lit)
}

/// The text of the token after this number if it is a literal, else nothing.
fn literal_after<'s>(tokens: &Tokens<'s>, number: usize) -> &'s str
    requires { number < length tokens.now.tokens }
    ensures { result.now ≡ first_literal (drop (number + 1) (number_tokens tokens.now.tokens)) }
{
    let count = tokens.len();
    let next = number + 1;
    if next >= count {
        return "";
    }
    let token = tokens.get(next);
    if !is_lit(token.kind) {
        return "";
    }
    token.text
}

/// The text of a label: the identifier, or the literal as written.
pub fn label_text<'s>(accepted: &Accepted<'_, 's>, label: &Label) -> &'s str
    requires { label.now.first < length accepted.now.tokens }
    ensures { result.now ≡ label_text (number_tokens accepted.now.tokens) label.now }
{
    let tokens = accepted.tokens();
    if label.first == label.last {
        let token = tokens.get(label.first);
        return token.text;
    }
    literal_after(tokens, label.first)
}
