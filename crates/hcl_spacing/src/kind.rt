//! Kinds of tokens, as the spacing groups them.

ghost use Rattle.std.specs.Prelude.{◌≡◌};
ghost use Rattle.hcl_tokens.specs.Balanced.{is_opener};
ghost use Rattle.hcl_spacing.specs.Spacing.{is_operator, expects_operand};

use hcl_tokens::{Kind, Nesting};

/// The binary operators and `!`.
pub fn is_operator(kind: Kind) -> bool
    ensures { result ≡ is_operator kind }
{
    matches!(
        kind,
        Kind::Plus
            | Kind::Minus
            | Kind::Star
            | Kind::Slash
            | Kind::Percent
            | Kind::And
            | Kind::Or
            | Kind::Equal
            | Kind::NotEqual
            | Kind::Less
            | Kind::Greater
            | Kind::LessEqual
            | Kind::GreaterEqual
            | Kind::Not
    )
}

/// Marks after which an expression begins.
pub fn expects_operand(kind: Kind) -> bool
    ensures { result ≡ expects_operand kind }
{
    matches!(
        kind,
        Kind::Assign | Kind::Arrow | Kind::Colon | Kind::Comma | Kind::Question
    )
}

pub fn is_opener(kind: Kind) -> bool
    ensures { result ≡ is_opener kind }
{
    matches!(kind.nesting(), Nesting::Opens)
}
