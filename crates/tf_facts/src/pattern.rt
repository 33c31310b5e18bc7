//! The patterns of tokens that two rules report, found in one walk from the last token to the first, which finds line
//! comments too. So the walk knows what is ahead of each token:
//!
//! | Token | Ahead of it |
//! |---|---|
//! | a dot | a number: an index |
//! | an opening quote | an interpolation that is closed directly before a closing quote: an interpolation alone |
//! | an opener of an interpolation | for the innermost opener, whether a closing quote is directly after its closer |

ghost use Rattle.std.specs.Prelude.{◌≡◌, ◌++◌, ◌∷◌, [], ℕ, Bool, suc, false, get_or, map, reverse, IfOk, OnOk, if◌then◌else◌};
ghost use Rattle.hcl_tokens.specs.Kinds.{is};
ghost use Rattle.hcl_tokens.specs.declared.token.Kind.TheVariants.{InterpOpen, Number, QuoteClose};
ghost use Rattle.hcl_grammar.specs.Numbered.{number_tokens};
ghost use Rattle.tf_facts.specs.Comments.{comments};
ghost use Rattle.tf_facts.specs.Found.{comment};
ghost use Rattle.tf_facts.specs.Patterns.{legacy_indexes, wrapped_interpolations};
ghost use Rattle.tf_facts.specs.Inner.Closings.{role_of};

use crate::comment::push_comment;
use crate::found::FoundComment;
use crate::role::Role;
use hcl_tokens::{Kind, Nesting, Tokens};
use std::alloc::{AllocError, Global};

fn is_number(kind: Kind) -> bool
    ensures { result ≡ is Number kind }
{
    matches!(kind, Kind::Number)
}

fn is_quote_close(kind: Kind) -> bool
    ensures { result ≡ is QuoteClose kind }
{
    matches!(kind, Kind::QuoteClose)
}

fn is_interpolation(kind: Kind) -> bool
    ensures { result ≡ is InterpOpen kind }
{
    matches!(kind, Kind::InterpOpen)
}

#[inline(always)]
fn role_of(kind: Kind) -> Role
    ensures { result ≡ role_of kind }
{
    match kind {
        Kind::LineComment => Role::LineComment,
        Kind::InlineComment | Kind::Blank | Kind::Newline => Role::PassedOver,
        Kind::Dot => Role::Dot,
        Kind::QuoteOpen => Role::QuoteOpen,
        _ => match kind.nesting() {
            Nesting::Opens => Role::Opens,
            Nesting::Closes => Role::Closes,
            Nesting::Neither => Role::Plain,
        },
    }
}

/// Pops the last flag of the list; without one it is false.
#[inline(always)]
fn take_last(flags: &mut Vec<bool>) -> bool
    ensures taken { result ≡ get_or (reverse flags.old.items) 0 false }
    ensures left { (i : ℕ) (other : Bool)
        → get_or (reverse flags.new.items) i other
        ≡ get_or (reverse flags.old.items) (suc i) other }
{
    match flags.pop() {
        Some(flag) => flag,
        None => false,
    }
}

/// Pushes a number, if the test holds.
#[inline(always)]
fn push_if(list: &mut Vec<usize>, test: bool, number: usize) -> Result<(), AllocError>
    ensures { OnOk result (list.new.items ≡ list.old.items ++ (if test then number ∷ [] else [])) }
{
    if !test {
        return Ok(());
    }
    list.push(number)?;
    Ok(())
}

/// The facts that the walk finds, by the numbers of tokens.
#[derive(Drop)]
pub struct Patterns {
    /// The line comments that rules need.
    pub comments: Vec<FoundComment>,
    /// Dots before numbers.
    pub indexes: Vec<usize>,
    /// Quotes that contain one interpolation alone.
    pub interpolations: Vec<usize>,
}

/// The facts that were found from the last token to the first, in the order of the tokens.
fn in_order(
    mut comments: Vec<FoundComment>,
    mut indexes: Vec<usize>,
    mut interpolations: Vec<usize>,
) -> Patterns
    ensures comments { result.comments.items ≡ reverse comments.items }
    ensures indexes { result.indexes.items ≡ reverse indexes.items }
    ensures interpolations { result.interpolations.items ≡ reverse interpolations.items }
{
    comments.reverse();
    indexes.reverse();
    interpolations.reverse();
    Patterns {
        comments,
        indexes,
        interpolations,
    }
}

/// The patterns of a file and the line comments that rules need, in order.
pub fn found_patterns(alloc: Global, tokens: &Tokens<'_>) -> Result<Patterns, AllocError>
    ensures comments { IfOk result (λ found. map comment found.comments.items
        ≡ comments (number_tokens tokens.now.tokens)) }
    ensures indexes { IfOk result (λ found. found.indexes.items
        ≡ legacy_indexes (number_tokens tokens.now.tokens)) }
    ensures interpolations { IfOk result
        (λ found. found.interpolations.items
        ≡ wrapped_interpolations (number_tokens tokens.now.tokens)) }
{
    let mut comments = Vec::new(alloc);
    let mut indexes = Vec::new(alloc);
    let mut interpolations = Vec::new(alloc);
    let mut openers = Vec::new(alloc);
    // Nothing is ahead of the last token, so this is a kind that no pattern needs.
    let mut next = Kind::Newline;
    // Whether the opener `next`, if it is one, is closed directly before a closing quote.
    let mut is_closed = false;
    let mut number = tokens.len();
    while number > 0 {
        number -= 1;
        let kind = tokens.kind(number);
        match role_of(kind) {
            Role::PassedOver => continue,
            Role::LineComment => {
                push_comment(tokens, number, &mut comments)?;
                continue;
            }
            Role::Plain => {}
            Role::Dot => push_if(&mut indexes, is_number(next), number)?,
            Role::QuoteOpen => {
                let is_alone = is_interpolation(next) & is_closed;
                push_if(&mut interpolations, is_alone, number)?;
            }
            Role::Opens => is_closed = take_last(&mut openers),
            Role::Closes => openers.push(is_quote_close(next))?,
        }
        next = kind;
    }
    Ok(in_order(comments, indexes, interpolations))
}
