//! The rows of the spacing: for each kind, the kinds that have one blank before them. The words in quotation marks are
//! headings of `docs/STYLE.md`, "Between two words of a line".
//!
//! Two kinds nearly always decide their blank, and every token needs it: so a row is two sets of kinds, with a bit for
//! each kind, and a pair is looked up without a branch.
ghost use Rattle.std.specs.Prelude.{◌≡◌, Option};
ghost use Rattle.hcl_tokens.specs.declared.token.Kind.{Kind};
ghost use Rattle.hcl_spacing.specs.Inner.KindPairs.{has, pair_space, row_answer};

use hcl_tokens::Kind;

/// The answers of a kind for the kinds after it.
#[derive(Clone, Copy)]
struct Row {
    /// These have one blank before them.
    blank: u64,
    /// These need a look at the texts or at the token before.
    asked: u64,
}

const NONE: u64 = 0;

/// "Blanks at the ends of lines" vanish.
const LINE_END: u64 = 1 << Kind::Newline as u64;

/// By "Dots", "Two colons" and "Commas" these have no blank before them, unless they would join.
const MARKS: u64 = 1 << Kind::Dot as u64
    | 1 << Kind::ColonColon as u64
    | 1 << Kind::Comma as u64
    | 1 << Kind::Ellipsis as u64;

/// By "Quotes" neither do these.
const CLOSE: u64 = MARKS | LINE_END | 1 << Kind::Lit as u64 | 1 << Kind::QuoteClose as u64;

/// The closers of a paren, a bracket or a sequence.
const CLOSERS: u64 = 1 << Kind::ParenClose as u64 | 1 << Kind::BracketClose as u64 | SEQUENCE_END;

const SEQUENCE_END: u64 = 1 << Kind::SeqClose as u64;

const SEQUENCES: u64 = 1 << Kind::InterpOpen as u64 | 1 << Kind::ControlOpen as u64;

const PAREN: u64 = 1 << Kind::ParenOpen as u64;

const BRACKET: u64 = 1 << Kind::BracketOpen as u64;

const BRACE: u64 = 1 << Kind::BraceOpen as u64;

const BRACE_END: u64 = 1 << Kind::BraceClose as u64;

const DOT: u64 = 1 << Kind::Dot as u64;

const DOTS: u64 = DOT | 1 << Kind::Ellipsis as u64;

/// By "Indexes" `[` hugs the indexed value.
const AFTER_OPERAND: u64 = !(CLOSE | CLOSERS | BRACKET);

#[inline(always)]
fn has(kinds: u64, kind: Kind) -> bool
    ensures { result ≡ has kinds kind }
{
    (kinds >> kind as u64) & 1 == 1
}

/// A row in which the kinds always decide.
#[inline(always)]
fn decided_row(blank: u64) -> Row
    ensures { result ≡ record { blank = blank; asked = 0 } }
{
    Row { blank, asked: NONE }
}

/// The row of a kind.
#[inline(always)]
fn row_of(left: Kind) -> Row
    ensures { (right : Kind) → row_answer result right ≡ pair_space left right }
{
    match left {
        // "Not", "Minus": a sign hugs its operand. The token before shows a sign, and a `!` may not join a `=`
        Kind::Not => Row {
            blank: NONE,
            asked: !LINE_END,
        },
        Kind::Minus => Row {
            blank: NONE,
            asked: !CLOSE,
        },
        // "All else", but a `:` may not join another
        Kind::Colon => Row {
            blank: !(CLOSE | CLOSERS),
            asked: (CLOSE | CLOSERS) & !LINE_END,
        },
        // "Quotes": a blank there would be text; "Two colons": a name is one thing to its reader
        Kind::QuoteOpen | Kind::Lit | Kind::ColonColon => decided_row(NONE),
        // "Dots": so are attributes of attributes; but two dots would be read as another mark
        Kind::Dot => decided_row(DOTS),
        // "Commas": they separate the token after them from the rest, but not from a comma or dots
        Kind::Comma => decided_row(!(MARKS | LINE_END)),
        // "Brackets, parentheses": they hug their contents; "Braces": a closing brace never does
        Kind::ParenOpen | Kind::BracketOpen => decided_row(BRACE_END),
        // "Braces": a blank on the inner side, and none in an empty pair
        Kind::BraceOpen => decided_row(!(CLOSE | BRACE_END)),
        // "Brackets, parentheses": these hug their contents; "Braces": except a brace, since `${{` reads badly. By "A
        // number and a dot" an opener would join the `~` of its closer
        Kind::InterpOpen | Kind::ControlOpen => Row {
            blank: BRACE | BRACE_END,
            asked: SEQUENCE_END,
        },
        // "Quotes and templates": a blank between a sequence and the next would be text
        Kind::SeqClose => decided_row(!(CLOSE | CLOSERS | SEQUENCES)),
        // "Braces": `}}` reads badly at the end of a template
        Kind::BraceClose => decided_row(AFTER_OPERAND | SEQUENCE_END),
        // "A number and a dot": they could be read as one number, unless a dot stands before both
        Kind::Number => Row {
            blank: AFTER_OPERAND,
            asked: DOT,
        },
        // "Calls": a name hugs its parenthesis. By "`in`" that word has a blank after it, while an index hugs a name,
        // and a closer its contents
        Kind::Ident => Row {
            blank: !(CLOSE | PAREN),
            asked: BRACKET | CLOSERS,
        },
        Kind::QuoteClose | Kind::ParenClose | Kind::BracketClose => decided_row(AFTER_OPERAND),
        // "All else" has one blank, except before a closer and before kinds without a blank before them
        _ => decided_row(!(CLOSE | CLOSERS)),
    }
}

/// The answer of two kinds alone, outside heredocs.
#[inline(always)]
pub fn pair_space(left: Kind, right: Kind) -> Option<bool>
    ensures { result ≡ pair_space left right }
{
    let row = row_of(left);
    if has(row.asked, right) {
        return None;
    }
    Some(has(row.blank, right))
}
