//! A position in a token list, and the single tokens that are expected there.

ghost use Rattle.std.specs.Prelude.{◌≡◌, ◌+◌, ◌<◌, ◌≤◌, ◌^◌, ℕ, [], ◌∷◌, ◌++◌, drop, length, Some, None, Ok, IsSome, OnOk, false};
ghost use Rattle.std.specs.Bool.{OnTrue, OnFalse};
ghost use Rattle.hcl_grammar.specs.Classes.{lookaheads, lookaheads_from};
ghost use Rattle.hcl_grammar.specs.Grammar.{fits, ◌at◌, the, expr};
ghost use Rattle.hcl_syntax.specs.Inner.Cursors.{past_newlines, first, after_first, is_shown};
ghost use Rattle.hcl_syntax.specs.Inner.Parsing.{Parses, with_refusal, TookTerminal, LacksTerminal};
ghost use Rattle.hcl_syntax.specs.Inner.Standings.{Consumes};

use crate::class::lookahead_at;
use crate::expected::Refused;
use crate::short::{ends_expression, operand_end};
use hcl_grammar::{Class, Lookahead, Newlines, Refusal, Terminal, Word};
use hcl_tokens::Tokens;
use std::marker::Model;

/// The tokens from some number on, as the grammar sees them, and the last refusal. It is kept here and not passed from
/// call to call, so that a result is one byte, which comes back in a register. The number of tokens is kept too, since
/// otherwise the list's own length is read again after each step: for all the compiler knows, a step might overwrite
/// it.
#[derive(Drop)]
pub struct Cursor<'t, 's> {
    tokens: &'t Tokens<'s>,
    count: usize,
    next: usize,
    refusal: Refusal,
}

impl<'t, 's> Model for Cursor<'t, 's> {
    ghost use Rattle.std.specs.Prelude.{drop, length, ◌≡◌, ◌≤◌};
    ghost use Rattle.hcl_grammar.specs.Classes.{lookaheads_from};
    ghost use Rattle.hcl_syntax.specs.Inner.Standings.{Standing};

    ghost Value = { Standing };

    ghost view = { λ c. record {
      left = lookaheads_from c.next (drop c.next c.tokens.now.tokens);
      refusal = c.refusal;
    } };

    ghost invariant = { λ c. (c.next ≤ c.count) × (c.count ≡ length c.tokens.now.tokens) };
}

/// Whether the grammar sees a token of the class, given whether newlines are shown or dropped.
#[inline(always)]
fn is_shown(newlines: Newlines, class: Class) -> bool
    ensures { result ≡ is_shown newlines class }
{
    match class {
        Class::Trivia => false,
        Class::Newline => matches!(newlines, Newlines::Seen),
        _ => true,
    }
}

/// Whether a token of the class is the one that the terminal expects.
#[inline(always)]
fn fits(terminal: Terminal, class: Class) -> bool
    ensures { result ≡ fits terminal class }
{
    match (terminal, class) {
        (Terminal::Name, Class::Ident(_)) => true,
        (Terminal::InWord, Class::Ident(Word::In)) => true,
        (Terminal::IfWord, Class::Ident(Word::If)) => true,
        (Terminal::ForWord, Class::Ident(Word::For)) => true,
        (Terminal::Equals, Class::Assign) => true,
        (Terminal::Separator, Class::Colon) => true,
        (Terminal::FatArrow, Class::Arrow) => true,
        (Terminal::CommaSign, Class::Comma) => true,
        (Terminal::Ellipses, Class::Ellipsis) => true,
        (Terminal::Asterisk, Class::Star) => true,
        (Terminal::EndParen, Class::ParenClose) => true,
        (Terminal::EndBracket, Class::BracketClose) => true,
        (Terminal::EndBrace, Class::BraceClose) => true,
        (Terminal::EndSequence, Class::SeqClose) => true,
        (Terminal::EndQuote, Class::QuoteClose) => true,
        (Terminal::EndHeredoc, Class::HeredocClose) => true,
        _ => false,
    }
}

/// The number of the first token that is shown, from a number on, and the token; or the number of tokens.
#[inline(always)]
fn find(
    tokens: &Tokens,
    count: usize,
    from: usize,
    newlines: Newlines,
) -> (usize, Option<Lookahead>)
    requires within { from ≤ count }
    requires count { count ≡ length tokens.now.tokens }
    ensures within { result.0 ≤ length tokens.now.tokens }
    ensures left { lookaheads_from result.0 (drop result.0 tokens.now.tokens)
        ≡ past_newlines newlines (lookaheads_from from (drop from tokens.now.tokens)) }
    ensures found { result.1 ≡ first (lookaheads_from result.0 (drop result.0 tokens.now.tokens)) }
{
    let mut number = from;
    while number < count {
        let token = lookahead_at(tokens, number);
        if is_shown(newlines, token.class) {
            return (number, Some(token));
        }
        number += 1;
    }
    (number, None)
}

impl<'t, 's> Cursor<'t, 's> {
    /// All tokens.
    pub fn new(tokens: &'t Tokens<'s>) -> Cursor<'t, 's>
        ensures { result.left ≡ lookaheads tokens.now.tokens }
    {
        Cursor {
            tokens,
            count: tokens.len(),
            next: 0,
            refusal: Refusal::UnexpectedEnd,
        }
    }

    /// Keeps the refusal.
    pub fn keep_refusal(&mut self, refusal: Refusal) -> Refused
        ensures left { self.new.left ≡ self.old.left }
        ensures refusal { self.new.refusal ≡ refusal }
    {
        self.refusal = refusal;
        Refused
    }

    /// The last refusal.
    pub fn refusal(&self) -> Refusal
        ensures { result ≡ self.now.refusal }
    {
        self.refusal
    }

    /// There are fewer tokens than a machine number can count.
    pub fn room(&self)
        ensures { length self.now.left < 2 ^ 64 }
    {
        let _count = self.tokens.len();
    }

    /// The first token, past newlines if these are dropped. It is inlined, so that a caller that needs no word compares
    /// none.
    #[inline(always)]
    pub fn look(&mut self, newlines: Newlines) -> Option<Lookahead>
        ensures left { self.new.left ≡ past_newlines newlines self.old.left }
        ensures found { result ≡ first self.new.left }
        ensures shorter { length self.new.left ≤ length self.old.left }
    {
        let (next, token) = find(self.tokens, self.count, self.next, newlines);
        self.next = next;
        token
    }

    /// Skips the first token, which was looked at. It is inlined, as `look` is.
    #[inline(always)]
    pub fn bump(&mut self, token: Lookahead)
        requires { first self.old.left ≡ Some token }
        ensures left { self.new.left ≡ after_first self.old.left }
        ensures shorter { length self.old.left ≡ length self.new.left + 1 }
    {
        let _count = self.tokens.len();
        self.next = token.number as usize + 1;
    }

    /// Reads an expression that is one short operand, if the token after it shows that it ends there, as it mostly
    /// does:
    ///
    /// ```text
    /// count = var.replicas
    ///         ~~~~~~~~~~~~ and after it a newline
    /// ```
    ///
    /// False means only that these tokens don't show it. This looks at no token for more than two expressions.
    #[inline(always)]
    pub fn takes_short(&mut self, newlines: Newlines) -> bool
        ensures yes { OnTrue result ((count : ℕ)
            → Parses count (expr at newlines ∷ []) self.old.left (Ok (tt {0})) self.new.left) }
        ensures no { OnFalse result (self.new.left ≡ self.old.left) }
        ensures shorter { OnTrue result (length self.new.left < length self.old.left) }
    {
        let Some(end) = operand_end(self.tokens, self.count, self.next) else {
            return false;
        };
        if end >= self.count {
            return false;
        }
        let after = lookahead_at(self.tokens, end);
        if !ends_expression(newlines, after.class) {
            return false;
        }
        self.next = end;
        true
    }

    /// Reads the next token, which has to be the one that the terminal expects. It is inlined, as `look` is.
    #[inline(always)]
    pub fn expect(&mut self, newlines: Newlines, terminal: Terminal) -> Result<(), Refused>
        ensures parses { (count : ℕ) → Parses count (the terminal at newlines ∷ []) self.old.left
            (with_refusal result self.new.refusal) self.new.left }
        ensures shorter { Consumes result self.old self.new }
    {
        match self.look(newlines) {
            None => Err(self.keep_refusal(Refusal::UnexpectedEnd)),
            Some(token) => if fits(terminal, token.class) {
                self.bump(token);
                Ok(())
            } else {
                Err(self.keep_refusal(Refusal::UnexpectedToken(token.number)))
            },
        }
    }

    /// Reads the next token if it is the one that the terminal expects. It is inlined, as `look` is.
    #[inline(always)]
    pub fn takes(&mut self, newlines: Newlines, terminal: Terminal) -> bool
        ensures yes { OnTrue result (TookTerminal newlines terminal self.old.left self.new.left) }
        ensures no { OnFalse result (LacksTerminal newlines terminal self.old.left self.new.left) }
        ensures shorter { length self.new.left ≤ length self.old.left }
        ensures shorter_yes { OnTrue result (length self.new.left < length self.old.left) }
    {
        match self.look(newlines) {
            None => false,
            Some(token) => if fits(terminal, token.class) {
                self.bump(token);
                true
            } else {
                false
            },
        }
    }
}
