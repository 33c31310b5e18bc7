//! Expressions. The functions of the cycle call each other only after an opener or in an open directive, so the depth
//! of the recursion is bounded; everything that can be chained without an opener is a loop with a count.

ghost use Rattle.std.specs.Prelude.{◌≡◌, ◌+◌, ◌<◌, ◌≤◌, ◌^◌, ℕ, List, [], ◌∷◌, ◌++◌, length, Some, None, Ok, OnOk, IfOk, IfSome, true, false};
ghost use Rattle.std.specs.Bool.{OnTrue, OnFalse};
ghost use Rattle.hcl_syntax.specs.Inner.Cursors.{past_newlines, first};
ghost use Rattle.hcl_grammar.specs.Grammar.{◌at◌, the, expr, after, after_ident, path, index, args, tuple, tuple_item, tuple_if, object, object_item, group, object_if, separator, names, step};
ghost use Rattle.hcl_syntax.specs.Inner.Parsing.{Advances, Parses, with_refusal, after_follow, has_next_operand, is_prefix};
ghost use Rattle.hcl_syntax.specs.Inner.Standings.{Consumes, NeverReturns};
ghost use Rattle.hcl_grammar.specs.declared.expected.Terminal.TheVariants.{Name, Separator, FatArrow, EndBracket, EndBrace};
ghost use Rattle.hcl_grammar.specs.declared.expected.Newlines.TheVariants.{Seen, Dropped};

use crate::cursor::Cursor;
use crate::expected::{Follow, Refused};
use hcl_grammar::{Class, Lookahead, Newlines, Refusal, Terminal};

impl<'t, 's> Cursor<'t, 's> {
    /// Skips the signs before an operand, and looks at the token after them.
    fn start(&mut self, newlines: Newlines) -> Option<Lookahead>
        ensures leads { (count : ℕ) → Advances count (expr at newlines ∷ []) self.old.left
            (Ok (tt {0})) (expr at newlines ∷ []) self.new.left }
        ensures left { self.new.left ≡ past_newlines newlines self.new.left }
        ensures found { result ≡ first self.new.left }
        ensures plain { IfSome result (λ t. is_prefix t.class ≡ false) }
        ensures shorter { length self.new.left ≤ length self.old.left }
    {
        loop {
            let token = self.look(newlines)?;
            match token.class {
                Class::Minus | Class::Not => self.bump(token),
                _ => return Some(token),
            }
        }
    }

    /// An expression up to where its first operand ends.
    #[cycle(parser)]
    #[inline(always)]
    fn operand(&mut self, newlines: Newlines, directives: usize) -> Result<(), Refused>
        ensures leads { Advances directives (expr at newlines ∷ []) self.old.left
            (with_refusal result self.new.refusal) (after at newlines ∷ []) self.new.left }
        ensures shorter { Consumes result self.old self.new }
    {
        let Some(token) = self.start(newlines) else {
            return Err(self.keep_refusal(Refusal::UnexpectedEnd));
        };
        match token.class {
            Class::Number(_) => {
                self.bump(token);
                Ok(())
            }
            Class::Ident(_) => {
                self.bump(token);
                self.call(newlines, directives)
            }
            Class::ParenOpen => {
                self.bump(token);
                self.expr(Newlines::Dropped, directives)?;
                self.expect(Newlines::Dropped, Terminal::EndParen)
            }
            Class::BracketOpen => {
                self.bump(token);
                self.tuple(directives)
            }
            Class::BraceOpen => {
                self.bump(token);
                self.object(directives)
            }
            Class::QuoteOpen => {
                self.bump(token);
                self.parts(newlines, directives)?;
                self.expect(newlines, Terminal::EndQuote)
            }
            Class::HeredocOpen => {
                self.bump(token);
                self.parts(newlines, directives)?;
                self.expect(newlines, Terminal::EndHeredoc)
            }
            _ => Err(self.keep_refusal(Refusal::UnexpectedToken(token.number))),
        }
    }

    /// The tokens that may follow an identifier.
    #[cycle(parser)]
    #[inline(always)]
    fn call(&mut self, newlines: Newlines, directives: usize) -> Result<(), Refused>
        ensures leads { Advances directives (after_ident at newlines ∷ []) self.old.left
            (with_refusal result self.new.refusal) (after at newlines ∷ []) self.new.left }
        ensures shorter { NeverReturns result self.old self.new }
    {
        let Some(token) = self.look(newlines) else {
            return Ok(());
        };
        match token.class {
            Class::ParenOpen => {
                self.bump(token);
                self.args(directives)
            }
            Class::ColonColon => {
                self.bump(token);
                self.path(newlines)?;
                self.args(directives)
            }
            _ => Ok(()),
        }
    }

    /// The further names of a function after its first `::`, and the parenthesis of its call.
    fn path(&mut self, newlines: Newlines) -> Result<(), Refused>
        ensures leads { (count : ℕ) → Advances count
            (the Name at newlines ∷ path at newlines ∷ []) self.old.left
            (with_refusal result self.new.refusal) (args at Dropped ∷ after at newlines ∷ [])
            self.new.left }
        ensures shorter { NeverReturns result self.old self.new }
    {
        loop {
            self.expect(newlines, Terminal::Name)?;
            let Some(token) = self.look(newlines) else {
                return Err(self.keep_refusal(Refusal::UnexpectedEnd));
            };
            match token.class {
                Class::ColonColon => self.bump(token),
                Class::ParenOpen => {
                    self.bump(token);
                    return Ok(());
                }
                _ => return Err(self.keep_refusal(Refusal::UnexpectedToken(token.number))),
            }
        }
    }

    /// The tokens after an operand, up to the next expected operand.
    #[cycle(parser)]
    #[inline(always)]
    fn follow(&mut self, newlines: Newlines, directives: usize) -> Result<Follow, Refused>
        ensures leads { Advances directives (after at newlines ∷ []) self.old.left
            (with_refusal result self.new.refusal) (after_follow newlines result) self.new.left }
        ensures shorter { NeverReturns result self.old self.new }
        ensures onward { IfOk result (λ f. has_next_operand f ≡ true
            → length self.new.left < length self.old.left) }
    {
        loop {
            let Some(token) = self.look(newlines) else {
                return Ok(Follow::Other);
            };
            match token.class {
                Class::Dot => {
                    self.bump(token);
                    self.step(newlines)?;
                }
                Class::BracketOpen => {
                    self.bump(token);
                    self.index(directives)?;
                }
                Class::Minus | Class::Star | Class::Binary => {
                    self.bump(token);
                    return Ok(Follow::Operator);
                }
                Class::Question => {
                    self.bump(token);
                    return Ok(Follow::Choice);
                }
                _ => return Ok(Follow::Other),
            }
        }
    }

    /// An index after its bracket.
    #[cycle(parser)]
    #[inline(always)]
    fn index(&mut self, directives: usize) -> Result<(), Refused>
        ensures parses { Parses directives (index at Dropped ∷ []) self.old.left
            (with_refusal result self.new.refusal) self.new.left }
        ensures shorter { Consumes result self.old self.new }
    {
        if self.takes(Newlines::Dropped, Terminal::Asterisk) {
            return self.expect(Newlines::Dropped, Terminal::EndBracket);
        }
        self.expr(Newlines::Dropped, directives)?;
        self.expect(Newlines::Dropped, Terminal::EndBracket)
    }

    /// An expression, with a number of open directives. It is inlined, so that a short operand makes no call.
    #[cycle(parser)]
    #[inline(always)]
    pub fn expr(&mut self, newlines: Newlines, directives: usize) -> Result<(), Refused>
        ensures parses { Parses directives (expr at newlines ∷ []) self.old.left
            (with_refusal result self.new.refusal) self.new.left }
        ensures shorter { Consumes result self.old self.new }
    {
        if self.takes_short(newlines) {
            return Ok(());
        }
        self.whole_expr(newlines, directives)
    }

    /// An expression of any length. It counts the `?` that still need their `:`.
    #[cycle(parser)]
    #[inline(never)]
    fn whole_expr(&mut self, newlines: Newlines, directives: usize) -> Result<(), Refused>
        ensures parses { Parses directives (expr at newlines ∷ []) self.old.left
            (with_refusal result self.new.refusal) self.new.left }
        ensures shorter { Consumes result self.old self.new }
    {
        self.room();
        let mut waiting: usize = 0;
        loop {
            self.operand(newlines, directives)?;
            match self.follow(newlines, directives)? {
                Follow::Operator => {}
                Follow::Choice => waiting += 1,
                Follow::Other => {
                    if waiting == 0 {
                        return Ok(());
                    }
                    self.expect(newlines, Terminal::Separator)?;
                    waiting -= 1;
                }
            }
        }
    }

    /// The arguments of a call after its parenthesis.
    #[cycle(parser)]
    fn args(&mut self, directives: usize) -> Result<(), Refused>
        ensures parses { Parses directives (args at Dropped ∷ []) self.old.left
            (with_refusal result self.new.refusal) self.new.left }
        ensures shorter { Consumes result self.old self.new }
    {
        loop {
            if self.takes(Newlines::Dropped, Terminal::EndParen) {
                return Ok(());
            }
            self.expr(Newlines::Dropped, directives)?;
            let Some(token) = self.look(Newlines::Dropped) else {
                return Err(self.keep_refusal(Refusal::UnexpectedEnd));
            };
            match token.class {
                Class::Comma => self.bump(token),
                Class::Ellipsis => {
                    self.bump(token);
                    return self.expect(Newlines::Dropped, Terminal::EndParen);
                }
                Class::ParenClose => {
                    self.bump(token);
                    return Ok(());
                }
                _ => return Err(self.keep_refusal(Refusal::UnexpectedToken(token.number))),
            }
        }
    }

    /// A tuple after its bracket.
    #[cycle(parser)]
    fn tuple(&mut self, directives: usize) -> Result<(), Refused>
        ensures parses { Parses directives (tuple at Dropped ∷ []) self.old.left
            (with_refusal result self.new.refusal) self.new.left }
        ensures shorter { Consumes result self.old self.new }
    {
        if self.takes(Newlines::Dropped, Terminal::ForWord) {
            self.generator(directives)?;
            return self.tuple_condition(directives);
        }
        self.tuple_items(directives)
    }

    #[cycle(parser)]
    fn tuple_items(&mut self, directives: usize) -> Result<(), Refused>
        ensures parses { Parses directives (tuple_item at Dropped ∷ []) self.old.left
            (with_refusal result self.new.refusal) self.new.left }
        ensures shorter { Consumes result self.old self.new }
    {
        loop {
            if self.takes(Newlines::Dropped, Terminal::EndBracket) {
                return Ok(());
            }
            self.expr(Newlines::Dropped, directives)?;
            let Some(token) = self.look(Newlines::Dropped) else {
                return Err(self.keep_refusal(Refusal::UnexpectedEnd));
            };
            match token.class {
                Class::Comma => self.bump(token),
                Class::BracketClose => {
                    self.bump(token);
                    return Ok(());
                }
                _ => return Err(self.keep_refusal(Refusal::UnexpectedToken(token.number))),
            }
        }
    }

    /// The names of a for-expression, its collection, and its first result.
    #[cycle(parser)]
    fn generator(&mut self, directives: usize) -> Result<(), Refused>
        ensures parses { Parses directives
            (the Name at Dropped ∷ names at Dropped ∷ expr at Dropped ∷ the Separator at Dropped
            ∷ expr at Dropped ∷ [])
            self.old.left (with_refusal result self.new.refusal) self.new.left }
        ensures shorter { Consumes result self.old self.new }
    {
        self.names()?;
        self.expr(Newlines::Dropped, directives)?;
        self.expect(Newlines::Dropped, Terminal::Separator)?;
        self.expr(Newlines::Dropped, directives)
    }

    /// The condition of a for-expression in brackets, if it has one, and the closing bracket.
    #[cycle(parser)]
    fn tuple_condition(&mut self, directives: usize) -> Result<(), Refused>
        ensures parses { Parses directives (tuple_if at Dropped ∷ []) self.old.left
            (with_refusal result self.new.refusal) self.new.left }
        ensures shorter { Consumes result self.old self.new }
    {
        if self.takes(Newlines::Dropped, Terminal::IfWord) {
            self.expr(Newlines::Dropped, directives)?;
            return self.expect(Newlines::Dropped, Terminal::EndBracket);
        }
        self.expect(Newlines::Dropped, Terminal::EndBracket)
    }

    /// An object after its brace.
    #[cycle(parser)]
    fn object(&mut self, directives: usize) -> Result<(), Refused>
        ensures parses { Parses directives (object at Seen ∷ []) self.old.left
            (with_refusal result self.new.refusal) self.new.left }
        ensures shorter { Consumes result self.old self.new }
    {
        if self.takes(Newlines::Dropped, Terminal::ForWord) {
            return self.object_for(directives);
        }
        self.entries(directives)
    }

    /// The entries of an object, through its closing brace. Newlines count only after an entry.
    #[cycle(parser)]
    fn entries(&mut self, directives: usize) -> Result<(), Refused>
        ensures parses { Parses directives (object_item at Seen ∷ []) self.old.left
            (with_refusal result self.new.refusal) self.new.left }
        ensures shorter { Consumes result self.old self.new }
    {
        loop {
            if self.takes(Newlines::Dropped, Terminal::EndBrace) {
                return Ok(());
            }
            self.entry(directives)?;
            let Some(token) = self.look(Newlines::Seen) else {
                return Err(self.keep_refusal(Refusal::UnexpectedEnd));
            };
            match token.class {
                Class::Comma | Class::Newline => self.bump(token),
                Class::BraceClose => {
                    self.bump(token);
                    return Ok(());
                }
                _ => return Err(self.keep_refusal(Refusal::UnexpectedToken(token.number))),
            }
        }
    }

    #[cycle(parser)]
    fn entry(&mut self, directives: usize) -> Result<(), Refused>
        ensures parses { Parses directives
            (expr at Seen ∷ separator at Seen ∷ expr at Seen ∷ []) self.old.left
            (with_refusal result self.new.refusal) self.new.left }
        ensures shorter { Consumes result self.old self.new }
    {
        self.expr(Newlines::Seen, directives)?;
        self.separator()?;
        self.expr(Newlines::Seen, directives)
    }

    /// A for-expression in braces after its `for`.
    #[cycle(parser)]
    fn object_for(&mut self, directives: usize) -> Result<(), Refused>
        ensures parses { Parses directives
            (the Name at Dropped ∷ names at Dropped ∷ expr at Dropped ∷ the Separator at Dropped
            ∷ expr at Dropped ∷ the FatArrow at Dropped ∷ expr at Dropped ∷ group at Dropped ∷ [])
            self.old.left (with_refusal result self.new.refusal) self.new.left }
        ensures shorter { Consumes result self.old self.new }
    {
        self.generator(directives)?;
        self.expect(Newlines::Dropped, Terminal::FatArrow)?;
        self.expr(Newlines::Dropped, directives)?;
        self.group_ellipsis();
        self.object_condition(directives)
    }

    /// The `...` of a for-expression in braces, if it has one.
    fn group_ellipsis(&mut self)
        ensures leads { (count : ℕ) → Advances count (group at Dropped ∷ []) self.old.left
            (Ok (tt {0})) (object_if at Dropped ∷ []) self.new.left }
        ensures shorter { length self.new.left ≤ length self.old.left }
    {
        if self.takes(Newlines::Dropped, Terminal::Ellipses) {
            return;
        }
    }

    /// The condition of a for-expression in braces, if it has one, and the closing brace.
    #[cycle(parser)]
    fn object_condition(&mut self, directives: usize) -> Result<(), Refused>
        ensures parses { Parses directives (object_if at Dropped ∷ []) self.old.left
            (with_refusal result self.new.refusal) self.new.left }
        ensures shorter { Consumes result self.old self.new }
    {
        if self.takes(Newlines::Dropped, Terminal::IfWord) {
            self.expr(Newlines::Dropped, directives)?;
            return self.expect(Newlines::Dropped, Terminal::EndBrace);
        }
        self.expect(Newlines::Dropped, Terminal::EndBrace)
    }

    /// The names of a `for`, and its `in`.
    pub fn names(&mut self) -> Result<(), Refused>
        ensures parses { (count : ℕ) → Parses count
            (the Name at Dropped ∷ names at Dropped ∷ []) self.old.left
            (with_refusal result self.new.refusal) self.new.left }
        ensures shorter { Consumes result self.old self.new }
    {
        self.expect(Newlines::Dropped, Terminal::Name)?;
        self.more_names()
    }

    /// The tokens after the first name of a `for`.
    fn more_names(&mut self) -> Result<(), Refused>
        ensures parses { (count : ℕ) → Parses count (names at Dropped ∷ []) self.old.left
            (with_refusal result self.new.refusal) self.new.left }
        ensures shorter { Consumes result self.old self.new }
    {
        if self.takes(Newlines::Dropped, Terminal::InWord) {
            return Ok(());
        }
        self.expect(Newlines::Dropped, Terminal::CommaSign)?;
        self.expect(Newlines::Dropped, Terminal::Name)?;
        self.expect(Newlines::Dropped, Terminal::InWord)
    }

    /// The token after a dot.
    #[inline(always)]
    pub fn step(&mut self, newlines: Newlines) -> Result<(), Refused>
        ensures parses { (count : ℕ) → Parses count (step at newlines ∷ []) self.old.left
            (with_refusal result self.new.refusal) self.new.left }
        ensures shorter { Consumes result self.old self.new }
    {
        match self.look(newlines) {
            None => Err(self.keep_refusal(Refusal::UnexpectedEnd)),
            Some(token) => match token.class {
                Class::Ident(_) | Class::Star => {
                    self.bump(token);
                    Ok(())
                }
                Class::Number(digits) => if digits {
                    self.bump(token);
                    Ok(())
                } else {
                    Err(self.keep_refusal(Refusal::UnexpectedToken(token.number)))
                },
                _ => Err(self.keep_refusal(Refusal::UnexpectedToken(token.number))),
            },
        }
    }

    /// The separator between a key of an object and its value.
    pub fn separator(&mut self) -> Result<(), Refused>
        ensures parses { (count : ℕ) → Parses count (separator at Seen ∷ []) self.old.left
            (with_refusal result self.new.refusal) self.new.left }
        ensures shorter { Consumes result self.old self.new }
    {
        match self.look(Newlines::Seen) {
            None => Err(self.keep_refusal(Refusal::UnexpectedEnd)),
            Some(token) => match token.class {
                Class::Assign | Class::Colon => {
                    self.bump(token);
                    Ok(())
                }
                _ => Err(self.keep_refusal(Refusal::UnexpectedToken(token.number))),
            },
        }
    }
}
