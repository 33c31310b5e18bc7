//! Files, attributes and blocks.
ghost use Rattle.std.specs.Prelude.{◌≡◌, ◌+◌, ◌<◌, ◌≤◌, ◌^◌, ℕ, List, [], ◌∷◌, length, Some, None, Ok, OnOk};
ghost use Rattle.hcl_grammar.specs.Grammar.{◌at◌, the, eol, labels, label_literal, start, rest, expr, file};
ghost use Rattle.hcl_grammar.specs.Predictor.{run};
ghost use Rattle.hcl_syntax.specs.Inner.Parsing.{Advances, Parses, with_refusal, outcome, after_item};
ghost use Rattle.hcl_syntax.specs.Inner.Standings.{NeverReturns};
ghost use Rattle.hcl_grammar.specs.declared.expected.Terminal.TheVariants.{EndQuote, Equals, EndBrace};
ghost use Rattle.hcl_grammar.specs.declared.expected.Newlines.TheVariants.{Seen};

use crate::cursor::Cursor;
use crate::expected::Refused;
use hcl_grammar::{Class, Newlines, Refusal, Terminal};

impl<'t, 's> Cursor<'t, 's> {
    /// A quoted label after its opening quote.
    fn label(&mut self) -> Result<(), Refused>
        ensures parses { Parses 0 (label_literal at Seen ∷ the EndQuote at Seen ∷ []) self.old.left
            (with_refusal result self.new.refusal) self.new.left }
        ensures shorter { NeverReturns result self.old self.new }
    {
        let Some(token) = self.look(Newlines::Seen) else {
            return Err(self.keep_refusal(Refusal::UnexpectedEnd));
        };
        match token.class {
            Class::Lit => {
                self.bump(token);
                self.expect(Newlines::Seen, Terminal::EndQuote)
            }
            Class::QuoteClose => {
                self.bump(token);
                Ok(())
            }
            _ => Err(self.keep_refusal(Refusal::UnexpectedToken(token.number))),
        }
    }

    /// The labels of a block and its opening brace.
    fn labels(&mut self) -> Result<(), Refused>
        ensures leads { Advances 0 (labels at Seen ∷ []) self.old.left
            (with_refusal result self.new.refusal) (start at Seen ∷ []) self.new.left }
        ensures shorter { NeverReturns result self.old self.new }
    {
        loop {
            let Some(token) = self.look(Newlines::Seen) else {
                return Err(self.keep_refusal(Refusal::UnexpectedEnd));
            };
            match token.class {
                Class::Ident(_) => self.bump(token),
                Class::QuoteOpen => {
                    self.bump(token);
                    self.label()?;
                }
                Class::BraceOpen => {
                    self.bump(token);
                    return Ok(());
                }
                _ => return Err(self.keep_refusal(Refusal::UnexpectedToken(token.number))),
            }
        }
    }

    /// The token after a block's opening brace. Returns whether its body continues over lines.
    fn block(&mut self) -> Result<bool, Refused>
        ensures leads { Advances 0 (start at Seen ∷ []) self.old.left
            (with_refusal result self.new.refusal) (after_item result) self.new.left }
        ensures shorter { NeverReturns result self.old self.new }
    {
        let Some(token) = self.look(Newlines::Seen) else {
            return Err(self.keep_refusal(Refusal::UnexpectedEnd));
        };
        match token.class {
            Class::Newline => {
                self.bump(token);
                Ok(true)
            }
            Class::Ident(_) => {
                self.bump(token);
                self.attribute_line()?;
                Ok(false)
            }
            Class::BraceClose => {
                self.bump(token);
                self.end_of_line()?;
                Ok(false)
            }
            _ => Err(self.keep_refusal(Refusal::UnexpectedToken(token.number))),
        }
    }

    /// The one attribute of a block on one line, after its name, and the rest of that line.
    fn attribute_line(&mut self) -> Result<(), Refused>
        ensures parses { Parses 0
            (the Equals at Seen ∷ expr at Seen ∷ the EndBrace at Seen ∷ eol at Seen ∷ [])
            self.old.left (with_refusal result self.new.refusal) self.new.left }
        ensures shorter { NeverReturns result self.old self.new }
    {
        self.expect(Newlines::Seen, Terminal::Equals)?;
        self.expr(Newlines::Seen, 0)?;
        self.expect(Newlines::Seen, Terminal::EndBrace)?;
        self.end_of_line()
    }

    /// An attribute or a block after its first identifier.
    fn item(&mut self) -> Result<bool, Refused>
        ensures leads { Advances 0 (rest at Seen ∷ []) self.old.left
            (with_refusal result self.new.refusal) (after_item result) self.new.left }
        ensures shorter { NeverReturns result self.old self.new }
    {
        if self.takes(Newlines::Seen, Terminal::Equals) {
            self.expr(Newlines::Seen, 0)?;
            self.end_of_line()?;
            return Ok(false);
        }
        self.labels()?;
        self.block()
    }

    /// A file. It keeps the number of open blocks.
    pub fn file(&mut self) -> Result<(), Refused>
        ensures { run 0 (file at Seen ∷ []) self.old.left
            ≡ outcome (with_refusal result self.new.refusal) None }
    {
        self.room();
        let mut levels: usize = 0;
        loop {
            let Some(token) = self.look(Newlines::Seen) else {
                return if levels == 0 {
                    Ok(())
                } else {
                    Err(self.keep_refusal(Refusal::UnexpectedEnd))
                };
            };
            match token.class {
                Class::Newline => self.bump(token),
                Class::Ident(_) => {
                    self.bump(token);
                    if self.item()? {
                        levels += 1;
                    }
                }
                Class::BraceClose => {
                    if levels == 0 {
                        return Err(self.keep_refusal(Refusal::UnexpectedToken(token.number)));
                    }
                    self.bump(token);
                    self.end_of_line()?;
                    levels -= 1;
                }
                _ => return Err(self.keep_refusal(Refusal::UnexpectedToken(token.number))),
            }
        }
    }

    /// The end of a line, or of the input.
    pub fn end_of_line(&mut self) -> Result<(), Refused>
        ensures parses { Parses 0 (eol at Seen ∷ []) self.old.left
            (with_refusal result self.new.refusal) self.new.left }
        ensures shorter { NeverReturns result self.old self.new }
    {
        let Some(end) = self.look(Newlines::Seen) else {
            return Ok(());
        };
        match end.class {
            Class::Newline => {
                self.bump(end);
                Ok(())
            }
            _ => Err(self.keep_refusal(Refusal::UnexpectedToken(end.number))),
        }
    }
}
