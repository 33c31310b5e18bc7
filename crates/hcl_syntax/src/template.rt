//! Templates and their directives.

ghost use Rattle.std.specs.Prelude.{◌≡◌, ◌+◌, ◌<◌, ◌≤◌, [], ◌∷◌, length, Some, None, Ok, OnOk};
ghost use Rattle.hcl_grammar.specs.Grammar.{◌at◌, the, expr, parts, directive, inside};
ghost use Rattle.hcl_syntax.specs.Inner.Parsing.{Advances, Parses, with_refusal, Ends, effect_of_word};
ghost use Rattle.hcl_syntax.specs.Inner.Standings.{Consumes, NeverReturns};
ghost use Rattle.hcl_grammar.specs.Predictor.{max_directives};
ghost use Rattle.hcl_grammar.specs.declared.expected.Terminal.TheVariants.{EndSequence};
ghost use Rattle.hcl_grammar.specs.declared.expected.Newlines.TheVariants.{Dropped};

use crate::cursor::Cursor;
use crate::expected::{Refused, Turning};
use hcl_grammar::{Class, Newlines, Refusal, Section, Terminal, Word};

/// The most directives that may be open.
const MAX_DIRECTIVES: usize = 256;

/// The effect of a word in a directive.
fn effect_of_word(section: Section, class: Class) -> Turning
    ensures { result ≡ effect_of_word section class }
{
    match (section, class) {
        (Section::InIf, Class::Ident(Word::Else)) => Turning::Onward,
        (Section::InIf | Section::InElse, Class::Ident(Word::Endif)) => Turning::Closing,
        (Section::InFor, Class::Ident(Word::Endfor)) => Turning::Closing,
        _ => Turning::Inner,
    }
}

impl<'t, 's> Cursor<'t, 's> {
    /// A template up to its closing quote or marker.
    #[cycle(parser)]
    pub fn parts(&mut self, newlines: Newlines, directives: usize) -> Result<(), Refused>
        ensures parses { Parses directives (parts at newlines ∷ []) self.old.left
            (with_refusal result self.new.refusal) self.new.left }
        ensures shorter { NeverReturns result self.old self.new }
    {
        loop {
            let Some(token) = self.look(newlines) else {
                return Err(self.keep_refusal(Refusal::UnexpectedEnd));
            };
            match token.class {
                Class::Lit => self.bump(token),
                Class::InterpOpen => {
                    self.bump(token);
                    self.sequence(directives)?;
                }
                Class::ControlOpen => {
                    self.bump(token);
                    self.directive(token.number, directives)?;
                }
                Class::QuoteClose | Class::HeredocClose => return Ok(()),
                _ => return Err(self.keep_refusal(Refusal::UnexpectedToken(token.number))),
            }
        }
    }

    /// An expression and the end of its sequence.
    #[cycle(parser)]
    fn sequence(&mut self, directives: usize) -> Result<(), Refused>
        ensures parses { Parses directives
            (expr at Dropped ∷ the EndSequence at Dropped ∷ []) self.old.left
            (with_refusal result self.new.refusal) self.new.left }
        ensures shorter { Consumes result self.old self.new }
    {
        self.expr(Newlines::Dropped, directives)?;
        self.expect(Newlines::Dropped, Terminal::EndSequence)
    }

    /// A directive after its `%{`, which is the token of this number.
    #[cycle(parser)]
    fn directive(&mut self, number: u32, directives: usize) -> Result<(), Refused>
        ensures parses { Parses directives (directive number at Dropped ∷ []) self.old.left
            (with_refusal result self.new.refusal) self.new.left }
        ensures shorter { Consumes result self.old self.new }
    {
        let Some(token) = self.look(Newlines::Dropped) else {
            return Err(self.keep_refusal(Refusal::UnexpectedEnd));
        };
        match token.class {
            Class::Ident(word) => match word {
                Word::If => {
                    if directives >= MAX_DIRECTIVES {
                        return Err(self.keep_refusal(Refusal::TooDeep(number)));
                    }
                    self.bump(token);
                    self.sequence(directives + 1)?;
                    self.section(Section::InIf, directives)
                }
                Word::For => {
                    if directives >= MAX_DIRECTIVES {
                        return Err(self.keep_refusal(Refusal::TooDeep(number)));
                    }
                    self.bump(token);
                    self.names()?;
                    self.sequence(directives + 1)?;
                    self.section(Section::InFor, directives)
                }
                _ => Err(self.keep_refusal(Refusal::UnexpectedToken(token.number))),
            },
            _ => Err(self.keep_refusal(Refusal::UnexpectedToken(token.number))),
        }
    }

    /// The template in a directive, through the directive's end.
    #[cycle(parser)]
    fn section(&mut self, section: Section, directives: usize) -> Result<(), Refused>
        requires { directives < max_directives }
        ensures ends { Ends directives (inside section at Dropped ∷ []) self.old.left
            (with_refusal result self.new.refusal) self.new.left }
        ensures shorter { Consumes result self.old self.new }
    {
        let mut section = section;
        loop {
            let Some(token) = self.look(Newlines::Dropped) else {
                return Err(self.keep_refusal(Refusal::UnexpectedEnd));
            };
            match token.class {
                Class::Lit => self.bump(token),
                Class::InterpOpen => {
                    self.bump(token);
                    self.sequence(directives + 1)?;
                }
                Class::ControlOpen => {
                    self.bump(token);
                    let Some(word) = self.look(Newlines::Dropped) else {
                        return Err(self.keep_refusal(Refusal::UnexpectedEnd));
                    };
                    match effect_of_word(section, word.class) {
                        Turning::Onward => {
                            self.bump(word);
                            self.expect(Newlines::Dropped, Terminal::EndSequence)?;
                            section = Section::InElse;
                        }
                        Turning::Closing => {
                            self.bump(word);
                            return self.expect(Newlines::Dropped, Terminal::EndSequence);
                        }
                        Turning::Inner => self.directive(token.number, directives + 1)?,
                    }
                }
                _ => return Err(self.keep_refusal(Refusal::UnexpectedToken(token.number))),
            }
        }
    }
}
