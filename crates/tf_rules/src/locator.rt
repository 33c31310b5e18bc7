//! The places of a file's tokens, by one walk through it.

ghost use Rattle.std.specs.Prelude.{◌≡◌, [], ◌∷◌};
ghost use Rattle.hcl_tokens.specs.Scans.{Scans};
ghost use Rattle.tf_rules.specs.Issues.{place_in};
ghost use Rattle.tf_rules.specs.Inner.StoredViews.{place_of};
ghost use Rattle.tf_rules.specs.Inner.Locating.{CanAdvance, advance};

use crate::cursor::PositionCursor;
use crate::stored::TokenPlace;
use hcl_tokens::Tokens;
use std::marker::Model;

/// A walk through the tokens of a file.
#[derive(Drop)]
pub struct Locator<'t, 's> {
    file: u32,
    tokens: &'t Tokens<'s>,
    cursor: PositionCursor<'s>,
}

impl<'t, 's> Model for Locator<'t, 's> {
    ghost use Rattle.std.specs.Prelude.{◌≡◌};
    ghost use Rattle.tf_rules.specs.Inner.Locating.{Locating};

    ghost Value = { Locating };

    ghost view = { λ p. record {
      file = record { number = p.file; source = p.tokens.now };
      reached = p.cursor.reached;
    } };

    ghost invariant = { λ p. p.cursor.text ≡ p.tokens.now.text };
}

impl<'t, 's> Locator<'t, 's> {
    /// A walk at the start of the file of this number.
    pub fn new(file: u32, tokens: &'t Tokens<'s>) -> Locator<'t, 's>
        ensures start { result ≡ record
            { file = record { number = file; source = tokens.now }; reached = 0 } }
        ensures scanned { Scans tokens.now.text tokens.now.tokens }
    {
        let text = tokens.source().text();
        Locator {
            file,
            tokens,
            cursor: PositionCursor::new(text),
        }
    }

    /// The place of the token of this number, if none of a later token was requested.
    pub fn place(&mut self, number: usize) -> TokenPlace
        requires { CanAdvance self.old (number ∷ []) }
        ensures place { place_of result ≡ place_in self.old.file number }
        ensures moved { self.new ≡ advance self.old (number ∷ []) }
    {
        TokenPlace {
            file: self.file,
            token: number,
            at: self.cursor.position_of(self.tokens, number),
        }
    }
}
