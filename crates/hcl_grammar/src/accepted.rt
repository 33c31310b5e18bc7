//! Tokens that are a file.

ghost use Rattle.std.specs.Prelude.{◌≡◌};
ghost use Rattle.hcl_tokens.specs.Balanced.{IsBalanced};
ghost use Rattle.hcl_grammar.specs.Verdict.{IsAccepted};

use hcl_tokens::Tokens;
use std::marker::Model;

/// Tokens that are a file. `hcl_syntax::accepts` decides whether they are.
#[derive(Debug, Drop)]
pub struct Accepted<'t, 's> {
    tokens: &'t Tokens<'s>,
}

impl<'t, 's> Model for Accepted<'t, 's> {
    ghost use Rattle.hcl_tokens.specs.Scanned.{Scanned};
    ghost use Rattle.hcl_grammar.specs.Verdict.{IsAccepted};

    ghost Value = { Scanned };

    ghost view = { λ a. a.tokens.now };

    ghost invariant = { λ a. IsAccepted a.tokens.now.tokens };
}

impl<'t, 's> Accepted<'t, 's> {
    /// The tokens, for a caller that has proved that they are a file.
    pub fn new(tokens: &'t Tokens<'s>) -> Accepted<'t, 's>
        requires { IsAccepted tokens.now.tokens }
        ensures { result ≡ tokens.now }
    {
        Accepted { tokens }
    }

    /// The tokens that were accepted.
    pub fn tokens(&self) -> &'t Tokens<'s>
        ensures tokens { result.now ≡ self.now }
        ensures accepted { IsAccepted self.now.tokens }
        ensures balanced { IsBalanced self.now.tokens }
    {
        // Its contract says that the tokens are a scan of their source; the law `balanced` rests on that.
        let _source = self.tokens.source();
        self.tokens
    }
}
