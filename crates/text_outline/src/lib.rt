//! The symbols and the folds of a text, as an editor shows them.
#![tactic(auto)]

mod fold;
mod name;
mod symbol;
mod token_range;

pub use fold::{Fold, folds_of};
pub use symbol::{Symbol, SymbolKind, symbols_of};
