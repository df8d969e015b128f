//! Laws of tokens, each the contract of a function that does nothing.
ghost use Rattle.std.specs.Prelude.{◌≡◌, ℕ, List};
ghost use Rattle.ucq_lexer.specs.Tokens.{Spells};

use crate::Token;

/// A file is spelled by one list of tokens at most.
pub fn one_reading()
    ensures { (text : List ℕ) (a b : List Token) → Spells text a → Spells text b → a ≡ b }
{}
