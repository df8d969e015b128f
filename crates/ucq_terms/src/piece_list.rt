//! Pieces.
use std::marker::Model;

/// A map from some of a query's atoms to atoms of a rule's head: pairs of the place of an atom of the query and the place
/// of an atom of the head, in rising order of the first.
#[derive(Drop)]
pub struct Piece {
    pub pairs: Vec<(u32, u32)>,
}

impl Model for Piece {
    ghost use Rattle.std.specs.Prelude.{ℕ, List, map};
    ghost use Rattle.std.specs.List.Sorted.{IsStrictlyIncreasing};
    ghost use Rattle.ucq_terms.specs.Unifier.{places};

    ghost Value = { List (ℕ × ℕ) };

    ghost view = { λ p. p.pairs.items };

    ghost invariant = { λ p. IsStrictlyIncreasing (places p.pairs.items) };
}
