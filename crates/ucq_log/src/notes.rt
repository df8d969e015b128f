//! What stands at a place of a log.
ghost use Rattle.std.specs.Prelude.{◌≡◌, ◌↔◌, IsTrue};
ghost use Rattle.ucq_terms.specs.Homomorphism.{Covers};
ghost use Rattle.ucq_hom.specs.Space.{IsClear};
ghost use Rattle.ucq_hom.specs.Signature.{signature_of};

use std::marker::Model;
use ucq_hom::{HomSpace, Signature, covers};
use ucq_terms::Query;

/// A row's number and its query. Contracts see it as these two.
#[derive(Drop)]
pub(crate) struct Noted {
    row: u32,
    query: Query,
    // that of the query
    signature: Signature,
}

impl Model for Noted {
    ghost use Rattle.std.specs.Prelude.{◌≡◌};
    ghost use Rattle.ucq_log.specs.Notes.{Note};
    ghost use Rattle.ucq_hom.specs.Signature.{signature_of};

    ghost Value = { Note };

    ghost view = { λ n. record { row = n.row; query = n.query } };

    ghost invariant = { λ n. n.signature ≡ signature_of n.query };
}

impl Noted {
    pub(crate) fn new(row: u32, query: Query) -> Noted
        ensures { result ≡ record { row = row; query = query } }
    {
        let signature = Signature::of(&query);
        Noted {
            row,
            query,
            signature,
        }
    }

    pub(crate) fn row(&self) -> u32
        ensures { result ≡ self.now.row }
    {
        self.row
    }

    pub(crate) fn query(&self) -> &Query
        ensures { result.now ≡ self.now.query }
    {
        &self.query
    }

    pub(crate) fn signature(&self) -> Signature
        ensures { result ≡ signature_of self.now.query }
    {
        self.signature
    }

    pub(crate) fn into_query(self) -> Query
        ensures { result ≡ self.query }
    {
        self.query
    }

    // Whether its query covers the other, by their signatures and then by a search. Nothing is left in the space.
    pub(crate) fn does_cover(
        &self,
        space: &mut HomSpace,
        other: &Query,
        signature: &Signature,
    ) -> bool
        requires signature { signature.now ≡ signature_of other.now }
        requires clear { IsClear space.old }
        ensures covers { IsTrue result ↔ Covers self.now.query other.now }
        ensures clear { IsClear space.new }
    {
        if !self.signature.may_cover(signature) {
            return false;
        }
        let found = covers(space, &self.query, other);
        space.clear();
        found
    }
}
