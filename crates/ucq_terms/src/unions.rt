//! Unions of queries.
ghost use Rattle.std.specs.Prelude.{◌≡◌, ◌<◌, ◌^◌, length, vec_len, slice_get, Some};

use crate::Query;
use std::marker::Model;

/// A union of queries: a list of fewer than 2^32 of them, which may be empty.
#[derive(Drop)]
pub struct Union {
    queries: Vec<Query>,
}

impl Model for Union {
    ghost use Rattle.std.specs.Prelude.{List, ◌<◌, ◌^◌, length};
    ghost use Rattle.ucq_terms.specs.Syntax.{Query as QueryValue};

    ghost Value = { List QueryValue };

    ghost view = { λ u. u.queries.items };

    ghost invariant = { λ u. length u.queries.items < 2 ^ 32 };
}

impl Union {
    /// The union of these queries, of which there are fewer than 2^32.
    pub fn new(queries: Vec<Query>) -> Union
        requires { vec_len queries < 2 ^ 32 }
        ensures { result ≡ queries.items }
    {
        Union { queries }
    }

    /// How many queries there are.
    pub fn len(&self) -> u32
        ensures { result ≡ length self.now }
    {
        self.queries.len() as u32
    }

    /// The query at the place.
    pub fn query(&self, place: u32) -> &Query
        requires { place < length self.now }
        ensures { slice_get self.now place ≡ Some result.now }
    {
        &self.queries[place as usize]
    }
}
