//! The test whether a query is a core.
ghost use Rattle.std.specs.Prelude.{◌≡◌, ◌↔◌, IsTrue};
ghost use Rattle.ucq_terms.specs.Homomorphism.{IsCore};
ghost use Rattle.ucq_hom.specs.Space.{IsClear};

use ucq_hom::{HomSpace, find_without};
use ucq_terms::Query;

/// Whether the query, with its own answers, maps into no proper part of its atoms. Asks for a homomorphism once for each
/// atom. Leaves the space as after a false answer.
pub fn is_core(space: &mut HomSpace, query: &Query) -> bool
    ensures core { IsTrue result ↔ IsCore query.now }
    ensures clear { IsClear space.new }
{
    space.clear();
    for place in 0..query.atoms().len() as u32 {
        if find_without(space, query, place) {
            space.clear();
            return false;
        }
    }
    true
}
