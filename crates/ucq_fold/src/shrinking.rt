//! The shrinking of a query to its core.
ghost use Rattle.std.specs.Prelude.{◌≡◌, ◌<◌, ◌↔◌, length, remove, true, false};
ghost use Rattle.ucq_terms.specs.Syntax.{IsSafe};
ghost use Rattle.ucq_terms.specs.Homomorphism.{IsCore, IsCoreOf};
ghost use Rattle.ucq_hom.specs.Space.{IsClear};
ghost use Rattle.ucq_fold.specs.Parts.{IsPartInOrder, IsTried};

use ucq_hom::{HomSpace, find_without, may_spare};
use ucq_terms::Query;

/// Takes the atom at the place out if the query maps into itself without it.
fn drop_spare(space: &mut HomSpace, query: &mut Query, place: u32)
    requires within { place < length query.old.atoms }
    requires safe { IsSafe query.old }
    ensures tried { IsTried query.old query.new place }
    ensures safe { IsSafe query.new }
{
    if find_without(space, query, place) {
        query.remove_atom(place);
    }
}

/// Takes atoms out of the query until it is a core. It stays equivalent, with the same answers, and the atoms that are
/// left keep their order.
pub fn shrink(space: &mut HomSpace, query: &mut Query)
    ensures core { IsCoreOf query.old query.new }
    ensures answers { query.new.answers ≡ query.old.answers }
    ensures part { IsPartInOrder query.new.atoms query.old.atoms }
    ensures clear { IsClear space.new }
{
    for place in (0..query.atoms().len() as u32).rev() {
        drop_spare(space, query, place);
    }
    space.clear();
}

/// Whether some atom of the query may go by itself to another one. Else the query is a core, and this is told without a
/// search. Leaves the space as after a false answer.
pub fn may_fold(space: &mut HomSpace, query: &Query) -> bool
    ensures core { result ≡ false → IsCore query.now }
    ensures clear { IsClear space.new }
{
    space.clear();
    for place in 0..query.atoms().len() as u32 {
        if may_spare(space, query, place) {
            return true;
        }
    }
    false
}
