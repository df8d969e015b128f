//! Whether a query is contained in a store's.
ghost use Rattle.std.specs.Prelude.{◌⊎◌, MatchOption};
ghost use Rattle.ucq_hom.specs.Space.{IsClear};
ghost use Rattle.ucq_store.specs.Store.{IsCut, IsFinished};
ghost use Rattle.ucq_within.specs.Containment.{IsFirstCovering, NoRowCovers, TellsWithin};

use crate::Within;
use ucq_chase::sound_is_carried;
use ucq_hom::{HomSpace, covers};
use ucq_store::Store;
use ucq_store::laws::finished_is_exact;
use ucq_terms::Query;

/// Whether the query is contained in the store's, under its rules, as far as the rows tell. It takes no memory, and leaves
/// the space clear. A homomorphism is searched for each row up to the first that covers the query.
pub fn within(space: &mut HomSpace, of: &Store, query: &Query) -> Within
    requires { IsFinished of.now ⊎ IsCut of.now }
    ensures told { TellsWithin of.now query.now result }
    ensures clear { IsClear space.new }
{
    sound_is_carried();
    finished_is_exact();
    // Readers tell that the store is lawful, and that the query is safe.
    let is_cut = of.cut().is_some();
    let _ = query.atoms();
    match first_covering(space, of, query) {
        Some(row) => Within::Yes { row },
        None if is_cut => Within::Open,
        None => Within::No,
    }
}

/// The first row that covers the query.
pub(crate) fn first_covering(space: &mut HomSpace, of: &Store, query: &Query) -> Option<u32>
    ensures found { MatchOption result (NoRowCovers of.now query.now) (λ row.
        IsFirstCovering of.now query.now row) }
    ensures clear { IsClear space.new }
{
    space.clear();
    for row in 0..of.rows() {
        if covers(space, of.query_of(row), query) {
            space.clear();
            return Some(row);
        }
    }
    None
}
