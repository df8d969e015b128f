//! The conflicts of a constraint.
ghost use Rattle.std.specs.Prelude.{◌≡◌, [], map, IfOk, IsTrue, ◌↔◌};
ghost use Rattle.ucq_store.specs.Store.{IsFinished};
ghost use Rattle.ucq_bans.specs.Conflicts.{AreConflicts, IsRising};
ghost use Rattle.ucq_bans.specs.inner.Parts.{AreSortedFrom};

use crate::images::images;
use crate::minimal::minimal;
use indexmap::IndexSet;
use std::alloc::Global;
use std::marker::Model;
use ucq_chase::sound_is_carried;
use ucq_facts::Facts;
use ucq_store::Store;
use ucq_store::laws::finished_is_exact;
use ucq_terms::NoMemory;

/// A set of facts that violates a constraint and has no proper part that does, seen as the rising list of their places.
#[derive(Drop)]
pub struct Conflict {
    places: Vec<u32>,
}

impl Model for Conflict {
    ghost use Rattle.std.specs.Prelude.{ℕ, List};
    ghost use Rattle.ucq_bans.specs.Conflicts.{IsRising};

    ghost Value = { List ℕ };

    ghost view = { λ c. c.places.items };

    ghost invariant = { λ c. IsRising c.places.items };
}

impl Conflict {
    /// The facts at these places.
    pub(crate) fn new(places: Vec<u32>) -> Conflict
        requires { IsRising places.items }
        ensures { result ≡ places.items }
    {
        Conflict { places }
    }

    /// The places of its facts, in rising order; places count from 0 in the order in which facts were added.
    pub fn places(&self) -> &[u32]
        ensures places { result.now ≡ self.now }
        ensures rising { IsRising result.now }
    {
        self.places.as_slice()
    }
}

/// The sets in lexicographic order.
fn in_order(alloc: Global, found: IndexSet<Vec<u32>>) -> Result<Vec<Vec<u32>>, NoMemory>
    ensures { IfOk result (λ sets.
        AreSortedFrom (map (λ t. t.items) found.keys) (map (λ t. t.items) sets.items)) }
{
    // A reader tells that no set stands twice.
    let _sets = found.len();
    let mut sets: Vec<Vec<u32>> = found.into_iter().collect(alloc)?;
    sets.sort_unstable();
    Ok(sets)
}

/// The conflicts of the store's query, each once, in lexicographic order of their lists of places.
///
/// A violating set holds the image of a live row, and each image violates; so the conflicts are the images that have no
/// other one as a part. They may be exponentially many in the number of atoms. Takes memory for the images of all live
/// rows, and a join over the facts for each live row. Want of memory is the one error.
pub fn conflicts(alloc: Global, store: &Store, facts: &Facts) -> Result<Vec<Conflict>, NoMemory>
    requires finished { IsFinished store.now }
    requires boolean { store.now.problem.query.answers ≡ [] }
    ensures { IfOk result (λ conflicts.
        AreConflicts store.now.problem facts.now conflicts.items) }
{
    sound_is_carried();
    finished_is_exact();
    // Readers tell that the store is lawful, and that no fact stands twice.
    let _rows = store.rows();
    let _facts = facts.len();
    let sets = in_order(alloc, images(alloc, store, facts)?)?;
    minimal(alloc, sets.as_slice())
}
