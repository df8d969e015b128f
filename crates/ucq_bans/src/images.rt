//! The images of a store's rows among facts, each a set of places.
ghost use Rattle.std.specs.Prelude.{◌≡◌, map, IfOk, OnOk, IsTrue, ◌↔◌};
ghost use Rattle.ucq_terms.specs.Syntax.{HasEachOnce};
ghost use Rattle.ucq_bans.specs.inner.Images.{AreImages, IsImageOf, MapsAtoms};
ghost use Rattle.ucq_bans.specs.inner.Search.{IsGrownBy};

use crate::bindings::Bindings;
use crate::search::{gather, is_sent, order_for};
use indexmap::IndexSet;
use std::alloc::Global;
use ucq_facts::Facts;
use ucq_store::Store;
use ucq_terms::{ATOMS, NoMemory, Query};

/// Whether the query's atoms map into the facts.
pub(crate) fn maps(bindings: &mut Bindings, query: &Query, facts: &Facts) -> bool
    ensures { IsTrue result ↔ MapsAtoms query.now.atoms facts.now }
{
    bindings.clear();
    let atoms = query.atoms();
    let mut room = [0; ATOMS as usize];
    let order = &mut room[..atoms.len()];
    order_for(facts, atoms, order);
    is_sent(bindings, atoms, facts, order)
}

/// Adds the images of the query's atoms among the facts.
fn gather_images(
    bindings: &mut Bindings,
    query: &Query,
    facts: &Facts,
    chosen: &mut Vec<u32>,
    found: &mut IndexSet<Vec<u32>>,
) -> Result<(), NoMemory>
    requires once { HasEachOnce facts.now }
    ensures { OnOk
        result
        (IsGrownBy
        (IsImageOf query.now.atoms facts.now)
        (map (λ t. t.items) found.old.keys)
        (map (λ t. t.items) found.new.keys)) }
{
    bindings.clear();
    chosen.clear();
    let atoms = query.atoms();
    let mut room = [0; ATOMS as usize];
    let order = &mut room[..atoms.len()];
    order_for(facts, atoms, order);
    gather(bindings, atoms, facts, order, chosen, found)
}

/// The images of the live rows among the facts, each once.
pub(crate) fn images(
    alloc: Global,
    store: &Store,
    facts: &Facts,
) -> Result<IndexSet<Vec<u32>>, NoMemory>
    ensures { IfOk result (λ found.
        AreImages store.now facts.now (map (λ t. t.items) found.keys)) }
{
    let _facts = facts.len();
    let mut bindings = Bindings::new();
    let mut chosen = Vec::new(alloc);
    let mut found = IndexSet::new(alloc);
    for row in 0..store.rows() {
        if store.is_live(row) {
            gather_images(
                &mut bindings,
                store.query_of(row),
                facts,
                &mut chosen,
                &mut found,
            )?;
        }
    }
    Ok(found)
}
