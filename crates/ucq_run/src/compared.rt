//! What the store of a query tells of the other queries, and the lines that say it.
ghost use Rattle.std.specs.Prelude.{◌≡◌, ◌≤◌, ◌⊎◌, ℕ, IfOk, length};
ghost use Rattle.ucq_terms.specs.declared.TheConstants.{QUERIES};
ghost use Rattle.ucq_store.specs.Store.{IsCut, IsFinished};
ghost use Rattle.ucq_run.specs.Compared.{AreComparisons, compared_lines, others};
ghost use Rattle.ucq_run.specs.inner.Comparing.{IsComparedBy, TellsBy, told_of as told_text_of};

use crate::texts::Text;
use std::alloc::Global;
use ucq_hom::HomSpace;
use ucq_print::{Told, minimal_line, within_line};
use ucq_reader::Asked;
use ucq_store::Store;
use ucq_terms::{Names, NoMemory, Query};
use ucq_within::containment::within;
use ucq_within::{Within, minimise};

/// What is told of another query.
#[derive(Clone, Copy)]
pub struct Comparison {
    /// Its number.
    pub query: u32,
    pub told: Told,
}

/// What the store of a query tells of the others, and its query without needless atoms.
#[derive(Drop)]
pub struct Compared {
    pub told: Vec<Comparison>,
    pub minimal: Query,
}

/// What a line says of it.
fn told_of(within: Within) -> Told
    ensures { result ≡ told_text_of within }
{
    match within {
        Within::Yes { .. } => Told::Yes,
        Within::No => Told::No,
        Within::Open => Told::Open,
    }
}

/// What the store of the query of the number tells of each other query.
fn comparisons(
    alloc: Global,
    space: &mut HomSpace,
    store: &Store,
    queries: &[Asked],
    number: u32,
) -> Result<Vec<Comparison>, NoMemory>
    requires ended { IsFinished store.now ⊎ IsCut store.now }
    requires few { length queries.now ≤ QUERIES }
    ensures { IfOk result (λ all.
        AreComparisons (TellsBy store.now) (others number queries.now) all.items) }
{
    let mut all = Vec::with_capacity(alloc, queries.len())?;
    for place in 0..queries.len() as u32 {
        if place != number {
            let told = told_of(within(space, store, &queries[place as usize].query));
            all.push(Comparison { query: place, told })?;
        }
    }
    Ok(all)
}

/// What the store of the query of the number tells of the others, and its query without needless atoms.
pub fn compare(
    alloc: Global,
    store: &Store,
    queries: &[Asked],
    number: u32,
) -> Result<Compared, NoMemory>
    requires ended { IsFinished store.now ⊎ IsCut store.now }
    requires few { length queries.now ≤ QUERIES }
    ensures { IfOk result (IsComparedBy store.now number queries.now) }
{
    let mut space = HomSpace::new(alloc)?;
    let told = comparisons(alloc, &mut space, store, queries, number)?;
    let minimal = minimise(&mut space, store)?;
    Ok(Compared { told, minimal })
}

/// The lines behind the section of the query of the number.
#[derive(Clone, Copy)]
pub struct ComparedText<'a> {
    pub names: &'a Names,
    pub number: u32,
    pub compared: &'a Compared,
}

impl Text for ComparedText<'_> {
    ghost lines = { λ t.
        compared_lines t.names.now t.number t.compared.now.told.items t.compared.now.minimal };

    fn len(&self) -> u64 {
        self.compared.told.len() as u64 + 1
    }

    fn line(&self, alloc: Global, place: u64) -> Result<Vec<u8>, NoMemory> {
        match self.compared.told.get(place as usize) {
            Some(comparison) => within_line(alloc, comparison.query, self.number, comparison.told),
            None => minimal_line(alloc, self.names, &self.compared.minimal),
        }
    }
}
