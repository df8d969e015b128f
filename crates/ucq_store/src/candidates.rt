//! Candidates for new rows.
ghost use Rattle.std.specs.Prelude.{◌≡◌, ◌<◌, ◌↔◌, length, IsTrue, Some, None};
ghost use Rattle.ucq_terms.specs.Homomorphism.{Covers};
ghost use Rattle.ucq_hom.specs.Space.{IsClear};
ghost use Rattle.ucq_store.specs.Candidates.{plain, known, IsEvident, IsHeldAt, IsKnownAmong};
ghost use Rattle.ucq_store.specs.Reports.{placed_at};
ghost use Rattle.ucq_store.specs.Calls.{AreOffered, DoesTakeAll};

use crate::Store;
use std::marker::Model;
use ucq_antichain::Antichain;
use ucq_hom::HomSpace;
use ucq_terms::Query;

// A query that covers a core, and the row that is said to hold it.
#[derive(Drop)]
pub(crate) struct Evidence<'q> {
    row: u32,
    by: &'q Query,
}

impl<'q> Model for Evidence<'q> {
    ghost use Rattle.ucq_store.specs.Candidates.{Evidence as EvidenceValue};

    ghost Value = { EvidenceValue };

    ghost view = { λ e. record { row = e.row; by = e.by.now } };
}

/// A core that a report proposes for a new row, with evidence that it is covered or without.
#[derive(Drop)]
pub struct Candidate<'q> {
    core: Option<Query>,
    evidence: Option<Evidence<'q>>,
    placed: Option<u32>,
}

impl<'q> Model for Candidate<'q> {
    ghost use Rattle.ucq_store.specs.Candidates.{Candidate as CandidateValue, IsEvident};

    ghost Value = { CandidateValue };

    ghost view = { λ c. record { core = c.core; evidence = c.evidence; placed = c.placed } };

    ghost invariant = { λ c. IsEvident c.core c.evidence };
}

impl<'q> Candidate<'q> {
    /// The core, without evidence that it is covered.
    pub fn plain(core: Query) -> Candidate<'q>
        ensures { result ≡ plain core }
    {
        Candidate {
            core: Some(core),
            evidence: None,
            placed: None,
        }
    }

    /// The core, and a query that covers it, which the row is said to hold. A store whose row holds another query searches
    /// for a live row that covers the core, as for one without evidence; so whether the row is right is no condition.
    pub fn known(core: Query, row: u32, by: &'q Query) -> Candidate<'q>
        requires { Covers by.now core }
        ensures { result ≡ known core (record { row = row; by = by.entry.now }) }
    {
        Candidate {
            core: Some(core),
            evidence: Some(Evidence { row, by }),
            placed: None,
        }
    }
}

impl<'q> Candidate<'q> {
    // Whether the evidence names a row that holds its query.
    pub(crate) fn is_known(&self, antichain: &Antichain) -> bool
        ensures known { IsTrue result ↔ IsKnownAmong antichain.now.rows self.now.evidence }
        ensures evident { IsEvident self.now.core self.now.evidence }
    {
        match &self.evidence {
            Some(evidence) => is_held(antichain, evidence),
            None => false,
        }
    }

    // Takes the core out. The evidence goes.
    pub(crate) fn take(&mut self) -> Option<Query>
        ensures core { result ≡ self.old.core }
        ensures left { self.new ≡ record self.old { core = None; evidence = None } }
    {
        self.evidence = None;
        self.core.take()
    }

    // Notes the row at which the core was added.
    pub(crate) fn place(&mut self, row: u32)
        ensures { self.new ≡ record self.old { placed = Some row } }
    {
        self.placed = Some(row);
    }

    fn placed(&self) -> Option<u32>
        ensures { result ≡ self.now.placed }
    {
        self.placed
    }
}

// Whether there is a row of that number, which holds the query.
fn is_held(antichain: &Antichain, evidence: &Evidence) -> bool
    ensures { IsTrue result ↔ IsHeldAt antichain.now.rows evidence.now }
{
    evidence.row < antichain.len() && antichain.query(evidence.row).same(evidence.by)
}

// The candidates of a whole report. Contracts see the list.
#[derive(Drop)]
pub(crate) struct Candidates<'q> {
    items: Vec<Candidate<'q>>,
}

impl<'q> Model for Candidates<'q> {
    ghost use Rattle.std.specs.Prelude.{List};
    ghost use Rattle.ucq_store.specs.Candidates.{Candidate as CandidateValue};

    ghost Value = { List CandidateValue };

    ghost view = { λ c. c.items.items };
}

impl<'q> Candidates<'q> {
    pub(crate) fn of(items: Vec<Candidate<'q>>) -> Candidates<'q>
        ensures { result ≡ items.entry.items }
    {
        Candidates { items }
    }

    pub(crate) fn len(&self) -> usize
        ensures { result ≡ length self.now }
    {
        self.items.len()
    }

    pub(crate) fn placed(&self, place: u32) -> Option<u32>
        requires { place < length self.now }
        ensures { result ≡ placed_at self.now place }
    {
        self.items[place as usize].placed()
    }

    pub(crate) fn take_all(
        &mut self,
        store: &mut Store,
        space: &mut HomSpace,
        row: u32,
    ) -> Option<Query>
        requires { AreOffered store.old row self.old }
        ensures does { DoesTakeAll store.old self.old result store.new self.new }
        ensures clear { IsClear space.old → IsClear space.new }
    {
        take_all(store, space, self.items.as_mut_slice(), row)
    }
}

// Takes the cores of the candidates, derived from the row, one after another. What it gives back is left over.
fn take_all(
    store: &mut Store,
    space: &mut HomSpace,
    candidates: &mut [Candidate],
    row: u32,
) -> Option<Query>
    requires { AreOffered store.old row candidates.old }
    ensures does { DoesTakeAll store.old candidates.old result store.new candidates.new }
    ensures clear { IsClear space.old → IsClear space.new }
{
    for place in 0..candidates.len() {
        let candidate = &mut candidates[place];
        if let Some(left) = store.take(space, candidate) {
            return Some(left);
        }
    }
    None
}
