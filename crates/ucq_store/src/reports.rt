//! Reports on claimed rows.
ghost use Rattle.std.specs.Prelude.{◌≡◌, false, None};
ghost use Rattle.ucq_hom.specs.Space.{IsClear};
ghost use Rattle.ucq_store.specs.Store.{depth_of};
ghost use Rattle.ucq_store.specs.Lawful.{IsLawful, HasWideStep};
ghost use Rattle.ucq_store.specs.Reports.{AreFound, HasPlace, candidate_count, placed_in};
ghost use Rattle.ucq_store.specs.Calls.{IsAbout, DoesDeliver};

use crate::candidates::{Candidate, Candidates};
use crate::{Published, Store};
use std::marker::Model;
use ucq_hom::HomSpace;
use ucq_terms::{Problem, Query};

// What was found for the query of a row.
#[derive(Drop)]
pub(crate) enum Found<'q> {
    Whole { candidates: Candidates<'q> },
    Wide { rule: u32, count: u32 },
}

/// What was found for the query of a claimed row: all its rewritings, by their cores, or one that is too wide. Until it is
/// spent, these facts hold of it. It is spent by a publication that takes it or makes a cut of it.
///
/// A report borrows its problem and the queries of its evidence. It may live shorter than the problem of a store.
#[derive(Drop)]
pub struct Report<'q> {
    problem: &'q Problem,
    query: Query,
    found: Found<'q>,
    spent: bool,
}

impl<'q> Model for Report<'q> {
    ghost use Rattle.std.specs.Prelude.{◌≡◌, false};
    ghost use Rattle.ucq_store.specs.Reports.{Report as ReportValue, IsFound};

    ghost Value = { ReportValue };

    ghost view = { λ r.
        record { problem = r.problem.now; query = r.query; found = r.found; spent = r.spent } };

    ghost invariant = { λ r. r.spent ≡ false → IsFound r.problem.now.rules r.query r.found };
}

impl<'q> Report<'q> {
    /// A report on the row of this query. The candidates' cores are cores of one-step rewritings of it, and cover all of these.
    pub fn whole(problem: &'q Problem, query: Query, candidates: Vec<Candidate<'q>>) -> Report<'q>
        requires { AreFound problem.now.rules query candidates.items }
        ensures { result ≡
            record {
              problem = problem.entry.now;
              query = query;
              found = Found.Whole candidates.entry.items;
              spent = false;
            } }
    {
        let candidates = Candidates::of(candidates);
        Report {
            problem,
            query,
            found: Found::Whole { candidates },
            spent: false,
        }
    }

    /// A report on the row of this query, which has with this rule a one-step rewriting of `count` atoms, more than `ATOMS`.
    pub fn wide(problem: &'q Problem, query: Query, rule: u32, count: u32) -> Report<'q>
        requires { HasWideStep problem.now.rules query rule count }
        ensures { result ≡
            record {
              problem = problem.entry.now;
              query = query;
              found = Found.Wide rule count;
              spent = false;
            } }
    {
        Report {
            problem,
            query,
            found: Found::Wide { rule, count },
            spent: false,
        }
    }

    /// Whether a publication took the report or made a cut of it.
    pub fn is_spent(&self) -> bool
        ensures { result ≡ self.now.spent }
    {
        self.spent
    }

    /// How many candidates a whole report has, and 0 of a wide one.
    pub fn candidates(&self) -> usize
        ensures { result ≡ candidate_count self.now.found }
    {
        match &self.found {
            Found::Whole { candidates } => candidates.len(),
            Found::Wide { rule: _, count: _ } => 0,
        }
    }

    /// The row at which the last publication added the candidate at the place, of a whole report.
    pub fn placed(&self, place: u32) -> Option<u32>
        requires { HasPlace self.now.found place }
        ensures { result ≡ placed_in self.now.found place }
    {
        match &self.found {
            Found::Whole { candidates } => candidates.placed(place),
            Found::Wide { rule: _, count: _ } => None,
        }
    }

    pub(crate) fn problem(&self) -> &Problem
        ensures { result.now ≡ self.now.problem }
    {
        self.problem
    }

    pub(crate) fn query(&self) -> &Query
        ensures { result.now ≡ self.now.query }
    {
        &self.query
    }

    // Gives the store what was found for its row.
    pub(crate) fn deliver(&mut self, store: &mut Store, space: &mut HomSpace, row: u32) -> Published
        requires lawful { IsLawful store.old }
        requires unspent { self.old.spent ≡ false }
        requires uncut { store.old.cut ≡ None }
        requires about { IsAbout store.old row self.old }
        requires level { depth_of store.old row ≡ store.old.level }
        requires clear { IsClear space.old }
        ensures does { DoesDeliver store.old row self.old result store.new self.new }
        ensures clear { IsClear space.new }
    {
        self.spent = true;
        match &mut self.found {
            Found::Wide { rule, count } => {
                store.cut_wide(row, *rule, *count);
                Published::Cut
            }
            Found::Whole { candidates } => match candidates.take_all(store, space, row) {
                Some(left) => {
                    store.cut_full(left);
                    Published::Cut
                }
                None => {
                    store.finish(row);
                    Published::Taken
                }
            },
        }
    }
}
