//! The store.
ghost use Rattle.std.specs.Prelude.{◌≡◌, ◌<◌, ◌≤◌, length, vec_len, MatchOption, IfOk, IfSome, IsTrue, ◌↔◌, Some, None, false};
ghost use Rattle.ucq_terms.specs.declared.TheConstants.{ROWS};
ghost use Rattle.ucq_terms.specs.Homomorphism.{IsCoreOf};
ghost use Rattle.ucq_terms.specs.Union.{IsExact};
ghost use Rattle.ucq_hom.specs.Space.{IsClear};
ghost use Rattle.ucq_antichain.specs.Rows.{row_at, query_at, live_queries};
ghost use Rattle.ucq_store.specs.Store.{IsRow, IsFinished};
ghost use Rattle.ucq_store.specs.Store.{query_of as query_in, state_of as state_in, depth_of as depth_in};
ghost use Rattle.ucq_store.specs.Lawful.{IsLawfulByLevels, IsLeftOver, IsWideRow};
ghost use Rattle.ucq_store.specs.Changes.{with_state, with_cut, IsExhausted};
ghost use Rattle.ucq_store.specs.Calls.{IsNew, DoesClaim, DoesRelease, DoesReopen, DoesRaise, IsOffered, DoesTake, DoesPublish};

use crate::candidates::Candidate;
use crate::marks::{Marks, is_claimed_under};
use crate::reports::Report;
use crate::{Claim, Cut, Mark, Published, Released, RowState};
use std::alloc::Global;
use std::marker::Model;
use ucq_antichain::{Added, Antichain};
use ucq_fold::shrink;
use ucq_hom::HomSpace;
use ucq_terms::{NoMemory, Problem, Query, Union};

/// The rows of a rewriting, at most as many as the budget says. No call but `new` takes memory.
#[derive(Drop)]
pub struct Store<'p> {
    problem: &'p Problem,
    antichain: Antichain,
    marks: Marks,
    level: u32,
    claims: u64,
    cut: Option<Cut>,
}

impl<'p> Model for Store<'p> {
    ghost use Rattle.std.specs.Prelude.{◌≤◌};
    ghost use Rattle.ucq_terms.specs.declared.TheConstants.{ROWS};
    ghost use Rattle.ucq_store.specs.Store.{Store as StoreValue};
    ghost use Rattle.ucq_store.specs.Lawful.{IsLawfulByLevels};

    ghost Value = { StoreValue };

    ghost view = { λ s.
        record {
          problem = s.problem.now;
          budget = s.antichain.budget;
          rows = s.antichain.rows;
          marks = s.marks.items;
          level = s.level;
          claims = s.claims;
          cut = s.cut;
        } };

    ghost invariant = { λ s.
        IsLawfulByLevels (record {
          problem = s.problem.now;
          budget = s.antichain.budget;
          rows = s.antichain.rows;
          marks = s.marks.items;
          level = s.level;
          claims = s.claims;
          cut = s.cut;
        })
        × (s.antichain.budget ≤ ROWS)
        × (s.antichain.budget ≤ s.marks.room) };
}

impl<'p> Store<'p> {
    /// A store of one row, a core of the problem's query, which is live and open, at level 0. The budget is 1 to 65,536.
    pub fn new(
        alloc: Global,
        space: &mut HomSpace,
        problem: &'p Problem,
        budget: u32,
    ) -> Result<Store<'p>, NoMemory>
        requires some { 0 < budget }
        requires small { budget ≤ ROWS }
        ensures new { IfOk result (λ s. IsNew problem.now budget s) }
        ensures clear { IsClear space.new }
    {
        space.clear();
        let mut core = problem.query().copy()?;
        shrink(space, &mut core);
        let mut antichain = Antichain::new(alloc, budget)?;
        let _ = antichain.add(space, core);
        let mut marks = Marks::with_capacity(alloc, budget)?;
        marks.push(Mark {
            depth: 0,
            state: RowState::Open,
        });
        Ok(Store {
            problem,
            antichain,
            marks,
            level: 0,
            claims: 0,
            cut: None,
        })
    }

    /// The problem.
    pub fn problem(&self) -> &Problem
        ensures { result.now ≡ self.now.problem }
    {
        self.problem
    }

    /// The most rows that there may be.
    pub fn budget(&self) -> u32
        ensures budget { result ≡ self.now.budget }
        ensures small { result ≤ ROWS }
    {
        let _ = &self.level;
        self.antichain.budget()
    }

    /// How many rows there are, live and dead.
    pub fn rows(&self) -> u32
        ensures rows { result ≡ length self.now.rows }
        ensures lawful { IsLawfulByLevels self.now }
    {
        let _ = &self.level;
        self.antichain.len()
    }

    /// The level of the rows that are worked on.
    pub fn level(&self) -> u32
        ensures { result ≡ self.now.level }
    {
        self.level
    }

    /// How many claims were ever given.
    pub fn claims(&self) -> u64
        ensures { result ≡ self.now.claims }
    {
        self.claims
    }

    /// The cut, if the store is cut.
    pub fn cut(&self) -> Option<&Cut>
        ensures cut { MatchOption result (self.now.cut ≡ None) (λ cut.
            self.now.cut ≡ Some cut.now) }
        ensures lawful { IsLawfulByLevels self.now }
    {
        self.cut.as_ref()
    }

    /// The query of a row.
    pub fn query_of(&self, row: u32) -> &Query
        requires { IsRow self.now row }
        ensures { result.now ≡ query_in self.now row }
    {
        self.antichain.query(row)
    }

    /// Whether a row is live.
    pub fn is_live(&self, row: u32) -> bool
        requires { IsRow self.now row }
        ensures { result ≡ (row_at self.now.rows row).live }
    {
        self.antichain.is_live(row)
    }

    /// How many rewritings lead to a row from the first one.
    pub fn depth_of(&self, row: u32) -> u32
        requires { IsRow self.now row }
        ensures { result ≡ depth_in self.now row }
    {
        self.marks.of(row).depth
    }

    /// Where a row's work stands.
    pub fn state_of(&self, row: u32) -> RowState
        requires { IsRow self.now row }
        ensures { result ≡ state_in self.now row }
    {
        self.marks.of(row).state
    }

    /// Claims the first open row, under the number of claims given before. `None` comes where the store is cut, no row is
    /// open, or the number is at the last `u64`. The search goes on where the last one ended.
    pub fn claim(&mut self) -> Option<Claim>
        ensures does { DoesClaim self.old result self.new }
        ensures row { IfSome result (λ claim. IsRow self.old claim.row) }
    {
        if self.cut.is_some() || self.claims == u64::MAX {
            return None;
        }
        let Some(row) = self.marks.first_open() else {
            return None;
        };
        let number = self.claims;
        self.marks.set_state(row, RowState::Claimed { number });
        self.claims = number + 1;
        Some(Claim { row, number })
    }

    /// Gives a claim back: the row is open again, if it is claimed under that number.
    pub fn release(&mut self, claim: Claim) -> Released
        ensures { DoesRelease self.old claim result self.new }
    {
        if claim.row >= self.antichain.len() {
            return Released::Strange { state: None };
        }
        let state = self.marks.of(claim.row).state;
        if !is_claimed_under(state, claim.number) {
            return Released::Strange { state: Some(state) };
        }
        self.marks.set_state(claim.row, RowState::Open);
        Released::Opened
    }

    /// Makes every claimed row open. Earlier claims are strange from then on.
    pub fn reopen(&mut self)
        ensures { DoesReopen self.old self.new }
    {
        self.marks.reopen();
    }

    /// Takes a report on a claimed row. Its candidates are taken in order: each becomes a waiting row one level deeper, or
    /// is covered by a live row; and then the row is done. The store is cut if the report is wide, or if a core is covered by
    /// no live row while the rows number the budget; rows that were added before stay. A cut store, a report on another query
    /// or problem, and a claim that isn't the row's are refused, in this order. Compares the queries and the problems by
    /// their values. A candidate whose evidence names a row that holds its query is covered without a search; for any other,
    /// up to two homomorphisms are searched for each live row.
    pub fn publish<'q>(
        &mut self,
        space: &mut HomSpace,
        claim: Claim,
        report: &mut Report<'q>,
    ) -> Published
        requires { report.old.spent ≡ false }
        ensures does { DoesPublish self.old claim report.old result self.new report.new }
        ensures clear { IsClear space.new }
    {
        space.clear();
        if self.cut.is_some() {
            return Published::Cut;
        }
        if !self.problem.same(report.problem()) {
            return Published::Foreign;
        }
        self.publish_own(space, claim, report)
    }

    /// Takes a report as `publish` does, where the caller knows that it is on the store's problem. So the problems aren't
    /// compared, which takes the time of all rules.
    pub fn publish_own<'q>(
        &mut self,
        space: &mut HomSpace,
        claim: Claim,
        report: &mut Report<'q>,
    ) -> Published
        requires unspent { report.old.spent ≡ false }
        requires problem { self.old.problem ≡ report.old.problem }
        ensures does { DoesPublish self.old claim report.old result self.new report.new }
        ensures clear { IsClear space.new }
    {
        space.clear();
        if self.cut.is_some() {
            return Published::Cut;
        }
        if !self.holds(claim.row, report.query()) {
            return Published::Foreign;
        }
        let state = self.state_of(claim.row);
        if !is_claimed_under(state, claim.number) {
            return Published::Strange { state };
        }
        report.deliver(self, space, claim.row)
    }

    /// Raises the level, where the store isn't cut, no row is open or claimed, and a live row waits. Then live waiting rows
    /// are open, and dead ones are skipped.
    pub fn next_level(&mut self) -> bool
        ensures { DoesRaise self.old result self.new }
    {
        if self.cut.is_some()
            || self.marks.is_any_in_work()
            || !self.marks.does_any_wait(&self.antichain)
        {
            return false;
        }
        self.marks.raise(&self.antichain);
        self.level += 1;
        true
    }

    /// Whether the store isn't cut, no row is open or claimed, and no live row waits.
    pub fn is_finished(&self) -> bool
        ensures finished { IsTrue result ↔ IsFinished self.now }
        ensures lawful { IsLawfulByLevels self.now }
    {
        if self.cut.is_some() || self.marks.is_any_in_work() {
            return false;
        }
        !self.marks.does_any_wait(&self.antichain)
    }

    /// Copies of the queries of the live rows of a finished store, in order. Want of memory is the one error.
    pub fn union(&self, alloc: Global) -> Result<Union, NoMemory>
        requires { IsFinished self.now }
        ensures live { IfOk result (λ union. union ≡ live_queries self.now.rows) }
        ensures exact { IfOk result (λ union. IsExact self.now.problem union) }
    {
        let _ = &self.level;
        Ok(Union::new(live_copies(alloc, &self.antichain)?))
    }

    /// The queries of the live rows of a finished store, in order.
    pub fn into_union(self) -> Union
        requires { IsFinished self }
        ensures live { result ≡ live_queries self.entry.rows }
        ensures exact { IsExact self.entry.problem result }
    {
        Union::new(self.antichain.into_live())
    }

    // Whether there is a row of that number, with the query.
    fn holds(&self, row: u32, query: &Query) -> bool
        ensures { IsTrue result ↔ (IsRow self.now row × (query_in self.now row ≡ query.now)) }
    {
        row < self.antichain.len() && self.antichain.query(row).same(query)
    }

    // Takes the core of a candidate. What it gives back is left over.
    pub(crate) fn take(&mut self, space: &mut HomSpace, candidate: &mut Candidate) -> Option<Query>
        requires { IsOffered self.old candidate.old }
        ensures does { DoesTake self.old candidate.old result self.new candidate.new }
        ensures clear { IsClear space.old → IsClear space.new }
    {
        let is_known = candidate.is_known(&self.antichain);
        let core = candidate.take()?;
        if is_known {
            return None;
        }
        match self.antichain.add(space, core) {
            Added::Covered { row: _, query: _ } => None,
            Added::Full { query } => Some(query),
            Added::Added { row, pruned: _ } => {
                candidate.place(row);
                self.marks.push(Mark {
                    depth: self.level + 1,
                    state: RowState::Waiting,
                });
                None
            }
        }
    }

    // Notes that the row's rewritings are all covered.
    pub(crate) fn finish(&mut self, row: u32)
        requires row { IsRow self.old row }
        requires level { depth_in self.old row ≡ self.old.level }
        requires exhausted { IsExhausted self.old row }
        ensures { self.new ≡ with_state self.old row RowState.Done }
    {
        self.marks.set_state(row, RowState::Done);
    }

    // Cuts the store at a core for which there is no room.
    pub(crate) fn cut_full(&mut self, left: Query)
        requires { IsLeftOver self.old.problem self.old.budget self.old.rows left }
        ensures { self.new ≡ with_cut self.old (Cut.Rows left) }
    {
        self.cut = Some(Cut::Rows { left });
    }

    // Cuts the store at a row that has a rewriting that is too wide.
    pub(crate) fn cut_wide(&mut self, row: u32, rule: u32, count: u32)
        requires { IsWideRow self.old.problem.rules self.old.rows row rule count }
        ensures { self.new ≡ with_cut self.old (Cut.Wide row rule count) }
    {
        self.cut = Some(Cut::Wide { row, rule, count });
    }
}

// Copies of the queries of the live rows, in order.
fn live_copies(alloc: Global, antichain: &Antichain) -> Result<Vec<Query>, NoMemory>
    ensures live { IfOk result (λ live. live.items ≡ live_queries antichain.now.rows) }
    ensures few { IfOk result (λ live. vec_len live ≤ ROWS) }
{
    let mut live = Vec::new(alloc);
    for row in 0..antichain.len() {
        if antichain.is_live(row) {
            live.push(antichain.query(row).copy()?)?;
        }
    }
    Ok(live)
}
