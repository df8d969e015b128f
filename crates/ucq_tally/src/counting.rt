//! How many rewritings a run tries.
ghost use Rattle.std.specs.Prelude.{◌<◌, ◌≤◌, IfOk, length};
ghost use Rattle.ucq_terms.specs.declared.TheConstants.{ROWS};
ghost use Rattle.ucq_store.specs.Store.{IsRow, query_of, state_of};
ghost use Rattle.ucq_tally.specs.inner.Sums.{IsSaturated};
ghost use Rattle.ucq_tally.specs.inner.Counts.{HasRewritings, HasRewritingsWithAll, AddsRewritings, HasTried, IsTally};

use std::alloc::Global;
use ucq_hom::HomSpace;
use ucq_join::Joins;
use ucq_pool::alone;
use ucq_store::{RowState, Store};
use ucq_terms::{NoMemory, Problem, Query, Rule};
use ucq_unify::single_pieces;

/// What a run comes to.
#[derive(Clone, Copy, Debug, PartialEq, Eq)]
pub struct Tally {
    /// The rows of its store, live and dead.
    pub rows: u32,
    /// The one-step rewritings that were tried, or the last `u64` where there are more.
    pub rewritings: u64,
}

/// How many one-step rewritings the query has with the rule, one for each aggregate of single pieces.
///
/// None of them is built, so each takes the time that it takes to join its pieces. There are up to `2^n - 1` for `n` pieces.
pub fn rewritings(alloc: Global, query: &Query, rule: &Rule) -> Result<u64, NoMemory>
    ensures { IfOk result (λ n. IsSaturated (HasRewritings query.now rule.now) n) }
{
    let pieces = single_pieces(alloc, query, rule)?;
    let mut joins = Joins::new(alloc, query, rule, pieces.as_slice())?;
    let mut count: u64 = 0;
    while joins.next()?.is_some() {
        count = count.saturating_add(1);
    }
    Ok(count)
}

/// How many the query has with each of the rules, taken together.
fn rewritings_with_all(alloc: Global, query: &Query, rules: &[Rule]) -> Result<u64, NoMemory>
    ensures { IfOk result (λ n. IsSaturated (HasRewritingsWithAll query.now rules.now) n) }
{
    let mut sum: u64 = 0;
    for place in 0..rules.len() {
        sum = sum.saturating_add(rewritings(alloc, query, &rules[place])?);
    }
    Ok(sum)
}

/// How many rewritings were tried of a row. A row that is claimed, when the run has ended, is one that cut the store.
fn rewritings_of_row(alloc: Global, store: &Store, row: u32) -> Result<u64, NoMemory>
    requires { IsRow store.now row }
    ensures { IfOk result (λ n.
        IsSaturated
        (AddsRewritings store.now.problem.rules (state_of store.now row) (query_of store.now row))
        n) }
{
    match store.state_of(row) {
        RowState::Done | RowState::Claimed { number: _ } => {
            rewritings_with_all(alloc, store.query_of(row), store.problem().rules())
        }
        RowState::Waiting | RowState::Open | RowState::Skipped => Ok(0),
    }
}

/// How many rewritings were tried of all rows of a store.
pub fn rewritings_of_store(alloc: Global, store: &Store) -> Result<u64, NoMemory>
    ensures { IfOk result (λ n. IsSaturated (HasTried store.now) n) }
{
    let mut total: u64 = 0;
    for row in 0..store.rows() {
        total = total.saturating_add(rewritings_of_row(alloc, store, row)?);
    }
    Ok(total)
}

/// The tally of a run of the problem on one thread. The budget is 1 to 65,536.
pub fn tally_of(alloc: Global, problem: &Problem, budget: u32) -> Result<Tally, NoMemory>
    requires some { 0 < budget }
    requires small { budget ≤ ROWS }
    ensures { IfOk result (λ tally. IsTally problem.now budget tally) }
{
    let mut space = HomSpace::new(alloc)?;
    let store = alone(alloc, &mut space, problem, budget)?;
    Ok(Tally {
        rows: store.rows(),
        rewritings: rewritings_of_store(alloc, &store)?,
    })
}
