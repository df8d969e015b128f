//! What is looked at in a store, and what is asked of it.
ghost use Rattle.std.specs.Prelude.{◌≡◌, ◌<◌, ◌≤◌, false, length};

use crate::asserts::{asked, room, sure};
use crate::reports::{Evidence, report_on};
use std::alloc::Global;
use std::process::Abort;
use ucq_hom::HomSpace;
use ucq_store::{Claim, Published, Released, Report, RowState, Store};
use ucq_terms::Problem;

/// A new store of the problem, with that budget.
pub(crate) fn opened<'p>(
    rt: &impl Abort,
    alloc: Global,
    problem: &'p Problem,
    budget: u32,
) -> Store<'p>
    requires some { 0 < budget }
    requires small { budget ≤ 65536 }
{
    let mut space = room(rt, alloc);
    sure(rt, Store::new(alloc, &mut space, problem, budget))
}

/// The next claim.
pub(crate) fn claim(store: &mut Store) -> Option<Claim> {
    store.claim()
}

/// What becomes of a claim that is given back.
pub(crate) fn release(store: &mut Store, claim: Claim) -> Released {
    store.release(claim)
}

/// Whether the level is raised.
pub(crate) fn raise(store: &mut Store) -> bool {
    store.next_level()
}

/// Whether the row is live, its depth and its state.
pub(crate) fn mark_of(store: &Store, row: u32) -> Option<(bool, u32, RowState)> {
    if row < store.rows() {
        Some((store.is_live(row), store.depth_of(row), store.state_of(row)))
    } else {
        None
    }
}

/// Whether the row holds the query of the text.
pub(crate) fn holds_query(
    rt: &impl Abort,
    alloc: Global,
    store: &Store,
    row: u32,
    text: &str,
) -> bool {
    row < store.rows() && store.query_of(row).same(&asked(rt, alloc, text))
}

/// What became of a report, whether it is spent, and where its first candidate was added.
#[derive(Clone, Copy, Debug, PartialEq, Eq)]
pub(crate) struct Outcome {
    pub answer: Published,
    pub spent: bool,
    pub placed: Option<u32>,
}

/// Where the first candidate was added.
fn first_placed(report: &Report) -> Option<u32> {
    if report.candidates() > 0 {
        report.placed(0)
    } else {
        None
    }
}

fn publish<'q>(
    space: &mut HomSpace,
    store: &mut Store,
    claim: Claim,
    report: &mut Report<'q>,
) -> Published
    requires { report.old.spent ≡ false }
{
    store.publish(space, claim, report)
}

/// What becomes of the report on the query of the text.
pub(crate) fn published<'q>(
    rt: &impl Abort,
    alloc: Global,
    store: &mut Store,
    problem: &'q Problem,
    claim: Claim,
    text: &str,
    evidence: Evidence<'q>,
) -> Outcome
    requires { length problem.now.rules ≡ 1 }
{
    let mut space = room(rt, alloc);
    let query = asked(rt, alloc, text);
    let mut report = report_on(rt, alloc, &mut space, problem, query, evidence);
    let answer = publish(&mut space, store, claim, &mut report);
    Outcome {
        answer,
        spent: report.is_spent(),
        placed: first_placed(&report),
    }
}

/// The outcome of a report that changes nothing.
pub(crate) fn refused(answer: Published) -> Outcome {
    Outcome {
        answer,
        spent: false,
        placed: None,
    }
}

/// The outcome of a report that is taken, with the row of its first candidate.
pub(crate) fn taken(placed: Option<u32>) -> Outcome {
    Outcome {
        answer: Published::Taken,
        spent: true,
        placed,
    }
}
