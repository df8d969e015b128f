//! A level of several rows.
ghost use Rattle.std.specs.Prelude.{◌≡◌, length};

use crate::asserts::{equal, holds};
use crate::looks::{claim, mark_of, opened, published, raise, release, taken};
use crate::reports::one_rule;
use std::alloc::Global;
use std::process::Abort;
use ucq_store::{Claim, Released, RowState, Store};
use ucq_terms::Problem;

/// A store whose first row has three rewritings, which are open.
fn second_level<'p>(rt: &impl Abort, alloc: Global, problem: &'p Problem) -> Store<'p>
    requires { length problem.now.rules ≡ 1 }
{
    let mut store = opened(rt, alloc, problem, 4);
    let first = Claim { row: 0, number: 0 };
    equal(rt, claim(&mut store), Some(first), "claim");
    let outcome = published(rt, alloc, &mut store, problem, first, "?XZ pXA pZB", None);
    equal(rt, outcome, taken(Some(1)), "report");
    holds(rt, raise(&mut store));
    store
}

fn assert_marks(rt: &impl Abort, store: &Store, rows: &[(u32, RowState)]) {
    let mut row = 0u32;
    for (depth, state) in rows {
        equal(
            rt,
            mark_of(store, row),
            Some((true, *depth, *state)),
            "a row",
        );
        row = row.saturating_add(1);
    }
    equal(rt, store.rows(), row, "rows");
}

#[test]
fn a_new_level_opens_its_rows(rt: HostRuntime) {
    let problem = one_rule(&rt, rt.alloc(), "pXY <- sX", "?XZ pXA pZB");
    let store = second_level(&rt, rt.alloc(), &problem);
    let open = (1, RowState::Open);
    assert_marks(&rt, &store, &[(0, RowState::Done), open, open, open]);
    equal(&rt, store.level(), 1, "level");
}

#[test]
fn a_claim_of_before_a_reopening_is_strange(rt: HostRuntime) {
    let problem = one_rule(&rt, rt.alloc(), "pXY <- sX", "?XZ pXA pZB");
    let mut store = second_level(&rt, rt.alloc(), &problem);
    let first = Claim { row: 1, number: 1 };
    equal(&rt, claim(&mut store), Some(first), "first");
    let second = Claim { row: 2, number: 2 };
    equal(&rt, claim(&mut store), Some(second), "second");
    store.reopen();
    let state = Some(RowState::Open);
    let strange = Released::Strange { state };
    equal(&rt, release(&mut store, first), strange, "released");
}
