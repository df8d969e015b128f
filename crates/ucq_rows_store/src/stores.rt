//! New and finished stores.
use crate::asserts::{asked, equal, holds};
use crate::looks::{claim, holds_query, mark_of, opened, published, raise, taken};
use crate::reports::one_rule;
use ucq_store::{Claim, RowState, Store};
use ucq_terms::Query;

#[test]
fn a_new_store_has_one_open_row(rt: HostRuntime) {
    let problem = one_rule(&rt, rt.alloc(), "qX <- pX", "?X qX");
    let store = opened(&rt, rt.alloc(), &problem, 2);
    equal(&rt, store.rows(), 1, "rows");
    equal(
        &rt,
        mark_of(&store, 0),
        Some((true, 0, RowState::Open)),
        "0",
    );
    holds(&rt, holds_query(&rt, rt.alloc(), &store, 0, "?X qX"));
}

/// The budget, the level and the number of claims.
fn counts(store: &Store) -> (u32, u32, u64) {
    (store.budget(), store.level(), store.claims())
}

#[test]
fn a_new_store_has_its_problem_and_budget(rt: HostRuntime) {
    let problem = one_rule(&rt, rt.alloc(), "qX <- pX", "?X qX");
    let store = opened(&rt, rt.alloc(), &problem, 2);
    equal(&rt, counts(&store), (2, 0, 0), "counts");
    holds(&rt, store.problem().same(&problem));
}

#[test]
fn a_new_store_is_neither_cut_nor_finished(rt: HostRuntime) {
    let problem = one_rule(&rt, rt.alloc(), "qX <- pX", "?X qX");
    let store = opened(&rt, rt.alloc(), &problem, 2);
    holds(&rt, store.cut().is_none());
    holds(&rt, !store.is_finished());
}

/// Whether the store is finished, and its live rows are just the given query.
fn gives_just(store: Store, wanted: &Query) -> bool {
    if !store.is_finished() {
        return false;
    }
    let union = store.into_union();
    union.len() == 1 && union.query(0).same(wanted)
}

#[test]
fn a_finished_store_gives_its_live_rows(rt: HostRuntime) {
    let problem = one_rule(&rt, rt.alloc(), "sX <- tX", "?X qX");
    let mut store = opened(&rt, rt.alloc(), &problem, 2);
    let first = Claim { row: 0, number: 0 };
    equal(&rt, claim(&mut store), Some(first), "claim");
    let outcome = published(&rt, rt.alloc(), &mut store, &problem, first, "?X qX", None);
    equal(&rt, outcome, taken(None), "report");
    holds(&rt, !raise(&mut store));
    holds(&rt, gives_just(store, &asked(&rt, rt.alloc(), "?X qX")));
}
