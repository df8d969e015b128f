//! Claims of rows, which are released or reopened.
use crate::asserts::{equal, holds};
use crate::looks::{claim, mark_of, opened, raise, release};
use crate::reports::one_rule;
use ucq_store::{Claim, Released, RowState};

const FIRST: Claim = Claim { row: 0, number: 0 };

#[test]
fn a_row_is_claimed_once(rt: HostRuntime) {
    let problem = one_rule(&rt, rt.alloc(), "qX <- pX", "?X qX");
    let mut store = opened(&rt, rt.alloc(), &problem, 2);
    equal(&rt, claim(&mut store), Some(FIRST), "first");
    equal(&rt, claim(&mut store), None, "second");
    equal(&rt, store.claims(), 1, "claims");
    let state = RowState::Claimed { number: 0 };
    equal(&rt, mark_of(&store, 0), Some((true, 0, state)), "row");
}

#[test]
fn a_level_with_a_claimed_row_is_not_left(rt: HostRuntime) {
    let problem = one_rule(&rt, rt.alloc(), "qX <- pX", "?X qX");
    let mut store = opened(&rt, rt.alloc(), &problem, 2);
    holds(&rt, claim(&mut store).is_some());
    holds(&rt, !raise(&mut store));
    holds(&rt, !store.is_finished());
}

#[test]
fn a_claim_is_released_once(rt: HostRuntime) {
    let problem = one_rule(&rt, rt.alloc(), "qX <- pX", "?X qX");
    let mut store = opened(&rt, rt.alloc(), &problem, 2);
    equal(&rt, claim(&mut store), Some(FIRST), "claim");
    equal(&rt, release(&mut store, FIRST), Released::Opened, "first");
    let state = Some(RowState::Open);
    let strange = Released::Strange { state };
    equal(&rt, release(&mut store, FIRST), strange, "second");
}

#[test]
fn a_claim_of_a_row_that_is_not_there_is_strange(rt: HostRuntime) {
    let problem = one_rule(&rt, rt.alloc(), "qX <- pX", "?X qX");
    let mut store = opened(&rt, rt.alloc(), &problem, 2);
    holds(&rt, claim(&mut store).is_some());
    let strange = Released::Strange { state: None };
    let other = Claim { row: 1, number: 0 };
    equal(&rt, release(&mut store, other), strange, "row 1");
}

#[test]
fn reopened_rows_are_claimed_anew(rt: HostRuntime) {
    let problem = one_rule(&rt, rt.alloc(), "qX <- pX", "?X qX");
    let mut store = opened(&rt, rt.alloc(), &problem, 2);
    holds(&rt, claim(&mut store).is_some());
    store.reopen();
    equal(
        &rt,
        mark_of(&store, 0),
        Some((true, 0, RowState::Open)),
        "row",
    );
    let again = Claim { row: 0, number: 1 };
    equal(&rt, claim(&mut store), Some(again), "claim");
}
