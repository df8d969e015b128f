//! What becomes of a claim and of the reports on its row.
use crate::asserts::{equal, holds};
use crate::looks::{
    claim, holds_query, mark_of, opened, published, raise, refused, release, taken,
};
use crate::reports::one_rule;
use ucq_store::{Claim, Published, Released, RowState};

#[test]
fn a_row_is_claimed_released_and_rewritten(rt: HostRuntime) {
    let problem = one_rule(&rt, rt.alloc(), "qX <- pX", "?X qX");
    let mut store = opened(&rt, rt.alloc(), &problem, 2);
    let first = Claim { row: 0, number: 0 };
    equal(&rt, claim(&mut store), Some(first), "first claim");
    equal(&rt, claim(&mut store), None, "no other row");
    equal(
        &rt,
        release(&mut store, first),
        Released::Opened,
        "released",
    );
    let state = Some(RowState::Open);
    equal(
        &rt,
        release(&mut store, first),
        Released::Strange { state },
        "again",
    );
    let second = Claim { row: 0, number: 1 };
    equal(&rt, claim(&mut store), Some(second), "second claim");
    let outcome = published(&rt, rt.alloc(), &mut store, &problem, second, "?X qX", None);
    equal(&rt, outcome, taken(Some(1)), "taken");
    let outcome = published(&rt, rt.alloc(), &mut store, &problem, second, "?X qX", None);
    let state = RowState::Done;
    equal(
        &rt,
        outcome,
        refused(Published::Strange { state }),
        "strange",
    );
    let outcome = published(&rt, rt.alloc(), &mut store, &problem, second, "?X pX", None);
    equal(&rt, outcome, refused(Published::Foreign), "foreign");
    holds(&rt, raise(&mut store));
    equal(
        &rt,
        mark_of(&store, 1),
        Some((true, 1, RowState::Open)),
        "row 1",
    );
    holds(&rt, holds_query(&rt, rt.alloc(), &store, 1, "?X pX"));
}

#[test]
fn a_report_on_another_query_is_foreign(rt: HostRuntime) {
    let problem = one_rule(&rt, rt.alloc(), "qX <- pX", "?X qX");
    let mut store = opened(&rt, rt.alloc(), &problem, 2);
    let first = Claim { row: 0, number: 0 };
    equal(&rt, claim(&mut store), Some(first), "claim");
    let outcome = published(&rt, rt.alloc(), &mut store, &problem, first, "?X pX", None);
    equal(&rt, outcome, refused(Published::Foreign), "foreign");
    let state = RowState::Claimed { number: 0 };
    equal(&rt, mark_of(&store, 0), Some((true, 0, state)), "row 0");
}
