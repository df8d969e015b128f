//! Candidates whose evidence says that a row covers them.
use crate::asserts::{asked, equal};
use crate::looks::{Outcome, claim, opened, published, taken};
use crate::reports::one_rule;
use std::alloc::Global;
use std::process::Abort;
use ucq_store::Claim;

/// What becomes of the candidates of the first row under that rule, which covers them if the query of the text does and it
/// is that row's; and how many rows there are then. The report is made under an equal problem.
fn known(rt: &impl Abort, alloc: Global, rule: &str, row: u32, by: &str) -> (Outcome, u32) {
    let problem = one_rule(rt, alloc, rule, "? pa");
    let twin = one_rule(rt, alloc, rule, "? pa");
    let mut store = opened(rt, alloc, &problem, 2);
    let by = asked(rt, alloc, by);
    let first = Claim { row: 0, number: 0 };
    equal(rt, claim(&mut store), Some(first), "claim");
    let outcome = published(
        rt,
        alloc,
        &mut store,
        &twin,
        first,
        "? pa",
        Some((row, &by)),
    );
    (outcome, store.rows())
}

#[test]
fn a_known_core_gets_no_row(rt: HostRuntime) {
    let answer = known(&rt, rt.alloc(), "pa <- pa qa", 0, "? pa");
    equal(&rt, answer, (taken(None), 1), "answer");
}

#[test]
fn evidence_of_a_row_with_another_query_is_no_evidence(rt: HostRuntime) {
    let answer = known(&rt, rt.alloc(), "pa <- qa", 0, "? qa");
    equal(&rt, answer, (taken(Some(1)), 2), "answer");
}

#[test]
fn evidence_of_no_row_is_no_evidence(rt: HostRuntime) {
    let answer = known(&rt, rt.alloc(), "pa <- qa", 1, "? qa");
    equal(&rt, answer, (taken(Some(1)), 2), "answer");
}
