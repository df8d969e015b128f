//! What a rewriting on one thread ends with.
ghost use Rattle.std.specs.Prelude.{◌<◌, ◌≤◌};

use crate::asserts::{asked, equal, holds, room, sure};
use crate::looks::{holds_query, mark_of};
use std::alloc::Global;
use std::process::Abort;
use ucq_pool::alone;
use ucq_store::{Cut, Store};
use ucq_terms::{Problem, Query};
use ucq_worked::problem;

/// Whether the row is live and as deep as its number.
fn is_live_at_depth(store: &Store, row: u32) -> bool {
    match mark_of(store, row) {
        Some((live, depth, _)) => live && depth == row,
        None => false,
    }
}

/// Asserts that these are the rows, in order, each live, as deep as its number, and the query of its text.
fn assert_rows(rt: &impl Abort, alloc: Global, store: &Store, texts: &[&str]) {
    let mut row = 0u32;
    for text in texts {
        holds(rt, is_live_at_depth(store, row));
        holds(rt, holds_query(rt, alloc, store, row, text));
        row = row.saturating_add(1);
    }
    equal(rt, store.rows(), row, "rows");
}

/// The query `?X rX` under these rules.
fn asked_under(rt: &impl Abort, alloc: Global, rules: &[&str]) -> Problem {
    sure(rt, problem(alloc, rules, "?X rX"))
}

/// The store of a rewriting that may have so many rows.
fn rewritten<'p>(rt: &impl Abort, alloc: Global, problem: &'p Problem, budget: u32) -> Store<'p>
    requires some { 0 < budget }
    requires small { budget ≤ 65536 }
{
    let mut space = room(rt, alloc);
    sure(rt, alone(alloc, &mut space, problem, budget))
}

#[test]
fn without_rules_the_query_is_all(rt: HostRuntime) {
    let problem = asked_under(&rt, rt.alloc(), &[]);
    let store = rewritten(&rt, rt.alloc(), &problem, 1);
    holds(&rt, store.is_finished());
    assert_rows(&rt, rt.alloc(), &store, &["?X rX"]);
}

#[test]
fn a_chain_of_rules_is_rewritten_to_its_end(rt: HostRuntime) {
    let problem = asked_under(&rt, rt.alloc(), &["rX <- qX", "qX <- pX"]);
    let store = rewritten(&rt, rt.alloc(), &problem, 3);
    holds(&rt, store.is_finished());
    assert_rows(&rt, rt.alloc(), &store, &["?X rX", "?X qX", "?X pX"]);
}

/// Whether the store is cut at its rows, and this query is left.
fn leaves(store: &Store, wanted: &Query) -> bool {
    match store.cut() {
        Some(Cut::Rows { left }) => left.same(wanted),
        _ => false,
    }
}

#[test]
fn a_small_budget_cuts_a_chain(rt: HostRuntime) {
    let problem = asked_under(&rt, rt.alloc(), &["rX <- qX", "qX <- pX"]);
    let store = rewritten(&rt, rt.alloc(), &problem, 2);
    assert_rows(&rt, rt.alloc(), &store, &["?X rX", "?X qX"]);
    holds(&rt, leaves(&store, &asked(&rt, rt.alloc(), "?X pX")));
}
