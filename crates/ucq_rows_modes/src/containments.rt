//! Containment under rules, and minimal queries.
ghost use Rattle.std.specs.Prelude.{◌<◌, ◌≤◌, ◌⊎◌};
ghost use Rattle.ucq_store.specs.Store.{IsCut, IsFinished};

use crate::asserts::{asked, equal, holds, room, sure};
use std::alloc::Global;
use std::process::Abort;
use ucq_pool::alone;
use ucq_store::Store;
use ucq_terms::Problem;
use ucq_within::containment::within;
use ucq_within::{Within, minimise};
use ucq_worked::problem;

/// The store of a rewriting that may have four rows.
fn rewritten<'p>(rt: &impl Abort, alloc: Global, problem: &'p Problem) -> Store<'p>
    ensures { IsFinished result ⊎ IsCut result }
{
    let mut space = room(rt, alloc);
    sure(rt, alone(alloc, &mut space, problem, 4))
}

/// What the store of the one query under the rules tells of the other.
fn told(rt: &impl Abort, alloc: Global, rules: &[&str], of: &str, query: &str) -> Within {
    let problem = sure(rt, problem(alloc, rules, of));
    let store = rewritten(rt, alloc, &problem);
    within(&mut room(rt, alloc), &store, &asked(rt, alloc, query))
}

/// The query that is asked, the query of the store, and what is told.
fn assert_told(rt: &impl Abort, alloc: Global, rules: &[&str], rows: &[(&str, &str, Within)]) {
    for (query, of, wanted) in rows {
        equal(rt, told(rt, alloc, rules, of, query), *wanted, query);
    }
}

#[test]
fn containment_is_told_under_the_rules(rt: HostRuntime) {
    let rows = [
        ("?X pX qX", "?X pX", Within::Yes { row: 0 }),
        ("?X pX", "?X qX", Within::Yes { row: 1 }),
        ("?X pX qX", "?X qX", Within::Yes { row: 0 }),
        ("?X pX", "?X pX qX", Within::Yes { row: 1 }),
        ("?X qX", "?X pX", Within::No),
        ("?X qX", "?X pX qX", Within::No),
    ];
    assert_told(&rt, rt.alloc(), &["qX <- pX"], &rows);
}

#[test]
fn a_cut_store_leaves_open_what_no_row_covers(rt: HostRuntime) {
    let rows = [
        ("? paX pXb", "? pab", Within::Yes { row: 1 }),
        ("? pcd", "? pab", Within::Open),
    ];
    assert_told(&rt, rt.alloc(), &["pXZ <- pXY pYZ"], &rows);
}

/// Asserts that this is left of the query under the rules.
fn assert_left(rt: &impl Abort, alloc: Global, rules: &[&str], query: &str, wanted: &str) {
    let problem = sure(rt, problem(alloc, rules, query));
    let store = rewritten(rt, alloc, &problem);
    let left = sure(rt, minimise(&mut room(rt, alloc), &store));
    holds(rt, left.same(&asked(rt, alloc, wanted)));
}

/// Rules, a query, and what is left of it.
fn assert_each_left(rt: &impl Abort, alloc: Global, rows: &[(&[&str], &str, &str)]) {
    for (rules, query, wanted) in rows {
        assert_left(rt, alloc, rules, query, wanted);
    }
}

#[test]
fn needless_atoms_are_left_out(rt: HostRuntime) {
    let none: &[&str] = &[];
    let one: &[&str] = &["qX <- pX"];
    let rows = [
        (one, "?X pX qX", "?X pX"),
        (one, "?X qX pX", "?X pX"),
        (none, "?X pX qX", "?X pX qX"),
        (none, "? pXY pZW", "? pXY"),
        (one, "?XY pX qY", "?XY pX qY"),
    ];
    assert_each_left(&rt, rt.alloc(), &rows);
}
