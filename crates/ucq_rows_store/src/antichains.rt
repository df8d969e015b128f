//! Rows that prune one another.
use crate::asserts::{asked, equal, holds, room, sure};
use std::alloc::Global;
use std::process::Abort;
use ucq_antichain::{Added, Antichain};
use ucq_hom::HomSpace;
use ucq_terms::Query;

/// What became of a query that was added.
#[derive(Clone, Copy, Debug, PartialEq, Eq)]
enum Outcome {
    Added { row: u32, pruned: u32 },
    Covered { row: u32 },
    Full,
}

fn added(
    rt: &impl Abort,
    alloc: Global,
    space: &mut HomSpace,
    rows: &mut Antichain,
    text: &str,
) -> Outcome {
    match rows.add(space, asked(rt, alloc, text)) {
        Added::Added { row, pruned } => Outcome::Added { row, pruned },
        Added::Covered { row, query: _ } => Outcome::Covered { row },
        Added::Full { query: _ } => Outcome::Full,
    }
}

/// The first live row that covers the query of the text.
fn cover(
    rt: &impl Abort,
    alloc: Global,
    space: &mut HomSpace,
    rows: &Antichain,
    text: &str,
) -> Option<u32> {
    rows.covered(space, &asked(rt, alloc, text))
}

/// No rows, with room for two.
fn fresh(rt: &impl Abort, alloc: Global) -> Antichain {
    sure(rt, Antichain::new(alloc, 2))
}

/// Two rows, of which the second covers the first, where there is room for no more.
fn pruned(rt: &impl Abort, alloc: Global) -> Antichain {
    let mut space = room(rt, alloc);
    let mut rows = fresh(rt, alloc);
    added(rt, alloc, &mut space, &mut rows, "? pXa");
    added(rt, alloc, &mut space, &mut rows, "? pXY");
    rows
}

/// Asserts of each query what becomes of it, in turn.
fn assert_added(rt: &impl Abort, alloc: Global, rows: &[(&str, Outcome)]) {
    let mut space = room(rt, alloc);
    let mut kept = fresh(rt, alloc);
    for (text, wanted) in rows {
        let outcome = added(rt, alloc, &mut space, &mut kept, text);
        equal(rt, outcome, *wanted, text);
        holds(rt, space.image_of(0).is_none());
    }
}

#[test]
fn general_queries_prune_special_ones(rt: HostRuntime) {
    assert_added(
        &rt,
        rt.alloc(),
        &[
            ("? pXa", Outcome::Added { row: 0, pruned: 0 }),
            ("? pXY", Outcome::Added { row: 1, pruned: 1 }),
            ("? pbY", Outcome::Covered { row: 1 }),
            ("? qX", Outcome::Full),
        ],
    );
}

/// Asserts of each query which live row covers it.
fn assert_covers(rt: &impl Abort, alloc: Global, kept: &Antichain, rows: &[(&str, Option<u32>)]) {
    let mut space = room(rt, alloc);
    for (text, wanted) in rows {
        equal(rt, cover(rt, alloc, &mut space, kept, text), *wanted, text);
    }
}

#[test]
fn no_row_covers_a_query(rt: HostRuntime) {
    let rows = fresh(&rt, rt.alloc());
    assert_covers(&rt, rt.alloc(), &rows, &[("? pXa", None)]);
}

#[test]
fn the_live_row_that_covers_is_found(rt: HostRuntime) {
    let rows = pruned(&rt, rt.alloc());
    assert_covers(
        &rt,
        rt.alloc(),
        &rows,
        &[("? pXa", Some(1)), ("? pbY", Some(1)), ("? qX", None)],
    );
}

/// Whether the row is live, and its query the given one.
fn row_of(rows: &Antichain, row: u32, wanted: &Query) -> Option<(bool, bool)> {
    if row < rows.len() {
        Some((rows.is_live(row), rows.query(row).same(wanted)))
    } else {
        None
    }
}

/// Asserts of each row whether it is live and holds the query of the text.
fn assert_rows(
    rt: &impl Abort,
    alloc: Global,
    kept: &Antichain,
    rows: &[(u32, &str, Option<(bool, bool)>)],
) {
    for (row, text, wanted) in rows {
        let query = asked(rt, alloc, text);
        equal(rt, row_of(kept, *row, &query), *wanted, text);
    }
}

#[test]
fn pruned_rows_stay_with_their_queries(rt: HostRuntime) {
    let rows = pruned(&rt, rt.alloc());
    equal(&rt, rows.budget(), 2, "budget");
    assert_rows(
        &rt,
        rt.alloc(),
        &rows,
        &[
            (0, "? pXa", Some((false, true))),
            (1, "? pXY", Some((true, true))),
            (2, "? pXY", None),
        ],
    );
}

/// Whether the queries are just the given one.
fn is_just(queries: &[Query], wanted: &Query) -> bool {
    queries.len() == 1 && queries[0].same(wanted)
}

#[test]
fn live_queries_alone_are_left(rt: HostRuntime) {
    let live = pruned(&rt, rt.alloc()).into_live();
    holds(
        &rt,
        is_just(live.as_slice(), &asked(&rt, rt.alloc(), "? pXY")),
    );
}
