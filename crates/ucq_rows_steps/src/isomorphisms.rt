//! Which queries are equal up to renaming.
use crate::asserts::{asked, equal, room};
use std::alloc::Global;
use std::process::Abort;
use ucq_fold::isomorphic;
use ucq_hom::HomSpace;
use ucq_terms::Query;

/// Whether the queries are isomorphic, asked both ways.
fn both_ways(space: &mut HomSpace, first: &Query, second: &Query) -> (bool, bool) {
    let (to, back) = (
        isomorphic(space, first, second),
        isomorphic(space, second, first),
    );
    (to, back && space.image_of(0).is_none())
}

/// Asserts of each row whether the queries are isomorphic.
fn assert_rows(rt: &impl Abort, alloc: Global, rows: &[(&str, &str, bool)]) {
    let mut space = room(rt, alloc);
    for (first, second, wanted) in rows {
        let found = both_ways(
            &mut space,
            &asked(rt, alloc, first),
            &asked(rt, alloc, second),
        );
        equal(rt, found, (*wanted, *wanted), first);
    }
}

#[test]
fn isomorphic_where_a_renaming_exists(rt: HostRuntime) {
    assert_rows(
        &rt,
        rt.alloc(),
        &[
            ("? pAB", "? pBA", true),
            ("? pAA", "? pAB", false),
            ("? pAB", "? pAA", false),
            ("?A pAB", "?B pAB", false),
            ("?AB pAB", "?AB pAB", true),
            ("?AB pAB pBA", "?BA pAB pBA", true),
            ("?A pAB", "? pAB", false),
            ("?a pAB", "?b pAB", false),
            ("? pAa", "? pAb", false),
            ("? pAa", "? pAB", false),
            ("? pAB qA", "? qB pBA", true),
            ("? pAB qA", "? qB pAB", false),
            ("? pAB pAC qB", "? pAB pAC qC", true),
            ("? pAB pAC pDE", "? pAB pCD pCE", true),
            ("? pAB pAC pDE", "? pAB pCD pEF", false),
            ("? pAB pAC pAD pBE", "? pAB pAC pBD pCE", false),
            ("? pAB pBC pCD pDE pEA", "? pDA pAC pCB pBE pED", true),
        ],
    );
}
