//! Which queries cover which.
use crate::asserts::{asked, equal, room};
use std::alloc::Global;
use std::process::Abort;
use ucq_hom::{HomSpace, covers};

fn covers_by(rt: &impl Abort, alloc: Global, space: &mut HomSpace, from: &str, to: &str) -> bool {
    covers(space, &asked(rt, alloc, from), &asked(rt, alloc, to))
}

/// Asserts of each row whether the first query covers the second.
fn assert_rows(rt: &impl Abort, alloc: Global, rows: &[(&str, &str, bool)]) {
    let mut space = room(rt, alloc);
    for (from, to, wanted) in rows {
        let found = covers_by(rt, alloc, &mut space, from, to);
        equal(rt, found, *wanted, from);
    }
}

#[test]
fn covers_where_a_homomorphism_exists(rt: HostRuntime) {
    assert_rows(
        &rt,
        rt.alloc(),
        &[
            ("? pAB pBA", "? pAA", true),
            ("? pAA", "? pAB pBA", false),
            ("?A pAB", "?A pAB pBC", true),
            ("?A pAB pBC", "?A pAB", false),
            ("?A pAB", "? pAB", false),
            ("?AB pAB", "?AA pAA", true),
            ("?AA pAA", "?AB pAB", false),
            ("?a pAB", "?a pAb", true),
            ("?a pAB", "?b pAB", false),
            ("? pAa", "? pAb", false),
            ("? pAB", "? pA", false),
            ("? pAB", "? qAB", false),
            ("? pAB qBC", "? pAB qCD pEC", true),
            ("? pAB qBa", "? pAB qCa qBb", false),
            ("? pAB pBC pCA", "? pAB pBC pCD pDA", false),
            ("? pAB pBC pCD pDE pEF pFA", "? pAB pBC pCA", true),
            (
                "? pAB pCD pEF pGH pIJ pKL pMN pOP pQR qST qTS",
                "? pAB pAC pAD pAE pAF pAG pAH pAI pAJ qAB",
                false,
            ),
        ],
    );
}
