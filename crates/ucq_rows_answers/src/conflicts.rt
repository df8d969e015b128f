//! Whether facts violate a constraint under rules, and the conflicts among them.
ghost use Rattle.std.specs.Prelude.{◌≡◌, ◌⊎◌, []};
ghost use Rattle.ucq_store.specs.Store.{IsCut, IsFinished};

use crate::asserts::{equal, holds, sure};
use crate::facts::facts_of;
use std::alloc::Global;
use std::process::Abort;
use ucq_bans::{Conflict, Verdict, conflicts, judge};
use ucq_hom::HomSpace;
use ucq_pool::alone;
use ucq_store::Store;
use ucq_terms::Problem;
use ucq_worked::problem;

/// The store of a Boolean query's rewriting that may have four rows.
fn rewritten<'p>(rt: &impl Abort, alloc: Global, problem: &'p Problem) -> Store<'p>
    ensures ended { IsFinished result ⊎ IsCut result }
    ensures boolean { result.problem.query.answers ≡ [] }
{
    holds(rt, problem.query().answers().is_empty());
    let mut space = sure(rt, HomSpace::new(alloc));
    sure(rt, alone(alloc, &mut space, problem, 4))
}

/// The verdict on the facts of the text, of the constraint under the rules.
fn verdict(
    rt: &impl Abort,
    alloc: Global,
    rules: &[&str],
    constraint: &str,
    facts: &str,
) -> Verdict {
    let problem = sure(rt, problem(alloc, rules, constraint));
    let store = rewritten(rt, alloc, &problem);
    judge(&store, &facts_of(rt, alloc, facts))
}

/// Facts, and the verdict on them.
fn assert_judged(
    rt: &impl Abort,
    alloc: Global,
    rules: &[&str],
    constraint: &str,
    rows: &[(&str, Verdict)],
) {
    for (facts, wanted) in rows {
        equal(
            rt,
            verdict(rt, alloc, rules, constraint, facts),
            *wanted,
            facts,
        );
    }
}

#[test]
fn facts_are_judged_under_the_rules(rt: HostRuntime) {
    let rows = [
        ("pa qa", Verdict::Violated { row: 0 }),
        ("pb pa ra", Verdict::Violated { row: 1 }),
        ("pa qb rc", Verdict::Consistent),
        ("", Verdict::Consistent),
    ];
    assert_judged(&rt, rt.alloc(), &["qX <- rX"], "? pX qX", &rows);
}

#[test]
fn a_cut_store_judges_what_a_row_maps_into(rt: HostRuntime) {
    let rows = [
        ("pac pcb", Verdict::Violated { row: 1 }),
        ("pac pdb", Verdict::Open),
    ];
    assert_judged(&rt, rt.alloc(), &["pXZ <- pXY pYZ"], "? pab", &rows);
}

/// Whether the conflicts have these places.
fn are(found: &[Conflict], wanted: &[&[u32]]) -> bool {
    if found.len() != wanted.len() {
        return false;
    }
    for number in 0..found.len() {
        if found[number].places() != wanted[number] {
            return false;
        }
    }
    true
}

/// Asserts that these are the conflicts among the facts, of the constraint under the rules.
fn assert_conflicts(
    rt: &impl Abort,
    alloc: Global,
    rules: &[&str],
    constraint: &str,
    facts: &str,
    wanted: &[&[u32]],
) {
    let problem = sure(rt, problem(alloc, rules, constraint));
    let store = rewritten(rt, alloc, &problem);
    holds(rt, store.is_finished());
    let found = sure(rt, conflicts(alloc, &store, &facts_of(rt, alloc, facts)));
    equal(rt, are(found.as_slice(), wanted), true, facts);
}

/// Rules, a constraint, facts, and the places of each conflict.
fn assert_each(rt: &impl Abort, alloc: Global, rows: &[(&[&str], &str, &str, &[&[u32]])]) {
    for (rules, constraint, facts, wanted) in rows {
        assert_conflicts(rt, alloc, rules, constraint, facts, wanted);
    }
}

#[test]
fn conflicts_are_the_least_sets_that_violate(rt: HostRuntime) {
    let none: &[&str] = &[];
    let one: &[&str] = &["qX <- rX"];
    let rows: [(&[&str], &str, &str, &[&[u32]]); 4] = [
        (
            one,
            "? pX qX",
            "pa qa ra pb rb qc",
            &[&[0, 1], &[0, 2], &[3, 4]],
        ),
        (one, "? pX qX", "pa qb rc", &[]),
        (
            none,
            "? pXY pYZ",
            "pab pbc paa pca",
            &[&[0, 1], &[0, 3], &[1, 3], &[2]],
        ),
        (
            none,
            "? pXY pYZ pZX",
            "pab pbc pca paa pbb pac pcb pba",
            &[&[0, 1, 2], &[3], &[4], &[5, 6, 7]],
        ),
    ];
    assert_each(&rt, rt.alloc(), &rows);
}
