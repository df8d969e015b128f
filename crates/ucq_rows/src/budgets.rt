//! Budgets that are enough, and ones that are not.
use crate::asserts::equal;
use crate::harness::{begins, ends, run_open};
use std::alloc::Global;
use std::process::Abort;
use std::sync::Wait;
use std::thread::Threads;

/// Each of the two atoms can be rewritten on its own, so there are four queries.
const TWO_ATOMS: &str = "p(X,Y) :- s(X). ?(X,Z) :- p(X,A), p(Z,B).";

/// One query for each set of rewritten atoms, of which there are 256.
const EIGHT_ATOMS: &str = "p(X) :- s(X). ? :- p(a), p(b), p(c), p(d), p(e), p(f), p(g), p(h).";

/// Words, files, and the status and the beginning of the output.
const BUDGETS: [(&str, &str, u8, &str); 4] = [
    ("--budget 4 f", TWO_ATOMS, 0, "% finished\n% queries 4\n"),
    ("--budget 3 f", TWO_ATOMS, 5, "% cut rows 3\n"),
    (
        "--budget 256 f",
        EIGHT_ATOMS,
        0,
        "% finished\n% queries 256\n",
    ),
    ("--budget 255 f", EIGHT_ATOMS, 5, "% cut rows 255\n"),
];

/// Asserts of words and a file with which status the run ends, and how its output begins.
fn assert_begun(rt: &impl Abort, alloc: Global, rows: &[(&str, &str, u8, &str)]) {
    for (words, file, status, beginning) in rows {
        let found = begins(rt, alloc, words, file, *status, beginning);
        equal(rt, found, true, words);
    }
}

#[test]
fn a_budget_of_just_the_queries_is_enough(rt: HostRuntime) {
    assert_begun(&rt, rt.alloc(), &BUDGETS);
}

/// Words, and the status and the beginning of the output for the eight atoms.
const OF_FOUR_WORKERS: [(&str, u8, &str); 2] = [
    (
        "--workers 4 --budget 256 f",
        0,
        "% finished\n% queries 256\n",
    ),
    ("--workers 4 --budget 255 f", 5, "% cut rows 255\n"),
];

/// The same of the eight atoms where as many workers as the words say are at work.
fn assert_begun_by_crew<R: Threads + Wait + Sync + Abort>(
    rt: &R,
    alloc: Global,
    rows: &[(&str, u8, &str)],
) {
    for (words, status, beginning) in rows {
        let told = run_open(rt, alloc, words, EIGHT_ATOMS);
        equal(rt, told.begins(*status, beginning), true, words);
    }
}

#[test]
fn it_is_enough_for_four_workers_too(rt: HostRuntime) {
    assert_begun_by_crew(&rt, rt.alloc(), &OF_FOUR_WORKERS);
}

/// Words, files, the status and the output.
const CUTS: [(&str, &str, u8, &str); 5] = [
    (
        "--budget 3 f",
        "p(X,Z) :- p(X,Y), p(Y,Z). ? :- p(a,b).",
        5,
        "% cut rows 3\n? :- p(a,b).\n? :- p(a,X0), p(X0,b).\n? :- p(a,X0), p(X0,X1), p(X1,b).\n% left ? :- p(a,X0), p(X0,X1), p(X1,X2), p(X2,b).\n",
    ),
    (
        "--budget 1 f",
        "q(X) :- p(X).\n?(X) :- q(X).\n",
        5,
        "% cut rows 1\n?(X0) :- q(X0).\n% left ?(X0) :- p(X0).\n",
    ),
    (
        "--budget=2 f",
        "q(X) :- p(X).\n?(X) :- q(X).\n",
        0,
        "% finished\n% queries 2\n?(X0) :- q(X0).\n?(X0) :- p(X0).\n",
    ),
    (
        "--budget 1 f",
        "? :- p(X,Y), p(Z,W).",
        0,
        "% finished\n% queries 1\n? :- p(X0,X1).\n",
    ),
    (
        "--budget 4 f",
        "b(X) :- c(X). a(X) :- c(X). c(X) :- d(X). ? :- a(X), b(X).",
        5,
        "% cut rows 4\n? :- a(X0), b(X0).\n% dead ? :- c(X0), a(X0).\n% dead ? :- c(X0), b(X0).\n? :- c(X0).\n% left ? :- d(X0), a(X0).\n",
    ),
];

/// Asserts of words and a file how the run ends.
fn assert_ended(rt: &impl Abort, alloc: Global, rows: &[(&str, &str, u8, &str)]) {
    for (words, file, status, out) in rows {
        equal(
            rt,
            ends(rt, alloc, words, file, *status, out, ""),
            true,
            file,
        );
    }
}

#[test]
fn a_small_budget_cuts_and_leaves_a_core(rt: HostRuntime) {
    assert_ended(&rt, rt.alloc(), &CUTS);
}
