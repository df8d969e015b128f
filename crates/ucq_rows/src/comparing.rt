//! What a run tells of its queries and its rules, where it compares them.
use crate::asserts::equal;
use crate::harness::{ends, run_open};
use std::alloc::Global;
use std::process::Abort;
use std::sync::Wait;
use std::thread::Threads;

const THREE: &str = "q(X) :- p(X). ?(X) :- p(X). ?(X) :- q(X). ?(X) :- p(X), q(X).";

const OF_THREE: &str =
    "% query 0\n% finished\n% queries 1\n?(X0) :- p(X0).\n% within 1 0 no\n% within 2 0 yes\n% minimal ?(X0) :- p(X0).\n% query 1\n% finished\n% queries 2\n?(X0) :- q(X0).\n?(X0) :- p(X0).\n% within 0 1 yes\n% within 2 1 yes\n% minimal ?(X0) :- q(X0).\n% query 2\n% finished\n% queries 1\n?(X0) :- p(X0).\n% within 0 2 yes\n% within 1 2 no\n% minimal ?(X0) :- p(X0).\n% rule 0 needed\n";

/// Words, files, the status and the output.
const COMPARED: [(&str, &str, u8, &str); 6] = [
    ("--within f", THREE, 0, OF_THREE),
    (
        "f --within",
        "q(X) :- p(X). r(X) :- q(X). r(X) :- p(X). ? :- r(X).",
        0,
        "% finished\n% queries 3\n? :- r(X0).\n? :- q(X0).\n? :- p(X0).\n% minimal ? :- r(X0).\n% rule 0 needed\n% rule 1 needed\n% rule 2 follows\n",
    ),
    (
        "--answers --within f",
        "q(X) :- p(X). ?(X) :- q(X), p(Y). p(a).",
        0,
        "% finished\n% queries 2\n?(X0) :- q(X0), p(X1).\n?(X0) :- p(X0).\n% answers 1\n% (a)\n% minimal ?(X0) :- q(X0), p(X1).\n% rule 0 needed\n",
    ),
    (
        "--within --budget 2 f",
        "p(X,Z) :- p(X,Y), p(Y,Z). p(X,Y) :- e(X,Y). ? :- e(X,Y).",
        5,
        "% finished\n% queries 1\n? :- e(X0,X1).\n% minimal ? :- e(X0,X1).\n% rule 0 needed\n% rule 1 open\n% cut rows 2\n?(X0,X1) :- p(X0,X1).\n?(X0,X1) :- p(X0,X2), p(X2,X1).\n% left ?(X0,X1) :- p(X0,X2), p(X2,X3), p(X3,X1).\n",
    ),
    (
        "--within --budget 2 f",
        "p(X,Z) :- p(X,Y), p(Y,Z). ?(X,Y) :- p(X,Y). ?(X,Y) :- p(X,Z), p(Z,Y). ?(X) :- q(X).",
        5,
        "% query 0\n% cut rows 2\n?(X0,X1) :- p(X0,X1).\n?(X0,X1) :- p(X0,X2), p(X2,X1).\n% left ?(X0,X1) :- p(X0,X2), p(X2,X3), p(X3,X1).\n% within 1 0 yes\n% within 2 0 open\n% minimal ?(X0,X1) :- p(X0,X1).\n% query 1\n% cut rows 2\n?(X0,X1) :- p(X0,X2), p(X2,X1).\n?(X0,X1) :- p(X0,X2), p(X2,X3), p(X3,X1).\n% left ?(X0,X1) :- p(X0,X2), p(X2,X3), p(X3,X4), p(X4,X1).\n% within 0 1 open\n% within 2 1 open\n% minimal ?(X0,X1) :- p(X0,X2), p(X2,X1).\n% query 2\n% finished\n% queries 1\n?(X0) :- q(X0).\n% within 0 2 no\n% within 1 2 no\n% minimal ?(X0) :- q(X0).\n% rule 0 needed\n",
    ),
    (
        "--within f",
        "p(A,B,C,D,E,F,G,H,I), p(I,J,K,L,M,N,O,P,Q) :- r(A,B,C,D,E,F,G,H,I), r(I,J,K,L,M,N,O,P,Q). ? :- q(X).",
        0,
        "% finished\n% queries 1\n? :- q(X0).\n% minimal ? :- q(X0).\n% rule 0 skipped\n",
    ),
];

/// Asserts of words and a file how the run ends.
fn assert_ended(rt: &impl Abort, alloc: Global, rows: &[(&str, &str, u8, &str)]) {
    for (words, file, status, out) in rows {
        let found = ends(rt, alloc, words, file, *status, out, "");
        equal(rt, found, true, file);
    }
}

#[test]
fn queries_and_rules_are_compared(rt: HostRuntime) {
    assert_ended(&rt, rt.alloc(), &COMPARED);
}

/// The same where as many workers as the words say are at work.
fn assert_ended_by_crew<R: Threads + Wait + Sync + Abort>(
    rt: &R,
    alloc: Global,
    rows: &[(&str, &str, u8, &str)],
) {
    for (words, file, status, out) in rows {
        let told = run_open(rt, alloc, words, file);
        equal(rt, told.is(*status, out, ""), true, file);
    }
}

#[test]
fn workers_compare_them_too(rt: HostRuntime) {
    assert_ended_by_crew(
        &rt,
        rt.alloc(),
        &[("--workers 2 --within f", THREE, 0, OF_THREE)],
    );
}
