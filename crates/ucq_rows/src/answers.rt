//! Answers over facts.
use crate::asserts::{equal, sure};
use crate::harness::ends;
use crate::university::{UNION, UNIVERSITY};
use std::alloc::Global;
use std::process::Abort;

/// Files, and the union with its answers. The answers were worked out by hand.
const ANSWERED: [(&str, &str); 7] = [
    (
        "p(X,a) :- s(X). ?(X,Y) :- p(X,Y). s(c).",
        "2\n?(X0,X1) :- p(X0,X1).\n?(X0,a) :- s(X0).\n% answers 1\n% (c,a)\n",
    ),
    (
        "p(X,X) :- s(X). ? :- p(Y,Z), p(Z,Y). s(a).",
        "2\n? :- p(X0,X1), p(X1,X0).\n? :- s(X0).\n% answers 1\n% ()\n",
    ),
    ("? :- p(X,a). p(a,b).", "1\n? :- p(X0,a).\n% answers 0\n"),
    (
        "p(a,Z). p(a,Z). ?(X,Y) :- p(X,Y).",
        "1\n?(X0,X1) :- p(X0,X1).\n% answers 0\n",
    ),
    (
        "p(a,Z). p(a,Z). ?(X) :- p(X,Y).",
        "1\n?(X0) :- p(X0,X1).\n% answers 1\n% (a)\n",
    ),
    (
        "p(\"x, y\",-5), p(<i>,<i>). ?(X,Y) :- p(X,Y).",
        "1\n?(X0,X1) :- p(X0,X1).\n% answers 2\n% (\"x, y\",-5)\n% (<i>,<i>)\n",
    ),
    (
        "e(b,U), e(U,c), e(a,U), e(c,c). ?(X,Z) :- e(X,Y), e(Y,Z).",
        "1\n?(X0,X1) :- e(X0,X2), e(X2,X1).\n% answers 3\n% (a,c)\n% (b,c)\n% (c,c)\n",
    ),
];

/// Asserts of each file that its run with answers finishes with this union and these answers.
fn assert_answered(rt: &impl Abort, alloc: Global, rows: &[(&str, &str)]) {
    for (file, text) in rows {
        let out = sure(rt, format!(in alloc; "% finished\n% queries {text}"));
        let found = ends(rt, alloc, "--answers f", file, 0, out.as_str(), "");
        equal(rt, found, true, file);
    }
}

#[test]
fn a_union_is_answered_over_the_facts(rt: HostRuntime) {
    assert_answered(&rt, rt.alloc(), &ANSWERED);
}

#[test]
fn ann_bob_and_cat_work_for_a_department(rt: HostRuntime) {
    let text = sure(
        &rt,
        format!(in rt.alloc(); "{UNION}% answers 3\n% (ann)\n% (bob)\n% (cat)\n"),
    );
    assert_answered(&rt, rt.alloc(), &[(UNIVERSITY, text.as_str())]);
}

const SMALL: &str = "% finished\n% queries 3\n% atoms 5\n% answers 3\n";

const LARGE: &str = "% finished\n% queries 202\n% atoms 403\n% answers 202\n";

const CUT: &str =
    "% cut rows 2\n?(X0) :- r(X0,X1), c0(X1).\n?(X0) :- c1(X1), r(X0,X1).\n% left ?(X0) :- d(X0).\n";

/// Words, the status and the output.
const MADE: [(&str, u8, &str); 4] = [
    ("--make 1", 0, SMALL),
    ("--make 200 --workers 1", 0, LARGE),
    ("--workers 8 --make 200", 0, LARGE),
    ("--make 3 --budget 2", 5, CUT),
];

/// Asserts of the words how their run over no file ends.
fn assert_made(rt: &impl Abort, alloc: Global, rows: &[(&str, u8, &str)]) {
    for (words, status, out) in rows {
        equal(
            rt,
            ends(rt, alloc, words, "", *status, out, ""),
            true,
            words,
        );
    }
}

#[test]
fn a_made_input_has_its_counts(rt: HostRuntime) {
    assert_made(&rt, rt.alloc(), &MADE);
}
