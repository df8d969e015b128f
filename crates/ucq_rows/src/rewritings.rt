//! Unions and cuts.
use crate::asserts::{equal, sure};
use crate::harness::ends;
use crate::university::{UNION, UNIVERSITY};
use std::alloc::Global;
use std::process::Abort;

/// Files, how many queries their unions have, and the lines of these. The unions were worked out by hand.
const UNIONS: [(&str, &str); 16] = [
    (
        "q(X) :- p(X).\n?(X) :- q(X).\n",
        "2\n?(X0) :- q(X0).\n?(X0) :- p(X0).\n",
    ),
    (
        "p(X,X) :- s(X). ? :- p(Y,Z), p(Z,Y).",
        "2\n? :- p(X0,X1), p(X1,X0).\n? :- s(X0).\n",
    ),
    (
        "p(X,Y) :- s(X). ?(X) :- p(X,Y).",
        "2\n?(X0) :- p(X0,X1).\n?(X0) :- s(X0).\n",
    ),
    ("p(X,Y) :- s(X). ?(Y) :- p(X,Y).", "1\n?(X0) :- p(X1,X0).\n"),
    (
        "p(X,Y) :- s(X). ? :- p(X,Y), q(Y).",
        "1\n? :- p(X0,X1), q(X1).\n",
    ),
    (
        "p(X,Y), q(Y) :- s(X). ? :- p(X,Y), q(Y).",
        "2\n? :- p(X0,X1), q(X1).\n? :- s(X0).\n",
    ),
    (
        "p(X,a) :- s(X). ?(X,Y) :- p(X,Y).",
        "2\n?(X0,X1) :- p(X0,X1).\n?(X0,a) :- s(X0).\n",
    ),
    ("p(X,a) :- s(X). ? :- p(X,b).", "1\n? :- p(X0,b).\n"),
    (
        "p(X,Y) :- s(X). ?(X,Z) :- p(X,Y), p(Z,Y).",
        "2\n?(X0,X1) :- p(X0,X2), p(X1,X2).\n?(X0,X0) :- s(X0).\n",
    ),
    (
        "p(X,Y) :- s(X). ?(X,Z) :- p(X,A), p(Z,B).",
        "4\n?(X0,X1) :- p(X0,X2), p(X1,X3).\n?(X0,X1) :- s(X0), p(X1,X2).\n?(X0,X1) :- s(X0), s(X1).\n?(X0,X1) :- s(X1), p(X0,X2).\n",
    ),
    ("? :- p(X,Y), p(Z,W).\n", "1\n? :- p(X0,X1).\n"),
    (
        "p(X,Z) :- p(X,Y), p(Y,Z). ? :- p(X,Y), p(Y,Z).",
        "1\n? :- p(X0,X1), p(X1,X2).\n",
    ),
    (
        "b(X) :- c(X). a(X) :- c(X). ? :- a(X), b(X).",
        "2\n? :- a(X0), b(X0).\n? :- c(X0).\n",
    ),
    ("? :- p(X,Y), p(Y,X), p(Z,Z).", "1\n? :- p(X0,X0).\n"),
    (
        "[l] ? :- p(\"a%b\"@en, <i>). % end",
        "1\n? :- p(\"a%b\"@en,<i>).\n",
    ),
    (
        "@prefix ex: <http://a/> s(a). ? :- ex:p(X), ex:p(-5).",
        "1\n? :- <http://a/p>(-5).\n",
    ),
];

/// Asserts of each file that its run finishes with this union.
fn assert_unions(rt: &impl Abort, alloc: Global, rows: &[(&str, &str)]) {
    for (file, union) in rows {
        let out = sure(rt, format!(in alloc; "% finished\n% queries {union}"));
        equal(
            rt,
            ends(rt, alloc, "f", file, 0, out.as_str(), ""),
            true,
            file,
        );
    }
}

#[test]
fn a_query_is_rewritten_to_its_exact_union(rt: HostRuntime) {
    assert_unions(&rt, rt.alloc(), &UNIONS);
}

#[test]
fn the_university_has_ten_queries(rt: HostRuntime) {
    let unended = UNIVERSITY.trim_end_matches('\n');
    assert_unions(&rt, rt.alloc(), &[(UNIVERSITY, UNION), (unended, UNION)]);
}
