//! Several queries in one run, each with its section.
use crate::asserts::{equal, holds, sure};
use crate::harness::{ends, run_failing, run_on, run_open};
use std::alloc::Global;
use std::process::Abort;
use std::sync::Wait;
use std::thread::Threads;

const TWO: &str = "? :- p(X). ? :- q(X).";

const OF_TWO: &str =
    "% query 0\n% finished\n% queries 1\n? :- p(X0).\n% query 1\n% finished\n% queries 1\n? :- q(X0).\n";

/// Words, files, the status and the output.
const SECTIONS: [(&str, &str, u8, &str); 5] = [
    ("f", TWO, 0, OF_TWO),
    (
        "--budget 3 f",
        "p(X,Z) :- p(X,Y), p(Y,Z). [far] ? :- p(a,b). ? :- p(X,Y), p(Y,Z).",
        5,
        "% query 0 [far]\n% cut rows 3\n? :- p(a,b).\n? :- p(a,X0), p(X0,b).\n? :- p(a,X0), p(X0,X1), p(X1,b).\n% left ? :- p(a,X0), p(X0,X1), p(X1,X2), p(X2,b).\n% query 1\n% finished\n% queries 1\n? :- p(X0,X1), p(X1,X2).\n",
    ),
    (
        "--answers f",
        "q(X) :- p(X). [one] ?(X) :- q(X). [the other] ?(X) :- r(X). p(a). r(b). q(c).",
        0,
        "% query 0 [one]\n% finished\n% queries 2\n?(X0) :- q(X0).\n?(X0) :- p(X0).\n% answers 2\n% (a)\n% (c)\n% query 1 [the other]\n% finished\n% queries 1\n?(X0) :- r(X0).\n% answers 1\n% (b)\n",
    ),
    (
        "--budget 2 f",
        "q(X) :- p(X). ? :- q(a). ? :- q(b).",
        0,
        "% query 0\n% finished\n% queries 2\n? :- q(a).\n? :- p(a).\n% query 1\n% finished\n% queries 2\n? :- q(b).\n? :- p(b).\n",
    ),
    (
        "f",
        "[alone] ? :- p(X).",
        0,
        "% finished\n% queries 1\n? :- p(X0).\n",
    ),
];

/// Asserts of words and a file how the run ends.
fn assert_ended(rt: &impl Abort, alloc: Global, rows: &[(&str, &str, u8, &str)]) {
    for (words, file, status, out) in rows {
        let found = ends(rt, alloc, words, file, *status, out, "");
        equal(rt, found, true, file);
    }
}

#[test]
fn each_query_has_its_section(rt: HostRuntime) {
    assert_ended(&rt, rt.alloc(), &SECTIONS);
}

/// The same where as many workers as the words say are at work.
fn assert_ended_by_crew<R: Threads + Wait + Sync + Abort>(
    rt: &R,
    alloc: Global,
    rows: &[(&str, &str, u8, &str)],
) {
    for (words, file, status, out) in rows {
        let told = run_open(rt, alloc, words, file);
        equal(rt, told.is(*status, out, ""), true, file);
    }
}

#[test]
fn workers_print_the_sections_in_order(rt: HostRuntime) {
    assert_ended_by_crew(&rt, rt.alloc(), &[("--workers 2 f", TWO, 0, OF_TWO)]);
}

/// The push that fails, and how many bytes of the two sections are taken before it.
const PUSHES: [(u64, usize); 4] = [(0, 0), (1, 10), (4, 45), (7, 78)];

/// Asserts of a push that fails what is taken before it: the first section is written before the second.
fn assert_pushes(rt: &impl Abort, alloc: Global, rows: &[(u64, usize)]) {
    for (call, length) in rows {
        let told = run_failing(
            rt,
            alloc,
            "f",
            &[("f", TWO.as_bytes())],
            (&[], &[*call], &[]),
        );
        equal(rt, (told.status, told.out.len()), (6, *length), OF_TWO);
        holds(rt, OF_TWO.as_bytes().starts_with(told.out.as_slice()));
    }
}

#[test]
fn a_push_that_fails_leaves_the_sections_before_it(rt: HostRuntime) {
    assert_pushes(&rt, rt.alloc(), &PUSHES);
}

/// Rules, and a query whose section is read back with them.
const RULES: &str = "q(X) :- p(X). q(X) :- r(X,Y). ";

/// Asserts that the union that is printed of the query is read back, and has a section for each of its queries, all of which
/// are in the union.
fn assert_read_back(rt: &impl Abort, alloc: Global, query: &str, again: &str) {
    let file = sure(rt, format!(in alloc; "{RULES}{query}"));
    let told = run_on(rt, alloc, "f", file.as_bytes());
    let mut read = sure(rt, RULES.as_bytes().to_vec(alloc));
    sure(rt, read.extend_from_slice(told.out.as_slice()));
    holds(rt, run_on(rt, alloc, "f", read.as_slice()).is(0, again, ""));
}

#[test]
fn a_printed_union_is_read_back(rt: HostRuntime) {
    let again =
        "% query 0\n% finished\n% queries 3\n?(X0) :- q(X0).\n?(X0) :- p(X0).\n?(X0) :- r(X0,X1).\n% query 1\n% finished\n% queries 1\n?(X0) :- p(X0).\n% query 2\n% finished\n% queries 1\n?(X0) :- r(X0,X1).\n";
    assert_read_back(&rt, rt.alloc(), "?(X) :- q(X).", again);
}
