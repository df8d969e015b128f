//! Calls of the shelf and of the sinks that fail, one at a time.
use crate::asserts::{equal, holds, sure};
use crate::harness::{Told, run_failing};
use std::alloc::{AllocError, Global};
use std::process::Abort;

/// A query, and what is printed of it.
const TWO_EDGES: &str = "? :- p(X,Y), p(Z,W).\n";

const ITS_CORE: &str = "% finished\n% queries 1\n? :- p(X0,X1).\n";

/// A rule and its query, and what is printed of their union.
const ONE_RULE: &str = "q(X) :- p(X).\n?(X) :- q(X).\n";

const ITS_UNION: &str = "% finished\n% queries 2\n?(X0) :- q(X0).\n?(X0) :- p(X0).\n";

/// The file `f`, the word, the pull that fails, and the byte in the line.
const PULLS: [(&str, &str, u64, &str); 4] = [
    (ONE_RULE, "f", 1, "ucq: read fault in file 0 at byte 28\n"),
    (TWO_EDGES, "f", 1, "ucq: read fault in file 0 at byte 21\n"),
    (TWO_EDGES, "f", 0, "ucq: read fault in file 0 at byte 0\n"),
    (TWO_EDGES, "g", 9, "ucq: read fault in file 0 at byte 0\n"),
];

/// Runs the word over the file `f`, where a pull fails.
fn run_pulling(rt: &impl Abort, alloc: Global, word: &str, file: &[u8], call: u64) -> Told {
    run_failing(rt, alloc, word, &[("f", file)], (&[call], &[], &[]))
}

/// Asserts of a pull that fails how the run ends.
fn assert_pulls(rt: &impl Abort, alloc: Global, rows: &[(&str, &str, u64, &str)]) {
    for (file, word, call, line) in rows {
        let told = run_pulling(rt, alloc, word, file.as_bytes(), *call);
        equal(rt, told.is(3, "", line), true, line);
    }
}

#[test]
fn a_pull_that_fails_names_its_byte(rt: HostRuntime) {
    assert_pulls(&rt, rt.alloc(), &PULLS);
}

/// The pull that fails in a long file, and the line.
const LATER_PULLS: [(u64, &str); 3] = [
    (0, "ucq: read fault in file 0 at byte 0\n"),
    (1, "ucq: read fault in file 0 at byte 4096\n"),
    (2, "ucq: read fault in file 0 at byte 8030\n"),
];

/// The rule and its query after a comment of 8,002 bytes.
fn long_file(alloc: Global) -> Result<String, AllocError> {
    let comment = "a".repeat(alloc, 8_000)?;
    format!(in alloc; "%{comment}\n{ONE_RULE}")
}

/// Asserts of a pull of the long file that fails how the run ends.
fn assert_later_pulls(rt: &impl Abort, alloc: Global, file: &[u8], rows: &[(u64, &str)]) {
    for (call, line) in rows {
        let told = run_pulling(rt, alloc, "f", file, *call);
        equal(rt, told.is(3, "", line), true, line);
    }
}

#[test]
fn a_long_file_is_pulled_in_pieces_of_4096_bytes(rt: HostRuntime) {
    let file = sure(&rt, long_file(rt.alloc()));
    assert_later_pulls(&rt, rt.alloc(), file.as_bytes(), &LATER_PULLS);
    let told = run_pulling(&rt, rt.alloc(), "f", file.as_bytes(), 3);
    holds(&rt, told.is(0, ITS_UNION, ""));
}

/// The file, what is printed of it, the push that fails, and how many bytes are taken before it.
const PUSHES: [(&str, &str, u64, usize); 5] = [
    (TWO_EDGES, ITS_CORE, 2, 23),
    (ONE_RULE, ITS_UNION, 0, 0),
    (ONE_RULE, ITS_UNION, 1, 11),
    (ONE_RULE, ITS_UNION, 2, 23),
    (ONE_RULE, ITS_UNION, 3, 39),
];

/// Asserts of a push that fails how much of what is printed is taken before it.
fn assert_pushes(rt: &impl Abort, alloc: Global, rows: &[(&str, &str, u64, usize)]) {
    for (file, text, call, length) in rows {
        let told = run_failing(
            rt,
            alloc,
            "f",
            &[("f", file.as_bytes())],
            (&[], &[*call], &[]),
        );
        equal(rt, told.out.len(), *length, text);
        holds(rt, text.as_bytes().starts_with(told.out.as_slice()));
        let is_told = told.err.as_slice() == b"ucq: write fault\n".as_slice();
        equal(rt, (told.status, is_told), (6, true), text);
    }
}

#[test]
fn a_push_that_fails_leaves_the_lines_before_it(rt: HostRuntime) {
    assert_pushes(&rt, rt.alloc(), &PUSHES);
}

#[test]
fn an_error_stream_that_fails_leaves_the_status(rt: HostRuntime) {
    let files: [(&str, &[u8]); 1] = [("f", b"? :- p(a)")];
    let told = run_failing(&rt, rt.alloc(), "f", &files, (&[], &[], &[0]));
    holds(&rt, told.is(4, "", ""));
}
