//! Comments.
use crate::asserts::{reads, sure};
use std::alloc::Global;
use std::process::Abort;
use ucq_sql::{query_comment, rows_cut_comment, wide_cut_comment};

/// Numbers and labels of queries, and their lines.
const COMMENTS: [(u32, Option<&[u8]>, &[u8]); 5] = [
    (0, None, b"-- query 0\n"),
    (12, Some(b"q 1"), b"-- query 12 q 1\n"),
    (3, Some(b"'\";\xff"), b"-- query 3 '\";\xff\n"),
    (7, Some(b"a\rb\0c"), b"-- query 7 a b c\n"),
    (4_294_967_295, None, b"-- query 4294967295\n"),
];

/// Asserts of queries what their lines are.
fn assert_comments(rt: &impl Abort, alloc: Global, rows: &[(u32, Option<&[u8]>, &[u8])]) {
    for (number, label, wanted) in rows {
        let found = sure(rt, query_comment(alloc, *number, *label));
        reads(rt, found.as_slice(), wanted, "a comment");
    }
}

#[test]
fn a_query_has_a_line_before_it(rt: HostRuntime) {
    assert_comments(&rt, rt.alloc(), &COMMENTS);
}

#[test]
fn a_query_that_was_cut_has_a_line(rt: HostRuntime) {
    let rows = sure(&rt, rows_cut_comment(rt.alloc(), 65_536));
    reads(&rt, rows.as_slice(), b"-- cut rows 65536\n", "rows");
    let wide = sure(&rt, wide_cut_comment(rt.alloc(), 20, 3));
    reads(&rt, wide.as_slice(), b"-- cut wide row 20 rule 3\n", "wide");
}
