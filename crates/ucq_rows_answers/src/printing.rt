//! Printed queries, unions, answers, counts and refusals.
ghost use Rattle.std.specs.Prelude.{◌≤◌, ◌^◌, length};

use crate::asserts::{equal, reads, sure};
use std::alloc::{AllocError, Global};
use std::process::Abort;
use ucq_print::{query_count_line, query_text, refusal_text, summary_line, summary_line_count};
use ucq_reader::{Input, ReadFault, Whole, read_files};
use ucq_terms::NoMemory;

/// What one file stands for.
fn read_one(alloc: Global, text: &str) -> Result<Input, ReadFault>
    requires { length text.now ≤ 2 ^ 24 }
{
    let mut files = Vec::new(alloc);
    files.push(text.as_bytes().to_vec(alloc)?)?;
    read_files(alloc, files.as_slice())
}

/// The same for a file of a table.
fn read(rt: &impl Abort, alloc: Global, text: &str) -> Input {
    assert!(rt; text.len() <= 1_000);
    sure(rt, read_one(alloc, text))
}

/// Files, and their queries as they are printed.
const QUERIES: [(&str, &str); 4] = [
    ("? :- p(X,Y), p(Z,W).", "? :- p(X0,X1), p(X2,X3)."),
    ("?(Y,X) :- p(X,Y).", "?(X0,X1) :- p(X1,X0)."),
    (
        "?(X,a) :- p(X,a),q(\"b c\"@en).",
        "?(X0,a) :- p(X0,a), q(\"b c\"@en).",
    ),
    (
        "@prefix ex: <http://a/> ? :- ex:p(X,X), ex:p(X,-5).",
        "? :- <http://a/p>(X0,X0), <http://a/p>(X0,-5).",
    ),
];

/// Asserts of each file how its query is printed.
fn assert_printed(rt: &impl Abort, alloc: Global, rows: &[(&str, &str)]) {
    for (file, wanted) in rows {
        let input = read(rt, alloc, file);
        assert!(rt; !input.queries.is_empty());
        let text = sure(rt, query_text(alloc, &input.names, &input.queries[0].query));
        reads(rt, text.as_slice(), wanted, file);
    }
}

#[test]
fn a_query_is_printed_in_the_input_format(rt: HostRuntime) {
    assert_printed(&rt, rt.alloc(), &QUERIES);
}

/// The lines of counts, of which there are four.
fn summary_text(
    alloc: Global,
    queries: u64,
    atoms: u64,
    answers: u64,
) -> Result<Vec<u8>, NoMemory> {
    let mut text = Vec::new(alloc);
    for place in 0..4u64 {
        let line = summary_line(alloc, queries, atoms, answers, place)?;
        text.extend_from_slice(line.as_slice())?;
    }
    Ok(text)
}

#[test]
fn counts_are_printed_a_line_at_a_time(rt: HostRuntime) {
    equal(&rt, summary_line_count(), 4, "lines");
    let text = sure(&rt, summary_text(rt.alloc(), 3, 5, 4));
    let wanted = "% finished\n% queries 3\n% atoms 5\n% answers 4\n";
    reads(&rt, text.as_slice(), wanted, "counts");
}

#[test]
fn the_number_of_queries_is_printed(rt: HostRuntime) {
    let line = sure(&rt, query_count_line(rt.alloc(), 65_536));
    reads(&rt, line.as_slice(), "% queries 65536\n", "a line");
}

/// What two files stand for.
fn read_two(alloc: Global, first: &str, second: &str) -> Result<Input, ReadFault>
    requires first { length first.now ≤ 2 ^ 24 }
    requires second { length second.now ≤ 2 ^ 24 }
{
    let mut files = Vec::new(alloc);
    files.push(first.as_bytes().to_vec(alloc)?)?;
    files.push(second.as_bytes().to_vec(alloc)?)?;
    read_files(alloc, files.as_slice())
}

/// A refusal's text.
fn refusal(rt: &impl Abort, alloc: Global, fault: &ReadFault) -> Vec<u8> {
    match fault {
        ReadFault::Memory => panic!(rt; "no memory"),
        _ => sure(rt, refusal_text(alloc, fault)),
    }
}

/// The text of the refusal of a second file.
fn refused(rt: &impl Abort, alloc: Global, second: &str) -> Vec<u8> {
    assert!(rt; second.len() <= 1 << 20);
    match read_two(alloc, "p(a).", second) {
        Ok(_) => panic!(rt; "read"),
        Err(fault) => refusal(rt, alloc, &fault),
    }
}

/// The second file that has two facts and then a piece that many times between two ends.
fn second_file(
    alloc: Global,
    before: &str,
    piece: &str,
    count: usize,
    after: &str,
) -> Result<String, AllocError> {
    let middle = piece.repeat(alloc, count)?;
    format!(in alloc; "p(a). p(a). {before}{middle}{after}")
}

/// What follows two facts in a second file, and the text of its refusal.
const REFUSED: [(&str, &str); 11] = [
    ("&", "ucq: file 1 byte 12: bad byte"),
    (
        "? :- p(X), .",
        "ucq: file 1 statement 2 byte 23: bad statement",
    ),
    ("? :- p(X)", "ucq: file 1 byte 12: statement not ended"),
    ("? :- ex:p(X).", "ucq: file 1 byte 17: unknown prefix"),
    ("@base <i>", "ucq: file 1 statement 2: base is not built"),
    ("@top p", "ucq: file 1 statement 2: top is not built"),
    (
        "! :- p(X).",
        "ucq: file 1 statement 2: constraint is not built",
    ),
    (
        "? :- p(X,X,X,X,X,X,X,X,X,X,X,X,X,X,X,X,X).",
        "ucq: file 1 statement 2: arity limit passed with 17",
    ),
    (
        "?(X,X,X,X,X,X,X,X,X,X,X,X,X,X,X,X,X,X) :- p(X).",
        "ucq: file 1 statement 2: answers limit passed with 18",
    ),
    (
        "?(a,X) :- p(Y).",
        "ucq: file 1 statement 2: answer 1 is not in the body",
    ),
    ("", "ucq: no query"),
];

/// Asserts of each rest of a second file what the text of its refusal is.
fn assert_refused(rt: &impl Abort, alloc: Global, rows: &[(&str, &str)]) {
    for (rest, wanted) in rows {
        let second = sure(rt, second_file(alloc, rest, "", 0, ""));
        let text = refused(rt, alloc, second.as_str());
        reads(rt, text.as_slice(), wanted, rest);
    }
}

#[test]
fn a_refusal_has_its_text(rt: HostRuntime) {
    assert_refused(&rt, rt.alloc(), &REFUSED);
}

/// The parts of what follows two facts in a second file, where the middle one is repeated, and the text of its refusal.
const REPEATED: [(&str, &str, usize, &str, &str); 3] = [
    (
        "? :- p(X)",
        ",p(X)",
        32,
        ".",
        "ucq: file 1 statement 2: atoms limit passed with 33",
    ),
    (
        "? :- ",
        "p",
        1_025,
        "(X).",
        "ucq: file 1 statement 2: name limit passed with 1025",
    ),
    (
        "",
        "p(X):-p(X).",
        4_097,
        "",
        "ucq: rules limit passed with 4097",
    ),
];

/// The same where a piece is repeated.
fn assert_limits(rt: &impl Abort, alloc: Global, rows: &[(&str, &str, usize, &str, &str)]) {
    for (before, piece, count, after, wanted) in rows {
        let second = sure(rt, second_file(alloc, before, piece, *count, after));
        let text = refused(rt, alloc, second.as_str());
        reads(rt, text.as_slice(), wanted, before);
    }
}

#[test]
fn a_limit_that_is_passed_has_its_text(rt: HostRuntime) {
    assert_limits(&rt, rt.alloc(), &REPEATED);
}

#[test]
fn too_many_facts_have_their_text(rt: HostRuntime) {
    let fault = ReadFault::TooMany {
        which: Whole::Facts,
        count: 1_048_577,
    };
    let text = refusal(&rt, rt.alloc(), &fault);
    let wanted = "ucq: facts limit passed with 1048577";
    reads(&rt, text.as_slice(), wanted, "facts");
}
