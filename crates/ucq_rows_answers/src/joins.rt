//! Answers of worked unions over worked facts.
use crate::asserts::{holds, reads, sure};
use crate::facts::facts_of;
use std::alloc::Global;
use std::process::Abort;
use std::thread::Threads;
use ucq_eval::{Tuple, answers, answers_split, answers_with_texts, tuple_text};
use ucq_facts::Facts;
use ucq_print::{answer_line, answer_line_count};
use ucq_terms::{Names, NoMemory, Query, Union};
use ucq_worked::{WorkedFault, query};

/// The queries of a text that has bars between them.
fn queries_of(alloc: Global, text: &str) -> Result<Vec<Query>, WorkedFault> {
    let mut queries = Vec::new(alloc);
    for part in text.split('|') {
        queries.push(query(alloc, part)?)?;
    }
    Ok(queries)
}

/// The union of the queries of a text that has bars between them.
fn union_of(rt: &impl Abort, alloc: Global, text: &str) -> Union {
    let members = sure(rt, queries_of(alloc, text));
    assert!(rt; members.len() < 1_000);
    Union::new(members)
}

/// Takes a name up.
fn name(rt: &impl Abort, names: &mut Names, text: &[u8]) {
    assert!(rt; names.len() < 1_000);
    sure(rt, names.number(text));
}

/// The names of a text that has bars between them.
fn names_of(rt: &impl Abort, alloc: Global, text: &str) -> Names {
    let mut names = sure(rt, Names::new(alloc));
    for word in text.split('|') {
        name(rt, &mut names, word.as_bytes());
    }
    names
}

/// A name for each constant of a worked text, which is its letter.
fn letters(rt: &impl Abort, alloc: Global) -> Names {
    let mut names = sure(rt, Names::new(alloc));
    for letter in 0..128u8 {
        name(rt, &mut names, &[letter]);
    }
    names
}

/// The texts of the tuples, one after another.
fn text_of(alloc: Global, names: &Names, tuples: &[Tuple]) -> Result<Vec<u8>, NoMemory> {
    let mut text = Vec::new(alloc);
    for tuple in tuples {
        text.extend_from_slice(tuple_text(alloc, names, tuple)?.as_slice())?;
    }
    Ok(text)
}

/// Unions, facts, and the answers one after another.
const ANSWERS: [(&str, &str, &str); 8] = [
    ("?XY pXY pYZ pZX", "pab pbU pUa pcc pdV pVd", "(a,b)(c,c)"),
    ("?XZ pXY qYZ", "paU qUb qVc pac qcU", "(a,b)"),
    ("? pXY pYZ", "paU pUb", "()"),
    ("? pXY pYZ", "pab pcd", ""),
    ("?X pXX", "pab pbb pUU", "(b)"),
    ("?XbX pXa", "pba pcU pab", "(b,b,b)"),
    ("?XY pX qY", "pa pb pbc qc qd pU", "(a,c)(a,d)(b,c)(b,d)"),
    ("?X pX|?X qX|?X pX qX", "pa pb qb qc", "(a)(b)(c)"),
];

/// The answers that one thread finds.
fn whole(
    alloc: Global,
    names: &Names,
    union: &Union,
    facts: &Facts,
) -> Result<Vec<Tuple>, NoMemory> {
    answers(alloc, union, names, facts)
}

/// Their texts, one after another.
fn found_alone(rt: &impl Abort, alloc: Global, names: &Names, union: &str, facts: &str) -> Vec<u8> {
    let (asked, held) = (union_of(rt, alloc, union), facts_of(rt, alloc, facts));
    let tuples = sure(rt, whole(alloc, names, &asked, &held));
    sure(rt, text_of(alloc, names, tuples.as_slice()))
}

/// Asserts of unions over facts what answers one thread finds.
fn assert_alone(rt: &impl Abort, alloc: Global, names: &Names, rows: &[(&str, &str, &str)]) {
    for (union, facts, wanted) in rows {
        let found = found_alone(rt, alloc, names, union, facts);
        reads(rt, found.as_slice(), wanted, union);
    }
}

#[test]
fn a_union_has_the_answers_of_its_members(rt: HostRuntime) {
    let names = letters(&rt, rt.alloc());
    assert_alone(&rt, rt.alloc(), &names, &ANSWERS);
}

/// The answers that several threads find.
fn split<R: Threads + Sync>(
    rt: &R,
    alloc: Global,
    names: &Names,
    union: &Union,
    facts: &Facts,
) -> Result<Vec<Tuple>, NoMemory> {
    answers_split(rt, alloc, union, names, facts)
}

/// Their texts, one after another.
fn found_by_threads<R: Threads + Sync + Abort>(
    rt: &R,
    alloc: Global,
    names: &Names,
    union: &str,
    facts: &str,
) -> Vec<u8> {
    let (asked, held) = (union_of(rt, alloc, union), facts_of(rt, alloc, facts));
    let tuples = sure(rt, split(rt, alloc, names, &asked, &held));
    sure(rt, text_of(alloc, names, tuples.as_slice()))
}

/// Asserts of unions over facts what answers several threads find.
fn assert_split<R: Threads + Sync + Abort>(
    rt: &R,
    alloc: Global,
    names: &Names,
    rows: &[(&str, &str, &str)],
) {
    for (union, facts, wanted) in rows {
        let found = found_by_threads(rt, alloc, names, union, facts);
        reads(rt, found.as_slice(), wanted, union);
    }
}

#[test]
fn several_threads_find_the_same_answers(rt: HostRuntime) {
    let names = letters(&rt, rt.alloc());
    assert_split(&rt, rt.alloc(), &names, &ANSWERS);
}

/// Facts whose constants are the numbers from 0 on.
const NUMBERED: &str = "p\u{0} p\u{1} q\u{2} q\u{1} pU";

/// Unions over them, and the answers for names that are not in byte order.
const IN_BYTE_ORDER: [(&str, &str, &str); 2] = [
    ("?X pX|?X qX", NUMBERED, "(a)(a,b)(b)"),
    ("?X pX|?X qX|?X pX qX", NUMBERED, "(a)(a,b)(b)"),
];

#[test]
fn answers_stand_in_byte_order_of_their_texts(rt: HostRuntime) {
    let names = names_of(&rt, rt.alloc(), "b|a|a,b");
    assert_alone(&rt, rt.alloc(), &names, &IN_BYTE_ORDER);
    assert_split(&rt, rt.alloc(), &names, &IN_BYTE_ORDER);
}

#[test]
fn a_tuple_has_its_numbers(rt: HostRuntime) {
    let pair = Tuple::new(sure(&rt, Vec::from_slice(rt.alloc(), &[1, 0])));
    holds(&rt, pair.names() == [1, 0].as_slice());
}

/// The lines of the answers.
fn lines_of(
    alloc: Global,
    names: &Names,
    union: &Union,
    facts: &Facts,
) -> Result<Vec<u8>, NoMemory> {
    let answers = answers_with_texts(alloc, union, names, facts)?;
    let mut text = Vec::new(alloc);
    for place in 0..answer_line_count(&answers) {
        text.extend_from_slice(answer_line(alloc, &answers, place)?.as_slice())?;
    }
    Ok(text)
}

/// Unions, facts, and the lines of their answers.
const LINES: [(&str, &str, &str); 4] = [
    ("?XY pXY", "pba paU pab", "% answers 2\n% (a,b)\n% (b,a)\n"),
    ("?Xb pXb|?XX pXb", "pab", "% answers 2\n% (a,a)\n% (a,b)\n"),
    ("? pXY", "pab pbU", "% answers 1\n% ()\n"),
    ("?X pXX", "pab", "% answers 0\n"),
];

/// Asserts of unions over facts which lines their answers have.
fn assert_lines(rt: &impl Abort, alloc: Global, names: &Names, rows: &[(&str, &str, &str)]) {
    for (union, facts, wanted) in rows {
        let (asked, held) = (union_of(rt, alloc, union), facts_of(rt, alloc, facts));
        let found = sure(rt, lines_of(alloc, names, &asked, &held));
        reads(rt, found.as_slice(), wanted, union);
    }
}

#[test]
fn answers_are_printed_a_line_at_a_time(rt: HostRuntime) {
    let names = letters(&rt, rt.alloc());
    assert_lines(&rt, rt.alloc(), &names, &LINES);
}
