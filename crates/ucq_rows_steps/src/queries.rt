//! What queries, problems and unions are made of.
ghost use Rattle.std.specs.Prelude.{◌≡◌, ◌<◌, length, vec_len, IfOk};

use crate::asserts::{asked, equal, holds, reads, sure};
use crate::shown::shown;
use std::alloc::{AllocError, Global};
use std::process::Abort;
use ucq_terms::{Atom, Problem, Query, QueryFault, Term, Union};
use ucq_worked::{WorkedFault, problem, query};

#[test]
fn new_query_has_each_atom_once_and_numbers_answers_first(rt: HostRuntime) {
    let query = asked(&rt, rt.alloc(), "?F pHF qFa pHF");
    reads(&rt, shown(&rt, rt.alloc(), &query).as_slice(), "?A pBA qAa");
}

/// The place of the first unsafe answer, where there is one.
fn unsafe_place(rt: &impl Abort, alloc: Global, text: &str) -> Option<u32> {
    match query(alloc, text) {
        Ok(_) => None,
        Err(WorkedFault::Query(QueryFault::Unsafe { place })) => Some(place),
        Err(fault) => panic!(rt; "{fault:?}"),
    }
}

fn assert_places(rt: &impl Abort, alloc: Global, rows: &[(&str, Option<u32>)]) {
    for (text, place) in rows {
        equal(rt, unsafe_place(rt, alloc, text), *place, text);
    }
}

#[test]
fn new_query_tells_the_first_unsafe_answer(rt: HostRuntime) {
    assert_places(
        &rt,
        rt.alloc(),
        &[
            ("?AB pB", Some(0)),
            ("?BA pB", Some(1)),
            ("?AC pB", Some(0)),
            ("?A pB", Some(0)),
            ("?B pB", None),
        ],
    );
}

/// That many different atoms.
fn different(alloc: Global, count: u32) -> Result<Vec<Atom>, AllocError>
    ensures { IfOk result (λ all. vec_len all ≡ count) }
{
    let mut all = Vec::new(alloc);
    for name in 0..count {
        all.push(Atom::new(name, vec![in alloc; Term::Constant(0)]?))?;
    }
    Ok(all)
}

/// The query of that many different atoms.
fn query_of(alloc: Global, count: u32) -> Result<Query, QueryFault>
    requires { 0 < count }
{
    Query::new(alloc, Vec::new(alloc), different(alloc, count)?)
}

/// How many different atoms there are, where they are too many for a query.
fn too_many(rt: &impl Abort, alloc: Global, count: u32) -> Option<u32>
    requires { 0 < count }
{
    match query_of(alloc, count) {
        Ok(_) => None,
        Err(QueryFault::TooManyAtoms { count }) => Some(count),
        Err(fault) => panic!(rt; "{fault:?}"),
    }
}

#[test]
fn a_query_of_129_different_atoms_is_none(rt: HostRuntime) {
    let count = too_many(&rt, rt.alloc(), 129);
    equal(&rt, count, Some(129), "129 atoms");
}

#[test]
fn a_query_of_128_different_atoms_has_them_all(rt: HostRuntime) {
    let query = sure(&rt, query_of(rt.alloc(), 128));
    let atoms = sure(&rt, different(rt.alloc(), 128));
    holds(&rt, query.atoms() == atoms.as_slice());
}

/// The query without its first atom.
fn rest(mut query: Query) -> Query {
    if query.answers().is_empty() && query.atoms().len() > 1 {
        query.remove_atom(0);
    }
    query
}

#[test]
fn renamed_rest_is_numbered_from_0(rt: HostRuntime) {
    let rest = rest(asked(&rt, rt.alloc(), "? pA qB"));
    reads(&rt, shown(&rt, rt.alloc(), &rest).as_slice(), "? qB");
    let renamed = sure(&rt, rest.rename());
    reads(&rt, shown(&rt, rt.alloc(), &renamed).as_slice(), "? qA");
}

/// Whether a copy of the first query is the same as the second.
fn is_same(rt: &impl Abort, alloc: Global, first: &str, second: &str) -> bool {
    let copy = sure(rt, asked(rt, alloc, first).copy());
    copy.same(&asked(rt, alloc, second))
}

fn assert_same(rt: &impl Abort, alloc: Global, rows: &[(&str, &str, bool)]) {
    for (first, second, wanted) in rows {
        equal(rt, is_same(rt, alloc, first, second), *wanted, first);
    }
}

#[test]
fn queries_are_the_same_with_equal_answers_and_atoms(rt: HostRuntime) {
    assert_same(
        &rt,
        rt.alloc(),
        &[
            ("?A pAB", "?X pXY", true),
            ("?A pAB", "?A pAA", false),
            ("?A pAB", "?B pAB", false),
            ("? qB", "? pA qB", false),
        ],
    );
}

fn posed(rt: &impl Abort, alloc: Global, rules: &[&str], question: &str) -> Problem {
    sure(rt, problem(alloc, rules, question))
}

/// Whether the problem with one rule is the same as another.
fn is_same_problem(rt: &impl Abort, alloc: Global, rules: &[&str], question: &str) -> bool {
    let given = posed(rt, alloc, &["qZX <- pXY"], "? pa");
    given.same(&posed(rt, alloc, rules, question))
}

#[test]
fn problems_are_the_same_with_equal_rules_and_queries(rt: HostRuntime) {
    let alloc = rt.alloc();
    holds(&rt, is_same_problem(&rt, alloc, &["qAB <- pBC"], "? pa"));
    holds(&rt, !is_same_problem(&rt, alloc, &[], "? pa"));
    holds(&rt, !is_same_problem(&rt, alloc, &["qZX <- pXY"], "? pb"));
}

fn union_of(rt: &impl Abort, alloc: Global, first: &str, second: &str) -> Union
    ensures { length result ≡ 2 }
{
    let (first, second) = (asked(rt, alloc, first), asked(rt, alloc, second));
    match vec![in alloc; first, second] {
        Ok(queries) => Union::new(queries),
        Err(_) => panic!(rt; "no memory"),
    }
}

#[test]
fn union_gives_its_queries_in_order(rt: HostRuntime) {
    let union = union_of(&rt, rt.alloc(), "? pA", "?A qA");
    equal(&rt, union.len(), 2, "queries");
    reads(
        &rt,
        shown(&rt, rt.alloc(), union.query(0)).as_slice(),
        "? pA",
    );
    reads(
        &rt,
        shown(&rt, rt.alloc(), union.query(1)).as_slice(),
        "?A qA",
    );
}
