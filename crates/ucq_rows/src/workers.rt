//! Several workers: they are at work at the same time, and their union is that of one worker.
ghost use Rattle.std.specs.Prelude.{◌<◌, ◌≤◌, ◌^◌, length};

use crate::asserts::{equal, holds, sure};
use crate::gates::HoldingGate;
use crate::harness::{Told, run_crew, run_open};
use crate::university::UNIVERSITY;
use std::alloc::{AllocError, Global};
use std::process::Abort;
use std::sync::Wait;
use std::thread::Threads;
use ucq_hom::{HomSpace, covers};
use ucq_outside::{Gate, OpenGate};
use ucq_pool::{alone, rounds, rounds_noted};
use ucq_reader::{Input, ReadFault, read_files};
use ucq_store::{RowState, Store};
use ucq_terms::{Problem, Query, Union};

/// Level 1 has two rows. The first publication of `c(X)` prunes both, while one of them is still claimed.
const PRUNED: &str = "b(X) :- c(X). a(X) :- c(X). ? :- a(X), b(X).";

/// Level 1 has three rows, and each has one rewriting.
const FAN: &str =
    "a(X) :- b(X). a(X) :- c(X). a(X) :- d(X). b(X) :- e(X). c(X) :- f(X). d(X) :- g(X). ? :- a(X).";

/// What the file stands for.
fn read_one(alloc: Global, text: &[u8]) -> Result<Input, ReadFault>
    requires { length text.now ≤ 2 ^ 24 }
{
    let mut files = Vec::new(alloc);
    files.push(text.to_vec(alloc)?)?;
    read_files(alloc, files.as_slice())
}

/// The problem of a file.
fn problem_of(rt: &impl Abort, alloc: Global, text: &str) -> Problem {
    assert!(rt; text.len() <= 1 << 20);
    match read_one(alloc, text.as_bytes()) {
        Ok(
            Input {
                names: _,
                rules,
                queries,
                facts: _,
            },
        ) => {
            assert!(rt; rules.len() <= 4_096);
            match queries.into_iter().next() {
                Some(asked) => Problem::new(rules, asked.query),
                None => panic!(rt; "no query"),
            }
        }
        Err(_) => panic!(rt; "refused"),
    }
}

/// Whether the query is equivalent to a member of the union.
fn is_among(space: &mut HomSpace, query: &Query, union: &Union) -> bool {
    for place in 0..union.len() {
        let member = union.query(place);
        if covers(space, query, member) && covers(space, member, query) {
            return true;
        }
    }
    false
}

/// Whether two unions of cores are equal up to the names of variables and the order of atoms and queries.
pub(crate) fn are_equal(space: &mut HomSpace, one: &Union, other: &Union) -> bool {
    if one.len() != other.len() {
        return false;
    }
    for place in 0..one.len() {
        if !is_among(space, one.query(place), other) {
            return false;
        }
    }
    true
}

/// The union of a finished store.
fn union_of(rt: &impl Abort, store: Store) -> Union {
    assert!(rt; store.is_finished());
    store.into_union()
}

/// The union that one worker finds.
fn single(rt: &impl Abort, alloc: Global, space: &mut HomSpace, problem: &Problem) -> Union {
    let store = sure(rt, alone(alloc, space, problem, 4_096));
    union_of(rt, store)
}

/// Whether the union that so many workers find through the gate is that of one worker, which has so many queries.
fn agree_through<R: Threads + Wait + Sync + Abort, G: Gate + Sync>(
    rt: &R,
    alloc: Global,
    text: &str,
    workers: u32,
    gate: &G,
    count: u32,
) -> bool
    requires one { 0 < workers }
    requires few { workers ≤ 64 }
{
    let problem = problem_of(rt, alloc, text);
    let mut space = sure(rt, HomSpace::new(alloc));
    let store = sure(rt, rounds(rt, alloc, &problem, 4_096, workers, gate));
    let together = union_of(rt, store);
    let single = single(rt, alloc, &mut space, &problem);
    single.len() == count && are_equal(&mut space, &together, &single)
}

/// The row that is held, and the one that it waits for.
const ORDERS: [(u32, u32); 2] = [(1, 2), (2, 1)];

/// Asserts that two workers, of which one holds a row till the other one passes with its, find the union of one.
fn assert_agree<R: Threads + Wait + Sync + Abort>(rt: &R, alloc: Global, orders: &[(u32, u32)]) {
    for (held, awaited) in orders {
        let gate = HoldingGate::new(*held, *awaited);
        holds(rt, agree_through(rt, alloc, PRUNED, 2, &gate, 2));
        holds(rt, gate.is_passed());
    }
}

#[test]
fn two_workers_are_at_work_at_the_same_time(rt: HostRuntime) {
    assert_agree(&rt, rt.alloc(), &ORDERS);
}

/// The output for the rows that are pruned.
const ITS_UNION: &str = "% finished\n% queries 2\n? :- a(X0), b(X0).\n? :- c(X0).\n";

/// Asserts that two workers of the program, of which one holds a row, print the union of one.
fn assert_held<R: Threads + Wait + Sync + Abort>(rt: &R, alloc: Global, orders: &[(u32, u32)]) {
    for (held, awaited) in orders {
        let gate = HoldingGate::new(*held, *awaited);
        let told = run_crew(rt, alloc, "--workers 2 f", PRUNED.as_bytes(), &gate);
        holds(rt, gate.is_passed());
        holds(rt, told.is(0, ITS_UNION, ""));
    }
}

#[test]
fn the_program_has_two_workers_at_work_at_the_same_time(rt: HostRuntime) {
    assert_held(&rt, rt.alloc(), &ORDERS);
}

/// The name of the predicate of a row of one atom.
fn name_of(rt: &impl Abort, store: &Store, row: u32) -> u32 {
    assert!(rt; row < store.rows());
    store.query_of(row).atoms()[0].name()
}

/// Whether a rule leads from the first predicate, in a body, to the second, in a head.
fn leads(problem: &Problem, from: u32, to: u32) -> bool {
    problem.rules().iter().any(|rule| rule.body()[0].name() == from && rule.heads()[0].name() == to)
}

/// Whether each of the names below the count is the predicate of a member.
fn has_each(union: &Union, count: u32) -> bool {
    let mut found = 0u32;
    for name in 0..count {
        for place in 0..union.len() {
            if union.query(place).atoms()[0].name() == name {
                found = found.saturating_add(1);
            }
        }
    }
    found == count
}

#[test]
fn a_held_worker_publishes_after_the_other_one(rt: HostRuntime) {
    let problem = problem_of(&rt, rt.alloc(), FAN);
    let gate = HoldingGate::new(1, 3);
    let store = sure(&rt, rounds(&rt, rt.alloc(), &problem, 4_096, 2, &gate));
    holds(&rt, gate.is_passed() && store.rows() == 7);
    let (second, fourth) = (name_of(&rt, &store, 2), name_of(&rt, &store, 4));
    holds(&rt, leads(&problem, fourth, second));
    let union = union_of(&rt, store);
    holds(&rt, union.len() == 7 && has_each(&union, 7));
}

/// The lines of a text but the first two, in byte order, in one text.
fn sorted_lines(alloc: Global, text: &[u8]) -> Result<Vec<u8>, AllocError> {
    let mut lines = Vec::new(alloc);
    for line in text.split(|byte| *byte == b'\n').skip(2) {
        lines.push(line)?;
    }
    lines.sort()?;
    lines.as_slice().concat(alloc)
}

/// The predicate, of one letter, of a printed query of one atom.
fn letter_of(told: &Told, line: usize) -> Option<u8> {
    let text = told.out.as_slice().split(|byte| *byte == b'\n').nth(line)?;
    text.get(5).copied()
}

/// The union of the fan, in byte order.
const FAN_UNION: &[u8] =
    b"? :- a(X0).? :- b(X0).? :- c(X0).? :- d(X0).? :- e(X0).? :- f(X0).? :- g(X0).";

#[test]
fn the_program_prints_the_rows_in_the_order_of_publications(rt: HostRuntime) {
    let gate = HoldingGate::new(1, 3);
    let told = run_crew(&rt, rt.alloc(), "--workers 2 f", FAN.as_bytes(), &gate);
    holds(&rt, told.status == 0 && gate.is_passed());
    let third = letter_of(&told, 4).unwrap_or(0);
    let fifth = letter_of(&told, 6).unwrap_or(0);
    holds(&rt, b'b' <= third && third <= b'd' && fifth == third + 3);
    let lines = sure(&rt, sorted_lines(rt.alloc(), told.out.as_slice()));
    holds(&rt, lines.as_slice() == FAN_UNION);
}

#[test]
fn the_caller_claims_all_rows_of_a_level(rt: HostRuntime) {
    let problem = problem_of(&rt, rt.alloc(), FAN);
    let store = sure(&rt, rounds(&rt, rt.alloc(), &problem, 4, 2, &OpenGate));
    holds(&rt, store.cut().is_some());
    equal(&rt, (store.rows(), store.claims()), (4, 4), "rows, claims");
}

/// How many rows are explored.
fn explored(store: &Store) -> u64 {
    let mut count: u64 = 0;
    for row in 0..store.rows() {
        if let RowState::Done = store.state_of(row) {
            count = count.saturating_add(1);
        }
    }
    count
}

#[test]
fn each_drawn_row_is_explored_and_covered_cores_are_seen(rt: HostRuntime) {
    let problem = problem_of(&rt, rt.alloc(), UNIVERSITY);
    let (store, note) = sure(
        &rt,
        rounds_noted(&rt, rt.alloc(), &problem, 4_096, 2, &OpenGate),
    );
    holds(&rt, store.is_finished());
    equal(&rt, note.drawn, explored(&store), "drawn");
    holds(&rt, note.seen >= 1);
}

#[test]
fn eight_workers_find_the_union_of_one(rt: HostRuntime) {
    holds(
        &rt,
        agree_through(&rt, rt.alloc(), UNIVERSITY, 8, &OpenGate, 10),
    );
}

#[test]
fn eight_workers_make_the_counts_of_one(rt: HostRuntime) {
    let told = run_open(&rt, rt.alloc(), "--workers 8 --make 200", "");
    let counts = "% finished\n% queries 202\n% atoms 403\n% answers 202\n";
    holds(&rt, told.is(0, counts, ""));
}
