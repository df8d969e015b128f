//! The queries of rules, and rules that others make needless.
ghost use Rattle.std.specs.Prelude.{◌⊎◌};
ghost use Rattle.ucq_store.specs.Store.{IsCut, IsFinished};

use crate::asserts::{asked, equal, holds, room, sure};
use std::alloc::Global;
use std::process::Abort;
use ucq_pool::alone;
use ucq_store::Store;
use ucq_terms::{Problem, Query, Rule};
use ucq_within::containment::within;
use ucq_within::{Within, rule_queries};
use ucq_worked::{problem, rule};

/// The queries of the head and of the body.
fn queries_of(rt: &impl Abort, alloc: Global, rule: &Rule) -> (Query, Query) {
    let queries = sure(rt, rule_queries(alloc, rule));
    sure(rt, queries.ok_or("the frontier is too wide"))
}

/// Asserts that these are the queries of the rule's head and body.
fn assert_queries(rt: &impl Abort, alloc: Global, text: &str, head: &str, body: &str) {
    let rule = sure(rt, rule(alloc, text));
    let (found_head, found_body) = queries_of(rt, alloc, &rule);
    holds(rt, found_head.same(&asked(rt, alloc, head)));
    holds(rt, found_body.same(&asked(rt, alloc, body)));
}

/// A rule, and the queries of its head and body.
fn assert_each(rt: &impl Abort, alloc: Global, rows: &[(&str, &str, &str)]) {
    for (rule, head, body) in rows {
        assert_queries(rt, alloc, rule, head, body);
    }
}

#[test]
fn a_rule_has_queries_that_ask_for_its_frontier(rt: HostRuntime) {
    let rows = [
        ("qXZ <- pXY", "?X qXZ", "?X pXY"),
        ("qYX rXW <- pXY sX", "?YX qYX rXW", "?YX pXY sX"),
        ("qaX <- pXX pXb", "?X qaX", "?X pXX pXb"),
        ("qZ <- pX", "? qZ", "? pX"),
    ];
    assert_each(&rt, rt.alloc(), &rows);
}

#[test]
fn a_frontier_of_seventeen_variables_has_no_queries(rt: HostRuntime) {
    let text = "pABCDEFGHIJKLMNOP qQ <- rABCDEFGHIJKLMNOP sQ";
    let rule = sure(&rt, rule(rt.alloc(), text));
    let queries = sure(&rt, rule_queries(rt.alloc(), &rule));
    holds(&rt, queries.is_none());
}

/// The store of a rewriting that may have four rows.
fn rewritten<'p>(rt: &impl Abort, alloc: Global, problem: &'p Problem) -> Store<'p>
    ensures { IsFinished result ⊎ IsCut result }
{
    let mut space = room(rt, alloc);
    sure(rt, alone(alloc, &mut space, problem, 4))
}

/// What the other rules tell of the rule, whose head's query is asked under them.
fn told(rt: &impl Abort, alloc: Global, text: &str, others: &[&str], head: &str) -> Within {
    let rule = sure(rt, rule(alloc, text));
    let (asked_head, asked_body) = queries_of(rt, alloc, &rule);
    holds(rt, asked_head.same(&asked(rt, alloc, head)));
    let problem = sure(rt, problem(alloc, others, head));
    let store = rewritten(rt, alloc, &problem);
    within(&mut room(rt, alloc), &store, &asked_body)
}

/// A rule, the others, the query of the rule's head, and what is told.
fn assert_told(rt: &impl Abort, alloc: Global, rows: &[(&str, &[&str], &str, Within)]) {
    for (rule, others, head, wanted) in rows {
        equal(rt, told(rt, alloc, rule, others, head), *wanted, rule);
    }
}

#[test]
fn others_make_a_rule_needless(rt: HostRuntime) {
    let first: &[&str] = &["rX <- qX", "rX <- pX"];
    let second: &[&str] = &["qX <- pX", "rX <- pX"];
    let third: &[&str] = &["qX <- pX", "rX <- qX"];
    let rows = [
        ("qX <- pX", first, "?X qX", Within::No),
        ("rX <- qX", second, "?X rX", Within::No),
        ("rX <- pX", third, "?X rX", Within::Yes { row: 2 }),
    ];
    assert_told(&rt, rt.alloc(), &rows);
}
