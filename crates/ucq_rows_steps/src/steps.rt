//! What a step answers on worked queries.
ghost use Rattle.std.specs.Prelude.{◌≡◌, vec_len, IfOk};

use crate::asserts::{asked, equal, holds, room, ruled, sure};
use std::alloc::{AllocError, Global};
use std::process::Abort;
use ucq_fold::isomorphic;
use ucq_hom::HomSpace;
use ucq_step::{StepFault, step};
use ucq_terms::{Atom, NoMemory, Query, Rule, Term};

/// Whether one of the cores is the query up to renaming.
fn is_among(space: &mut HomSpace, cores: &[Query], query: &Query) -> bool {
    for core in cores {
        if isomorphic(space, core, query) {
            return true;
        }
    }
    false
}

/// The cores that a step with the rule gives.
fn cores_of(
    rt: &impl Abort,
    alloc: Global,
    space: &mut HomSpace,
    query: &Query,
    rule: &Rule,
) -> Vec<Query> {
    sure(rt, step(alloc, space, query, rule)).cores
}

/// Asserts that each of the texts is that of a core, up to renaming.
fn assert_among(
    rt: &impl Abort,
    alloc: Global,
    space: &mut HomSpace,
    cores: &[Query],
    wanted: &[&str],
) {
    for text in wanted {
        holds(rt, is_among(space, cores, &asked(rt, alloc, text)));
    }
}

/// Asserts that a step with the rule gives these cores, of which no two are isomorphic, and no others.
fn assert_cores(rt: &impl Abort, alloc: Global, head: &str, question: &str, wanted: &[&str]) {
    let mut space = room(rt, alloc);
    let (query, rule) = (asked(rt, alloc, question), ruled(rt, alloc, head));
    let cores = cores_of(rt, alloc, &mut space, &query, &rule);
    holds(rt, space.image_of(0).is_none());
    equal(rt, cores.len(), wanted.len(), question);
    assert_among(rt, alloc, &mut space, cores.as_slice(), wanted);
}

#[test]
fn pieces_are_joined_to_a_rewriting_that_no_one_piece_gives(rt: HostRuntime) {
    assert_cores(
        &rt,
        rt.alloc(),
        "pAA <- sA",
        "? pBC pCB",
        &["? sA pAA", "? sA"],
    );
}

#[test]
fn each_set_of_pieces_gives_a_core(rt: HostRuntime) {
    let wanted = ["?AC sA pCD", "?AC pAB sC", "?AC sA sC"];
    assert_cores(&rt, rt.alloc(), "pAB <- sA", "?AC pAB pCD", &wanted);
}

#[test]
fn a_piece_of_two_atoms_joins_answers(rt: HostRuntime) {
    assert_cores(&rt, rt.alloc(), "pAB <- sA", "?AC pAB pCB", &["?AA sA"]);
}

#[test]
fn another_predicate_gives_no_core(rt: HostRuntime) {
    assert_cores(&rt, rt.alloc(), "pAB <- sA", "? qA", &[]);
}

/// Atoms of a body, each with a predicate and a second variable of its own.
fn wide_body(alloc: Global) -> Result<Vec<Atom>, AllocError>
    ensures { IfOk result (λ v. vec_len v ≡ 32) }
{
    let mut body = Vec::new(alloc);
    for i in 0..32u32 {
        let terms = vec![in alloc; Term::Variable(0), Term::Variable(i + 1)]?;
        body.push(Atom::new(1_000 + i, terms))?;
    }
    Ok(body)
}

/// The rule with the head `pA` and that body.
fn wide_rule(alloc: Global) -> Result<Rule, NoMemory> {
    let terms = vec![in alloc; Term::Variable(0)]?;
    let heads = vec![in alloc; Atom::new(b'p' as u32, terms)]?;
    Rule::new(alloc, heads, wide_body(alloc)?)
}

/// The width of a rewriting of the query with that rule that is too wide, where there is one.
fn width(rt: &impl Abort, alloc: Global, question: &str) -> Option<u32> {
    let mut space = room(rt, alloc);
    let (query, rule) = (asked(rt, alloc, question), sure(rt, wide_rule(alloc)));
    match step(alloc, &mut space, &query, &rule) {
        Ok(_) => None,
        Err(StepFault::Wide { count }) => Some(count),
        Err(fault) => panic!(rt; "{fault:?}"),
    }
}

#[test]
fn tells_the_width_of_a_rewriting_that_is_too_wide(rt: HostRuntime) {
    let width = width(&rt, rt.alloc(), "? pa pb pc pd pe");
    holds(&rt, width == Some(129) || width == Some(160));
}

#[test]
fn a_rewriting_of_128_atoms_is_not_too_wide(rt: HostRuntime) {
    equal(
        &rt,
        width(&rt, rt.alloc(), "? pa pb pc pd"),
        None,
        "128 atoms",
    );
}
