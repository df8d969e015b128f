//! Many drawn facts: what matches is what a walk of all facts finds.
ghost use Rattle.std.specs.Prelude.{◌<◌, ◌≤◌, length};

use crate::asserts::{equal, holds, sure};
use crate::facts::put;
use std::alloc::{AllocError, Global};
use ucq_facts::Facts;
use ucq_terms::{Atom, NoMemory, Term};

const A: Term = Term::Constant(0);

const B: Term = Term::Constant(1);

const C: Term = Term::Constant(2);

const D: Term = Term::Variable(0);

/// The atom of this name and these terms.
fn atom(alloc: Global, name: u32, terms: &[Term]) -> Result<Atom, AllocError>
    requires some { 0 < length terms.now }
    requires few { length terms.now ≤ 16 }
{
    Ok(Atom::new(name, Vec::from_slice(alloc, terms)?))
}

/// A number below the bound, from a state that runs through all numbers.
fn draw(state: &mut u64, below: u64) -> u64
    requires { 0 < below }
    ensures { result < below }
{
    *state = state
        .wrapping_mul(6_364_136_223_846_793_005)
        .wrapping_add(1_442_695_040_888_963_407);
    (*state >> 33) % below
}

/// One of a, b, c and d.
fn draw_term(state: &mut u64) -> Term {
    match draw(state, 4) {
        0 => A,
        1 => B,
        2 => C,
        _ => D,
    }
}

/// An atom of a name below 4 and of 1 to 3 terms.
fn draw_atom(alloc: Global, state: &mut u64) -> Result<Atom, AllocError> {
    let name = draw(state, 4) as u32;
    let terms = [draw_term(state), draw_term(state), draw_term(state)];
    let arity = draw(state, 3) as usize + 1;
    atom(alloc, name, &terms[..arity])
}

/// Whether the atom is a match.
fn is_match(atom: &Atom, name: u32, arity: u32, bound: Option<(u32, Term)>) -> bool {
    let terms = atom.terms();
    let is_bound = match bound {
        Some((place, term)) => terms.get(place as usize) == Some(&term),
        None => true,
    };
    atom.name() == name && terms.len() == arity as usize && is_bound
}

/// How many facts match, where they are what a walk of all facts finds.
fn walk(
    facts: &Facts,
    all: &[Atom],
    name: u32,
    arity: u32,
    bound: Option<(u32, Term)>,
) -> Option<usize> {
    let mut found = facts.matching(name, arity, bound);
    let count = found.len();
    for atom in all {
        if is_match(atom, name, arity, bound) && found.next() != Some(atom) {
            return None;
        }
    }
    if found.len() == 0 { Some(count) } else { None }
}

/// How many facts match for the terms at the places, together, where they are what walks find.
fn walk_places(facts: &Facts, all: &[Atom], name: u32, arity: u32) -> Option<usize> {
    let mut count = 0usize;
    for place in 0..4u32 {
        for term in [A, B, C, D, Term::Constant(9)] {
            let more = walk(facts, all, name, arity, Some((place, term)))?;
            count = count.saturating_add(more);
        }
    }
    Some(count)
}

/// How many facts match, without a term and with one, together, where they are what walks find.
fn walk_predicates(facts: &Facts, all: &[Atom]) -> Option<(usize, usize)> {
    let (mut count, mut at_places) = (0usize, 0usize);
    for name in 0..5u32 {
        for arity in 0..5u32 {
            count = count.saturating_add(walk(facts, all, name, arity, None)?);
            at_places = at_places.saturating_add(walk_places(facts, all, name, arity)?);
        }
    }
    Some((count, at_places))
}

/// Adds atoms to the facts and to a list of all. It answers whether an atom was new where the list had none like it.
fn fill(alloc: Global, facts: &mut Facts, all: &mut Vec<Atom>) -> Result<bool, NoMemory> {
    let mut state = 1;
    for _ in 0..600u32 {
        let atom = draw_atom(alloc, &mut state)?;
        let is_new = !all.contains(&atom);
        if is_new {
            all.push(atom.clone()?)?;
        }
        if put(facts, atom)? != is_new {
            return Ok(false);
        }
    }
    Ok(true)
}

/// How many terms the atoms have together.
fn count_of_terms(all: &[Atom]) -> usize {
    let mut count = 0usize;
    for atom in all {
        count = count.saturating_add(atom.terms().len());
    }
    count
}

#[test]
fn matching_finds_what_a_walk_finds(rt: HostRuntime) {
    let (mut facts, mut all) = (sure(&rt, Facts::new(rt.alloc())), Vec::new(rt.alloc()));
    holds(&rt, sure(&rt, fill(rt.alloc(), &mut facts, &mut all)));
    let terms = count_of_terms(all.as_slice());
    holds(&rt, all.len() > 200 && terms > 500);
    let found = walk_predicates(&facts, all.as_slice());
    equal(&rt, found, Some((all.len(), terms)), "walks");
}
