//! Generated queries and rules, on which the search and the plain definition agree.
ghost use Rattle.std.specs.Prelude.{◌≡◌, ◌<◌, ◌≤◌, vec_len, IfOk};

use crate::asserts::{equal, holds, sure};
use crate::plain::{Map, is_single_piece};
use std::alloc::{AllocError, Global};
use std::process::Abort;
use ucq_terms::{Atom, NoMemory, Piece, Query, QueryFault, Rule, Term};
use ucq_unify::single_pieces;

/// Numbers that look like chance.
#[derive(Clone, Copy)]
struct Dice {
    state: u32,
}

impl Dice {
    fn roll(&mut self, sides: u32) -> u32
        requires { 0 < sides }
        ensures { result < sides }
    {
        self.state = self
            .state
            .wrapping_mul(1_664_525)
            .wrapping_add(1_013_904_223);
        (self.state >> 16) % sides
    }
}

fn term(dice: &mut Dice) -> Term {
    match dice.roll(8) {
        0 => Term::Constant(dice.roll(2)),
        _ => Term::Variable(dice.roll(3)),
    }
}

// An atom of one of three predicates, two of which have one name.
fn atom(alloc: Global, dice: &mut Dice) -> Result<Atom, AllocError> {
    match dice.roll(8) {
        0 => Ok(Atom::new(0, vec![in alloc; term(dice)]?)),
        1 => Ok(Atom::new(1, vec![in alloc; term(dice), term(dice)]?)),
        _ => Ok(Atom::new(0, vec![in alloc; term(dice), term(dice)]?)),
    }
}

fn atoms(alloc: Global, dice: &mut Dice, count: u32) -> Result<Vec<Atom>, AllocError>
    ensures { IfOk result (λ v. vec_len v ≡ count) }
{
    let mut atoms = Vec::new(alloc);
    for _made in 0..count {
        atoms.push(atom(alloc, dice)?)?;
    }
    Ok(atoms)
}

fn answers(alloc: Global, dice: &mut Dice) -> Result<Vec<Term>, AllocError>
    ensures { IfOk result (λ v. vec_len v ≤ 2) }
{
    match dice.roll(4) {
        0 => Ok(vec![in alloc; term(dice), term(dice)]?),
        1 => Ok(vec![in alloc; term(dice)]?),
        _ => Ok(Vec::new(alloc)),
    }
}

// A query of up to four atoms and up to two answers, of which one may be unsafe.
fn drawn(alloc: Global, dice: &mut Dice) -> Result<Query, QueryFault> {
    let count = 1 + dice.roll(4);
    let atoms = atoms(alloc, dice, count)?;
    Query::new(alloc, answers(alloc, dice)?, atoms)
}

// Such a query, or none where an answer is unsafe.
fn query(rt: &impl Abort, alloc: Global, dice: &mut Dice) -> Option<Query> {
    match drawn(alloc, dice) {
        Ok(query) => Some(query),
        Err(QueryFault::Unsafe { place: _ }) => None,
        Err(fault) => panic!(rt; "{fault:?}"),
    }
}

// Up to three atoms, of which the last may be a copy of the first.
fn heads(alloc: Global, dice: &mut Dice) -> Result<Vec<Atom>, AllocError>
    ensures { IfOk result (λ v. 0 < vec_len v × vec_len v ≤ 3) }
{
    let count = 1 + dice.roll(2);
    let mut heads = atoms(alloc, dice, count)?;
    if dice.roll(3) == 0 {
        let copy = heads[0].clone()?;
        heads.push(copy)?;
    }
    Ok(heads)
}

// A rule with such a head.
fn rule(alloc: Global, dice: &mut Dice) -> Result<Rule, NoMemory> {
    let heads = heads(alloc, dice)?;
    let body = atoms(alloc, dice, 1)?;
    Rule::new(alloc, heads, body)
}

// The map of a number below 256: two bits for each place.
fn map_of(number: u32) -> Map {
    let mut map = [None; 4];
    for place in 0..4u32 {
        let digit = number >> (2 * place) & 3;
        if digit > 0 {
            map[place as usize] = Some(digit - 1);
        }
    }
    map
}

fn count_of_pairs(map: &Map) -> usize {
    let mut count = 0usize;
    for head in map {
        count = count.saturating_add(usize::from(head.is_some()));
    }
    count
}

fn has_pair(map: &Map, place: u32, head: u32) -> bool {
    match map.get(place as usize) {
        Some(Some(other)) => *other == head,
        _ => false,
    }
}

fn is_the_map(piece: &Piece, map: &Map) -> bool {
    for (place, head) in piece.pairs.iter() {
        if !has_pair(map, *place, *head) {
            return false;
        }
    }
    piece.pairs.len() == count_of_pairs(map)
}

/// What was compared, and the single pieces that were found, with those of more than one pair.
#[derive(Drop)]
struct Tally {
    compared: u32,
    pieces: u32,
    larger: u32,
}

fn count(tally: &mut Tally, pieces: &[Piece]) {
    tally.compared = tally.compared.saturating_add(1);
    for piece in pieces {
        tally.pieces = tally.pieces.saturating_add(1);
        tally.larger = tally
            .larger
            .saturating_add(u32::from(piece.pairs.len() > 1));
    }
}

// How many of the pieces are the map.
fn count_of(pieces: &[Piece], map: &Map) -> usize {
    let mut count = 0usize;
    for piece in pieces {
        count = count.saturating_add(usize::from(is_the_map(piece, map)));
    }
    count
}

// Asserts that the pieces have the map once if the definition holds of it, else never, and gives how often that is.
fn compare_map(
    rt: &impl Abort,
    alloc: Global,
    query: &Query,
    rule: &Rule,
    pieces: &[Piece],
    map: &Map,
) -> usize {
    let expected = usize::from(sure(rt, is_single_piece(alloc, query, rule, map)));
    equal(rt, count_of(pieces, map), expected, "a map");
    expected
}

// Asserts that the pieces are those of which the definition holds.
fn compare(rt: &impl Abort, alloc: Global, query: &Query, rule: &Rule, pieces: &[Piece]) {
    let mut wanted = 0usize;
    for number in 0..256u32 {
        let more = compare_map(rt, alloc, query, rule, pieces, &map_of(number));
        wanted = wanted.saturating_add(more);
    }
    equal(rt, pieces.len(), wanted, "all maps");
}

// Compares the search and the definition on one more rule, and a query if no answer of it is unsafe.
fn compare_next(rt: &impl Abort, alloc: Global, dice: &mut Dice, tally: &mut Tally) {
    let rule = sure(rt, rule(alloc, dice));
    if let Some(query) = query(rt, alloc, dice) {
        let pieces = sure(rt, single_pieces(alloc, &query, &rule));
        compare(rt, alloc, &query, &rule, pieces.as_slice());
        count(tally, pieces.as_slice());
    }
}

#[test]
fn search_agrees_with_the_plain_definition(rt: HostRuntime) {
    let mut dice = Dice { state: 1 };
    let mut tally = Tally {
        compared: 0,
        pieces: 0,
        larger: 0,
    };
    for _ in 0..600u32 {
        compare_next(&rt, rt.alloc(), &mut dice, &mut tally);
    }
    holds(&rt, tally.compared > 500);
    holds(&rt, tally.pieces > 600);
    holds(&rt, tally.larger > 50);
}
