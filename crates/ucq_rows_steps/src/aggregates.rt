//! The aggregates that a walk gives, and the names that it tells.
ghost use Rattle.std.specs.Prelude.{◌≡◌, ◌<◌, ℕ, length, OnOk};
ghost use Rattle.ucq_terms.specs.declared.Term.TheVariants.{Variable};
ghost use Rattle.ucq_terms.specs.Syntax.{OccursIn};
ghost use Rattle.ucq_join.specs.Walk.{ArePieces};

use crate::asserts::{holds, reads};
use std::alloc::{AllocError, Global};
use std::test::Fail;
use ucq_join::{Joined, Joins};
use ucq_terms::{Atom, Piece, Query, Rule, Term};
use ucq_unify::single_pieces;
use ucq_worked::{query, rule};

/// The first term of the atom at the place.
fn first_term(atoms: &[Atom], place: usize) -> Term
    requires { place < length atoms.now }
    ensures { OccursIn atoms.now result }
{
    atoms[place].terms()[0]
}

/// What the map makes of the first term of the query's atom at the place.
fn of_atom(joined: &Joined, query: &Query, place: usize) -> Term
    requires within { place < length query.now.atoms }
    requires low { (v : ℕ) → OccursIn query.now.atoms (Variable v) → v < joined.now.variables }
{
    match first_term(query.atoms(), place) {
        Term::Variable(variable) => joined.of_query(variable),
        constant => constant,
    }
}

/// What the map makes of the first term of the head's atom at the place, in the member's copy.
fn of_head(joined: &Joined, rule: &Rule, member: u32, place: usize) -> Term
    requires member { member < length joined.now.members }
    requires within { place < length rule.now.heads }
    requires low { (v : ℕ) → OccursIn rule.now.heads (Variable v) → v < joined.now.width }
{
    match first_term(rule.heads(), place) {
        Term::Variable(variable) => joined.of_copy(member, variable),
        constant => constant,
    }
}

/// What the map makes of the first terms of two atoms of the query, and of the head's first atom in the copies of the first
/// two members.
fn names_of(
    alloc: Global,
    joined: &Joined,
    query: &Query,
    rule: &Rule,
    atoms: (usize, usize),
) -> Result<Vec<Term>, AllocError>
    requires query { (v : ℕ) → OccursIn query.now.atoms (Variable v) → v < joined.now.variables }
    requires heads { (v : ℕ) → OccursIn rule.now.heads (Variable v) → v < joined.now.width }
{
    let mut names = Vec::new(alloc);
    if atoms.0 < query.atoms().len() && atoms.1 < query.atoms().len() {
        names.push(of_atom(joined, query, atoms.0))?;
        names.push(of_atom(joined, query, atoms.1))?;
    }
    for member in 0..2u32 {
        if (member as usize) < joined.members().len() && !rule.heads().is_empty() {
            names.push(of_head(joined, rule, member, 0))?;
        }
    }
    Ok(names)
}

/// The place of each name among them, where it first stands.
fn pattern(alloc: Global, names: &[Term]) -> Result<Vec<Option<usize>>, AllocError> {
    let mut places = Vec::new(alloc);
    for name in names {
        places.push(names.iter().position(|other| other == name))?;
    }
    Ok(places)
}

/// The members of the next aggregate, and which of those names are equal: the place of each where it first stands.
fn next_of(
    alloc: Global,
    joins: &mut Joins,
    query: &Query,
    rule: &Rule,
    atoms: (usize, usize),
) -> Result<String, Fail>
    requires query { joins.old.query ≡ query.now }
    requires rule { joins.old.rule ≡ rule.now }
    ensures query { OnOk result (joins.new.query ≡ query.now) }
    ensures rule { OnOk result (joins.new.rule ≡ rule.now) }
{
    let Some(joined) = joins.next()? else {
        return Ok(String::from_str(alloc, "none\n")?);
    };
    let names = names_of(alloc, &joined, query, rule, atoms)?;
    let places = pattern(alloc, names.as_slice())?;
    Ok(format!(in alloc; "{:?} {:?}\n", joined.members(), places.as_slice())?)
}

/// The atom that the piece at the place pairs first.
fn atom_of(pieces: &[Piece], place: usize) -> usize {
    let Some(piece) = pieces.get(place) else {
        return 0;
    };
    match piece.pairs.as_slice() {
        [(atom, _), ..] => *atom as usize,
        [] => 0,
    }
}

/// What five steps of a walk through the aggregates of the pieces give, a line for each.
fn walk(alloc: Global, query: &Query, rule: &Rule, pieces: &[Piece]) -> Result<String, Fail>
    requires { ArePieces query.now rule.now pieces.now }
{
    let atoms = (atom_of(pieces, 0), atom_of(pieces, 1));
    let mut joins = Joins::new(alloc, query, rule, pieces)?;
    let mut lines = String::new(alloc);
    for _ in 0..5u32 {
        let line = next_of(alloc, &mut joins, query, rule, atoms)?;
        lines.push_str(line.as_str())?;
    }
    Ok(lines)
}

/// What five steps of a walk through the aggregates of the single pieces give.
fn walked(alloc: Global, head: &str, question: &str) -> Result<String, Fail> {
    let query = query(alloc, question)?;
    let rule = rule(alloc, head)?;
    let pieces = single_pieces(alloc, &query, &rule)?;
    walk(alloc, &query, &rule, pieces.as_slice())
}

#[test]
fn two_pieces_apart_make_three_aggregates(rt: HostRuntime) -> Result<(), Fail> {
    let lines = walked(rt.alloc(), "pXY <- sX", "?XZ pXA pZB")?;
    reads(&rt, lines.as_bytes(), THREE);
    Ok(())
}

/// The members of three aggregates, and the names of two atoms' first terms and of the members' heads; and then no more.
const THREE: &str =
    "[0] [Some(0), Some(1), Some(0)]\n[0, 1] [Some(0), Some(1), Some(0), Some(1)]\n[1] [Some(0), Some(1), Some(1)]\nnone\nnone\n";

/// Whether a walk through no pieces gives nothing, and then nothing again.
fn gives_none(alloc: Global) -> Result<bool, Fail> {
    let (query, rule) = (query(alloc, "?A pA")?, rule(alloc, "pA <- qa")?);
    let mut joins = Joins::new(alloc, &query, &rule, &[])?;
    let first = joins.next()?.is_none();
    Ok(joins.next()?.is_none() && first)
}

#[test]
fn no_pieces_make_no_aggregate(rt: HostRuntime) -> Result<(), Fail> {
    holds(&rt, gives_none(rt.alloc())?);
    Ok(())
}
