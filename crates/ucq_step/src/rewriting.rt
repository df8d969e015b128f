//! The rewriting of a query by a set of pieces.
ghost use Rattle.std.specs.Prelude.{◌≡◌, ◌<◌, ◌≤◌, ◌+◌, ◌*◌, ◌^◌, ◌++◌, ℕ, length, map, vec_len, IfOk, OnOk, nat_eq, Contains, [], slice_index_or};
ghost use Rattle.std.specs.List.{list_any};
ghost use Rattle.ucq_terms.specs.declared.Term.TheVariants.{Variable};
ghost use Rattle.ucq_terms.specs.Syntax.{OccursIn};
ghost use Rattle.ucq_terms.specs.Unifier.{is_place, places, unmatched};
ghost use Rattle.ucq_terms.specs.Rewriting.{atoms_named};
ghost use Rattle.ucq_join.specs.Walk.{ArePieces};
ghost use Rattle.ucq_step.specs.declared.rewriting.Side.TheVariants.{OfQuery};
ghost use Rattle.ucq_step.specs.inner.Building.{side_name, bound_on, IsSideOf, atom_named, copies_named, left_out_at, pairs_at, rewriting_of, TellsMembers};
ghost use Rattle.ucq_step.specs.Steps.{IsRewriteResult};

use crate::StepFault;
use std::alloc::Global;
use ucq_join::Joined;
use ucq_terms::{Atom, NoMemory, Piece, Query, QueryFault, Rule, Term};

/// Whose terms are named: the query's, or those of a member's copy of the rule.
#[derive(Clone, Copy)]
pub enum Side {
    OfQuery,
    OfCopy(u32),
}

/// The name of the term.
fn named_term(joined: &Joined, side: Side, term: Term) -> Term
    requires side { IsSideOf joined.now side }
    requires low { (v : ℕ) → term ≡ Variable v → v < bound_on joined.now side }
    ensures { result ≡ side_name joined.now side term }
{
    match (term, side) {
        (Term::Constant(_), _) => term,
        (Term::Variable(variable), Side::OfQuery) => joined.of_query(variable),
        (Term::Variable(variable), Side::OfCopy(copy)) => joined.of_copy(copy, variable),
    }
}

/// The names of the terms.
fn named_terms(
    alloc: Global,
    joined: &Joined,
    side: Side,
    terms: &[Term],
) -> Result<Vec<Term>, NoMemory>
    requires side { IsSideOf joined.now side }
    requires low { (v : ℕ) → Contains terms.now (Variable v) → v < bound_on joined.now side }
    ensures { IfOk result (λ named. named.items ≡ map (side_name joined.now side) terms.now) }
{
    let mut named = Vec::with_capacity(alloc, terms.len())?;
    for term in terms {
        named.push(named_term(joined, side, *term))?;
    }
    Ok(named)
}

/// The atom with the names of its terms.
fn named_atom(alloc: Global, joined: &Joined, side: Side, atom: &Atom) -> Result<Atom, NoMemory>
    requires side { IsSideOf joined.now side }
    requires low { (v : ℕ) → Contains atom.now.terms (Variable v) → v < bound_on joined.now side }
    ensures { IfOk result (λ a. a ≡ atom_named (side_name joined.now side) atom.now) }
{
    let terms = named_terms(alloc, joined, side, atom.terms())?;
    Ok(Atom::new(atom.name(), terms))
}

/// Adds the body with the names of its terms in the copy.
fn push_body(
    alloc: Global,
    atoms: &mut Vec<Atom>,
    joined: &Joined,
    side: Side,
    body: &[Atom],
) -> Result<(), NoMemory>
    requires side { IsSideOf joined.now side }
    requires low { (v : ℕ) → OccursIn body.now (Variable v) → v < bound_on joined.now side }
    ensures { OnOk
        result
        (atoms.new.items ≡ atoms.old.items ++ atoms_named (side_name joined.now side) body.now) }
{
    for atom in body {
        atoms.push(named_atom(alloc, joined, side, atom)?)?;
    }
    Ok(())
}

/// The bodies of all copies, with the names of their terms.
fn named_bodies(alloc: Global, joined: &Joined, body: &[Atom]) -> Result<Vec<Atom>, NoMemory>
    requires few { length joined.now.members < 2 ^ 32 }
    requires low { (v : ℕ) → OccursIn body.now (Variable v) → v < joined.now.width }
    ensures { IfOk result (λ atoms.
        atoms.items ≡ copies_named joined.now body.now (length joined.now.members)) }
{
    let mut atoms = Vec::new(alloc);
    for copy in 0..joined.members().len() as u32 {
        push_body(alloc, &mut atoms, joined, Side::OfCopy(copy), body)?;
    }
    Ok(atoms)
}

/// Whether the piece matches the query's atom at the place.
fn has_place(piece: &Piece, place: u32) -> bool
    ensures { result ≡ list_any (λ pair. nat_eq place pair.0) piece.now }
{
    piece.pairs.iter().any(|pair| place == pair.0)
}

/// The piece at the place.
fn piece_at(pieces: &[Piece], place: usize) -> &Piece
    requires { place < length pieces.now }
    ensures { result.now ≡ slice_index_or pieces.now place [] }
{
    &pieces[place]
}

/// Whether one of the members matches the query's atom at the place.
fn is_matched(pieces: &[Piece], members: &[usize], place: u32) -> bool
    requires { (member : ℕ) → Contains members.now member → member < length pieces.now }
    ensures { result ≡ is_place (pairs_at pieces.now members.now) place }
{
    for member in members {
        if has_place(piece_at(pieces, *member), place) {
            return true;
        }
    }
    false
}

/// Adds the query's atom at the place, with the names of its terms, unless a member matches it.
fn push_unmatched(
    alloc: Global,
    atoms: &mut Vec<Atom>,
    atom: &Atom,
    place: u32,
    pieces: &[Piece],
    joined: &Joined,
) -> Result<(), NoMemory>
    requires within { (member : ℕ) →
        Contains joined.now.members member →
        member < length pieces.now }
    requires low { (v : ℕ) → Contains atom.now.terms (Variable v) → v < joined.now.variables }
    ensures { OnOk
        result
        (atoms.new.items ≡
        atoms.old.items ++
        atoms_named
        (side_name joined.now OfQuery)
        (left_out_at (pairs_at pieces.now joined.now.members) place atom.now)) }
{
    if !is_matched(pieces, joined.members(), place) {
        atoms.push(named_atom(alloc, joined, Side::OfQuery, atom)?)?;
    }
    Ok(())
}

/// Adds the atoms that no member matches, with the names of their terms.
fn push_rest(
    alloc: Global,
    atoms: &mut Vec<Atom>,
    query: &Query,
    pieces: &[Piece],
    joined: &Joined,
) -> Result<(), NoMemory>
    requires within { (member : ℕ) →
        Contains joined.now.members member →
        member < length pieces.now }
    requires low { (v : ℕ) → OccursIn query.now.atoms (Variable v) → v < joined.now.variables }
    ensures { OnOk
        result
        (atoms.new.items ≡
        atoms.old.items ++
        atoms_named
        (side_name joined.now OfQuery)
        (unmatched query.now (pairs_at pieces.now joined.now.members))) }
{
    for (place, atom) in query.atoms().iter().enumerate() {
        push_unmatched(alloc, atoms, atom, place as u32, pieces, joined)?;
    }
    Ok(())
}

/// The rewriting of the query by the pieces that are joined, as a stored query. It is as safe as the query, since the term
/// beside an answer variable in a head is a constant or stands in the body too.
pub fn rewrite(
    alloc: Global,
    query: &Query,
    rule: &Rule,
    pieces: &[Piece],
    joined: &Joined,
) -> Result<Query, StepFault>
    requires pieces { ArePieces query.now rule.now pieces.now }
    requires told { TellsMembers query.now rule.now pieces.now joined.now }
    ensures { IsRewriteResult query.now rule.now pieces.now joined.now.members result }
{
    let answers = named_terms(alloc, joined, Side::OfQuery, query.answers())?;
    let mut atoms = named_bodies(alloc, joined, rule.body())?;
    push_rest(alloc, &mut atoms, query, pieces, joined)?;
    match Query::new(alloc, answers, atoms) {
        Ok(rewriting) => Ok(rewriting),
        Err(QueryFault::TooManyAtoms { count }) => Err(StepFault::Wide { count }),
        Err(QueryFault::Memory) => Err(StepFault::Memory),
        Err(QueryFault::Unsafe { place: _ }) => unreachable!(),
    }
}
