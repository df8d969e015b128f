//! A form of a query that most queries share which are equal but for the names of their variables and the order of their
//! atoms. It is found by one walk over the atoms, so some such queries have different forms.
ghost use Rattle.std.specs.Prelude.{◌≡◌, ◌<◌, length, map, IfOk};
ghost use Rattle.ucq_terms.specs.Homomorphism.{AreIsomorphic};
ghost use Rattle.ucq_terms.specs.Unifier.{atom_at};
ghost use Rattle.ucq_hom.specs.Search.{ArePlaces, IsOrder};

use std::alloc::Global;
use ucq_hom::number;
use ucq_terms::{ATOMS, Atom, NoMemory, Query, QueryFault, Term, VARIABLES};

/// What the walk goes by at a term: what it knows comes before a variable that it has not met, which goes by the first
/// place in its atom.
#[derive(Clone, Copy, PartialEq, Eq, PartialOrd, Ord)]
enum Rank {
    Constant(u32),
    Met(u32),
    Free(usize),
}

/// The number of the variable, or 0 where the walk has not met it.
fn number_of(numbers: &[u32], variable: u32) -> u32 {
    numbers.get(variable as usize).copied().unwrap_or(0)
}

fn rank_of(numbers: &[u32], terms: &[Term], place: usize) -> Rank
    requires { place < length terms.now }
{
    match terms[place] {
        Term::Constant(constant) => Rank::Constant(constant),
        Term::Variable(variable) => match number_of(numbers, variable) {
            0 => Rank::Free(first_place(terms, terms[place])),
            number => Rank::Met(number),
        },
    }
}

fn first_place(terms: &[Term], term: Term) -> usize {
    terms
        .iter()
        .position(|other| *other == term)
        .unwrap_or(terms.len())
}

fn is_met(numbers: &[u32], term: Term) -> bool {
    match term {
        Term::Constant(_) => true,
        Term::Variable(variable) => number_of(numbers, variable) > 0,
    }
}

fn count_met(numbers: &[u32], terms: &[Term]) -> usize {
    terms.iter().filter(|term| is_met(numbers, **term)).count()
}

/// Whether the terms come before the others, by the first place where their ranks differ.
fn are_before(numbers: &[u32], terms: &[Term], others: &[Term]) -> bool {
    for place in 0..terms.len().min(others.len()) {
        let ours = rank_of(numbers, terms, place);
        let theirs = rank_of(numbers, others, place);
        if ours != theirs {
            return ours < theirs;
        }
    }
    terms.len() < others.len()
}

fn is_before(numbers: &[u32], atom: &Atom, other: &Atom) -> bool {
    if atom.name() == other.name() {
        are_before(numbers, atom.terms(), other.terms())
    } else {
        atom.name() < other.name()
    }
}

/// Gives the variables among the terms that have none the numbers after the count, and answers the new count.
fn meet(numbers: &mut [u32], count: u32, terms: &[Term]) -> u32 {
    let mut count = count;
    for term in terms {
        if !is_met(numbers, *term) {
            count = count.saturating_add(1);
            note(numbers, *term, count);
        }
    }
    count
}

fn note(numbers: &mut [u32], term: Term, number: u32) {
    if let Term::Variable(variable) = term {
        if let Some(place) = numbers.get_mut(variable as usize) {
            *place = number;
        }
    }
}

/// Where in the order, from `at` on, the atom stands that comes next: one with the most terms that were met, and of these
/// the first by its name and the ranks of its terms.
fn next_place(numbers: &[u32], atoms: &[Atom], order: &[u32], at: usize) -> usize
    requires at { at < length order.now }
    requires places { ArePlaces atoms.now order.now }
    ensures { result < length order.now }
{
    let mut best = at;
    let mut most = 0;
    for i in at..order.len() {
        let atom = &atoms[order[i] as usize];
        let count = count_met(numbers, atom.terms());
        let earlier = &atoms[order[best] as usize];
        if count > most || count == most && is_before(numbers, atom, earlier) {
            best = i;
            most = count;
        }
    }
    best
}

/// Writes the places of the query's atoms in the order in which the walk comes to them, from the answers.
fn arrange(query: &Query, order: &mut [u32])
    requires { length order.old ≡ length query.now.atoms }
    ensures length { length order.new ≡ length query.now.atoms }
    ensures order { IsOrder query.now.atoms order.new }
{
    let atoms = query.atoms();
    let mut numbers = [0; VARIABLES as usize];
    let mut count = meet(&mut numbers, 0, query.answers());
    number(order);
    for i in 0..order.len() {
        let best = next_place(&numbers, atoms, order, i);
        order.swap(i, best);
        count = meet(&mut numbers, count, atoms[order[i] as usize].terms());
    }
}

/// The atoms at these places, in this order.
fn atoms_in_order(alloc: Global, atoms: &[Atom], order: &[u32]) -> Result<Vec<Atom>, NoMemory>
    requires { ArePlaces atoms.now order.now }
    ensures { IfOk result (λ arranged. arranged.items ≡ map (atom_at atoms.now) order.now) }
{
    let mut arranged = Vec::with_capacity(alloc, order.len())?;
    for place in order {
        arranged.push(atoms[*place as usize].clone()?)?;
    }
    Ok(arranged)
}

/// The query with its atoms in the order of a walk that starts at the answers and the constants, and goes on at an atom
/// with the most terms that it has met, and with its variables numbered in this order. Takes the time of the square of the
/// number of atoms.
pub fn normal_form(alloc: Global, query: &Query) -> Result<Query, NoMemory>
    ensures { IfOk result (λ form. AreIsomorphic query.now form) }
{
    let mut places = [0; ATOMS as usize];
    let order = &mut places[..query.atoms().len()];
    arrange(query, order);
    let answers = Vec::from_slice(alloc, query.answers())?;
    let atoms = atoms_in_order(alloc, query.atoms(), order)?;
    match Query::new(alloc, answers, atoms) {
        Ok(form) => Ok(form),
        Err(QueryFault::Memory) => Err(NoMemory),
        Err(QueryFault::TooManyAtoms { count: _ }) => unreachable!(),
        Err(QueryFault::Unsafe { place: _ }) => unreachable!(),
    }
}
