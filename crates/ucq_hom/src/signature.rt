//! Signatures of queries, by which most pairs are seen to cover nothing before any search.
ghost use Rattle.std.specs.Prelude.{◌≡◌, ◌<◌, ◌≤◌, false, true};
ghost use Rattle.ucq_terms.specs.Syntax.{Query as QueryValue};
ghost use Rattle.ucq_terms.specs.Homomorphism.{Covers};
ghost use Rattle.ucq_hom.specs.Signature.{mark as mark_of, constant_mark as constant_mark_of, equal_mark as equal_mark_of, answer_number as answer_number_of, equal_number as equal_number_of, answer_marks as answer_marks_of, term_marks as term_marks_of, atom_marks as atom_marks_of, query_marks as query_marks_of, signature_of, IsPartOf};

use std::marker::Model;
use ucq_terms::{Atom, Query, Term};

/// Two sets of marks of a query: of its predicates, and of its constants, its answers and its equal terms, each at its place
/// of a predicate. A query that covers another has no mark that the other has not.
#[derive(Clone, Copy)]
pub struct Signature {
    first: u128,
    second: u128,
}

impl Model for Signature {
    ghost use Rattle.ucq_hom.specs.Signature.{Marks};

    ghost Value = { Marks };

    ghost view = { λ s. record { first = s.first; second = s.second } };

    ghost inverse = { λ m. record { first = m.first; second = m.second } };
}

impl Signature {
    /// The signature of a query.
    pub fn of(query: &Query) -> Signature
        ensures { result ≡ signature_of query.now }
    {
        Signature {
            first: query_marks(128, query),
            second: query_marks(127, query),
        }
    }

    /// The first set of marks, as the bits of a number.
    pub fn marks(&self) -> u128
        ensures { result ≡ self.now.first }
    {
        self.first
    }

    /// The second set of marks, likewise.
    pub fn others(&self) -> u128
        ensures { result ≡ self.now.second }
    {
        self.second
    }

    /// Whether a query with this signature may cover one with the other. Most often it doesn't.
    pub fn may_cover(&self, other: &Signature) -> bool
        ensures { result ≡ false →
            (a b : QueryValue) →
            self.now ≡ signature_of a →
            other.now ≡ signature_of b →
            ¬ Covers a b }
    {
        is_part_of(self.first, other.first) && is_part_of(self.second, other.second)
    }
}

/// Whether each mark of the one set is one of the other.
#[tactic(auto, using(crate::proofs::Signatures::and_part))]
fn is_part_of(marks: u128, others: u128) -> bool
    ensures { result ≡ false → ¬ IsPartOf marks others }
{
    marks & others == marks
}

fn mark(size: u32, number: u64) -> u128
    requires some { 0 < size }
    requires few { size ≤ 128 }
    ensures { result ≡ mark_of size number }
{
    1 << (number % size as u64)
}

// The mark of a constant at a place of a predicate; a variable has none.
fn constant_mark(size: u32, name: u32, place: usize, term: Term) -> u128
    requires some { 0 < size }
    requires few { size ≤ 128 }
    ensures { result ≡ constant_mark_of size name place term }
{
    match term {
        Term::Constant(constant) => mark(size, (name as u64 + 13 * constant as u64) ^ place as u64),
        Term::Variable(_) => 0,
    }
}

fn answer_number(name: u32, place: usize, answer: usize) -> u64
    ensures { result ≡ answer_number_of name place answer }
{
    (name as u64 + 29 * (answer as u64 % 64) + 7) ^ place as u64
}

fn equal_number(name: u32, place: usize, other: usize) -> u64
    ensures { result ≡ equal_number_of name place other }
{
    name as u64 + 41 * ((place as u64 ^ other as u64) % 64)
}

// The mark of a number, where the terms are equal.
fn equal_mark(size: u32, number: u64, term: Term, other: Term) -> u128
    requires some { 0 < size }
    requires few { size ≤ 128 }
    ensures { result ≡ equal_mark_of size number term other }
{
    if term == other { mark(size, number) } else { 0 }
}

// The mark of a constant, and those of the answers that the term is.
fn answer_marks(size: u32, answers: &[Term], name: u32, place: usize, term: Term) -> u128
    requires some { 0 < size }
    requires few { size ≤ 128 }
    ensures { result ≡ answer_marks_of size answers.now name (place, term) }
{
    answers.iter().enumerate().fold(
        constant_mark(size, name, place, term),
        |marks, (answer, other)| marks
            | equal_mark(size, answer_number(name, place, answer), term, *other),
    )
}

// These, and those of the equal terms of its atom.
fn term_marks(size: u32, answers: &[Term], atom: &Atom, place: usize, term: Term) -> u128
    requires some { 0 < size }
    requires few { size ≤ 128 }
    ensures { result ≡ term_marks_of size answers.now atom.now (place, term) }
{
    let name = atom.name();
    atom.terms().iter().enumerate().fold(
        answer_marks(size, answers, name, place, term),
        |marks, (other, another)| marks
            | equal_mark(size, equal_number(name, place, other), term, *another),
    )
}

fn atom_marks(size: u32, answers: &[Term], atom: &Atom) -> u128
    requires some { 0 < size }
    requires few { size ≤ 128 }
    ensures { result ≡ atom_marks_of size answers.now atom.now }
{
    atom.terms()
        .iter()
        .enumerate()
        .fold(mark(size, atom.name() as u64), |marks, (place, term)| {
            marks | term_marks(size, answers, atom, place, *term)
        })
}

fn query_marks(size: u32, query: &Query) -> u128
    requires some { 0 < size }
    requires few { size ≤ 128 }
    ensures { result ≡ query_marks_of size query.now }
{
    let answers = query.answers();
    query
        .atoms()
        .iter()
        .fold(0, |marks, atom| marks | atom_marks(size, answers, atom))
}
