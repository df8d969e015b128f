//! Queries.
ghost use Rattle.std.specs.Prelude.{◌≡◌, ◌<◌, ◌≤◌, ◌^◌, ◌-◌, ◌+◌, ◌↔◌, length, vec_len, IfOk, IfErr, OnOk, IsTrue, List, remove};
ghost use Rattle.ucq_terms.specs.Syntax.{IsSafe, HasEachOnce};
ghost use Rattle.ucq_terms.specs.Query.{IsStored, IsLoose, IsFirstLooseAnswer, IsNumberedFrom};
ghost use Rattle.ucq_terms.specs.Equality.{query_eq, IsEquivalence-query_eq, IsPartialEquivalence-query_eq};
ghost use Rattle.ucq_terms.specs.Numbering.{normal_query, numbered_query};
ghost use Rattle.ucq_terms.specs.declared.queries.QueryFault.TheVariants.{Memory};

use crate::atom_lists::{each_once, occurs, term_count};
use crate::variables::{number_atoms, number_terms};
use crate::{ATOMS, Atom, NoMemory, Term};
use indexmap::IndexSet;
use std::alloc::{AllocError, AllocFailed, Global};
use std::marker::Model;

/// A conjunctive query as it is stored: an answer list of at most 16 terms, each variable of which occurs in an atom, and
/// 1 to `ATOMS` atoms, pairwise different. Its variables are below `VARIABLES`.
#[derive(Drop)]
pub struct Query {
    answers: Vec<Term>,
    atoms: Vec<Atom>,
}

impl Model for Query {
    ghost use Rattle.ucq_terms.specs.Syntax.{Query as QueryValue};

    ghost Value = { QueryValue };

    ghost use Rattle.ucq_terms.specs.Query.{IsStored};

    ghost view = { λ q. record { answers = q.answers.items; atoms = q.atoms.items } };

    ghost invariant = { λ q.
        IsStored (record { answers = q.answers.items; atoms = q.atoms.items }) };
}

/// Why answers and atoms make no stored query.
#[derive(Clone, Copy, Debug, PartialEq, Eq)]
pub enum QueryFault {
    /// The answer term at this place, the first such, is a variable of no atom.
    Unsafe { place: u32 },
    /// No answer is unsafe, and there are this many different atoms, more than `ATOMS`.
    TooManyAtoms { count: u32 },
    /// Want of memory.
    Memory,
}

impl From<AllocError> for QueryFault {
    ghost from_gives = { λ _ e. e ≡ Memory };

    fn from(_error: AllocError) -> QueryFault {
        QueryFault::Memory
    }
}

impl<T: Drop> From<AllocFailed<T>> for QueryFault {
    ghost from_gives = { λ _ e. e ≡ Memory };

    fn from(_error: AllocFailed<T>) -> QueryFault {
        QueryFault::Memory
    }
}

impl From<NoMemory> for QueryFault {
    ghost from_gives = { λ _ e. e ≡ Memory };

    fn from(_error: NoMemory) -> QueryFault {
        QueryFault::Memory
    }
}

impl Query {
    ghost use Rattle.ucq_terms.specs.Query.{IsQueryFault};

    /// The query of these answers and atoms, with each atom once, where it first stands, and its variables numbered from
    /// 0 by first occurrence, answers first.
    pub fn new(alloc: Global, answers: Vec<Term>, atoms: Vec<Atom>) -> Result<Query, QueryFault>
        requires few_answers { vec_len answers ≤ 16 }
        requires some { 0 < vec_len atoms }
        requires few { vec_len atoms < 2 ^ 32 }
        ensures query { IfOk result (λ q.
            q ≡ normal_query (record { answers = answers.items; atoms = atoms.items })) }
        ensures stored { IfOk result IsStored }
        ensures fault { IfErr result (λ f.
            IsQueryFault (record { answers = answers.items; atoms = atoms.items }) f) }
    {
        if let Some(place) = first_loose(answers.as_slice(), atoms.as_slice()) {
            return Err(QueryFault::Unsafe { place });
        }
        let atoms = each_once(alloc, atoms)?;
        let count = atoms.len() as u32;
        if count > ATOMS {
            return Err(QueryFault::TooManyAtoms { count });
        }
        let query = numbered(alloc, answers, atoms)?;
        Ok(query)
    }

    /// The answer terms, in order.
    pub fn answers(&self) -> &[Term]
        ensures answers { result.now ≡ self.now.answers }
        ensures stored { IsStored self.now }
    {
        self.answers.as_slice()
    }

    /// The atoms. Their order means nothing.
    pub fn atoms(&self) -> &[Atom]
        ensures atoms { result.now ≡ self.now.atoms }
        ensures stored { IsStored self.now }
    {
        self.atoms.as_slice()
    }

    /// Whether the two have equal answer lists and equal lists of atoms.
    pub fn same(&self, other: &Query) -> bool
        ensures { IsTrue result ↔ (self.now ≡ other.now) }
    {
        self == other
    }

    /// An equal query.
    pub fn copy(&self) -> Result<Query, NoMemory>
        ensures { IfOk result (λ q. q ≡ self.now) }
    {
        Ok(Query {
            answers: self.answers.clone()?,
            atoms: self.atoms.clone()?,
        })
    }

    /// The query with its variables numbered anew from 0 by first occurrence, answers first.
    pub fn rename(&self) -> Result<Query, NoMemory>
        ensures { IfOk result (λ q. q ≡ numbered_query self.now) }
    {
        let alloc = *self.answers.allocator();
        numbered(alloc, self.answers.clone()?, self.atoms.clone()?)
    }

    /// Takes the atom at the place out of the query. The others keep their order.
    pub fn remove_atom(&mut self, place: u32)
        requires within { place < length self.old.atoms }
        requires safe { IsSafe (record self.old { atoms = remove self.old.atoms place }) }
        ensures { self.new ≡ record self.old { atoms = remove self.old.atoms place } }
    {
        let _ = self.atoms.remove(place as usize);
    }
}

impl PartialEq for Query {
    ghost eq = { query_eq };

    ghost laws = { IsPartialEquivalence-query_eq };

    fn eq(&self, other: &Query) -> bool {
        self.atoms.len() == other.atoms.len()
            && self.answers == other.answers
            && self.atoms == other.atoms
    }
}

impl Eq for Query {
    ghost laws = { IsEquivalence-query_eq };
}

// The place of the first answer term that is a variable of no atom.
fn first_loose(answers: &[Term], atoms: &[Atom]) -> Option<u32>
    requires { length answers.now ≤ 16 }
    ensures { IsFirstLooseAnswer (record { answers = answers.now; atoms = atoms.now }) result }
{
    for (place, term) in answers.iter().enumerate() {
        if is_loose(*term, atoms) {
            return Some(place as u32);
        }
    }
    None
}

// Whether the term is a variable of no atom.
fn is_loose(term: Term, atoms: &[Atom]) -> bool
    ensures { IsTrue result ↔ IsLoose atoms.now term }
{
    match term {
        Term::Constant(_) => false,
        Term::Variable(_) => !occurs(atoms, term),
    }
}

// The query of these answers and atoms, with its variables numbered from 0 by first occurrence, answers first.
fn numbered(alloc: Global, mut answers: Vec<Term>, mut atoms: Vec<Atom>) -> Result<Query, NoMemory>
    requires safe { IsSafe (record { answers = answers.items; atoms = atoms.items }) }
    requires once { HasEachOnce atoms.items }
    requires few_answers { vec_len answers ≤ 16 }
    requires few_atoms { vec_len atoms ≤ ATOMS }
    ensures query { IfOk result (λ q.
        q ≡ numbered_query (record { answers = answers.items; atoms = atoms.items })) }
    ensures stored { IfOk result IsStored }
{
    number(alloc, answers.as_mut_slice(), atoms.as_mut_slice())?;
    Ok(Query { answers, atoms })
}

// Numbers the variables of the answers and of the atoms from 0 by first occurrence, answers first.
fn number(alloc: Global, answers: &mut [Term], atoms: &mut [Atom]) -> Result<(), NoMemory>
    requires few_answers { length answers.old ≤ 16 }
    requires few_atoms { length atoms.old ≤ ATOMS }
    ensures { OnOk
        result
        (IsNumberedFrom
        (record { answers = answers.old; atoms = atoms.old })
        (record { answers = answers.new; atoms = atoms.new })) }
{
    let mut order = IndexSet::with_capacity(alloc, answers.len() + term_count(atoms))?;
    number_terms(&mut order, answers)?;
    number_atoms(&mut order, atoms)?;
    Ok(())
}
