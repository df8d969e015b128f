//! A base of facts with an index.
//!
//! `Facts` holds facts in the order in which they were added, each once. `Facts::matching` finds those of a predicate,
//! with a term at a place where one is given, by a look-up of a hash and one step a fact that it gives.
#![tactic(auto)]

ghost use Rattle.std.specs.Prelude.{◌≡◌, ◌<◌, ◌≤◌, ◌^◌, ℕ, [], length, slice_get, Some, IfOk, OnOk, OnErr};
ghost use Rattle.ucq_terms.specs.declared.TheConstants.{FACTS};
ghost use Rattle.ucq_terms.specs.Syntax.{HasEachOnce};
ghost use Rattle.ucq_facts.specs.Facts.{DoesAdd, is_match, matching, places_from};
ghost use Rattle.ucq_facts.specs.declared.postings.Postings.{Postings as PostingsValue};
ghost use Rattle.ucq_facts.specs.declared.keys.Position.{Position as PositionValue};
ghost use Rattle.ucq_facts.specs.Postings.{KeepsLists, IsPushed};
ghost use Rattle.ucq_facts.specs.Index.{predicate_eq, position_eq, predicate_of, IsPushedBefore};

mod keys;
mod matches;
mod postings;

use indexmap::IndexSet;
use keys::{Position, Predicate};
pub use matches::Matches;
use postings::Postings;
use std::alloc::Global;
use std::marker::Model;
use ucq_terms::{Atom, NoMemory, Term};

/// Facts in the order in which they were added, none of them twice, with an index.
#[derive(Drop)]
pub struct Facts {
    atoms: IndexSet<Atom>,
    by_predicate: Postings<Predicate>,
    by_term: Postings<Position>,
}

impl Model for Facts {
    ghost use Rattle.std.specs.Prelude.{List, ◌≤◌, ◌^◌, length};
    ghost use Rattle.ucq_terms.specs.declared.TheConstants.{FACTS};
    ghost use Rattle.ucq_terms.specs.Syntax.{Atom as AtomValue};

    ghost Value = { List AtomValue };

    ghost use Rattle.ucq_facts.specs.Index.{IsIndexed};

    ghost view = { λ f. f.atoms.keys };

    ghost invariant = { λ f.
        (length f.atoms.keys ≤ FACTS) × IsIndexed f.atoms.keys f.by_predicate f.by_term };
}

impl Facts {
    /// No facts.
    pub fn new(alloc: Global) -> Result<Facts, NoMemory>
        ensures { IfOk result (λ facts. facts ≡ []) }
    {
        Ok(Facts {
            atoms: IndexSet::new(alloc),
            by_predicate: Postings::new(alloc),
            by_term: Postings::new(alloc),
        })
    }

    /// Adds the atom, which stands last, unless it is held already, and says whether it is new. After want of memory the
    /// facts are as before.
    pub fn add(&mut self, atom: Atom) -> Result<bool, NoMemory>
        requires { length self.old < FACTS }
        ensures does { IfOk result (λ added. DoesAdd self.old atom added self.new) }
        ensures err { OnErr result (self.new ≡ self.old) }
    {
        let number = self.atoms.len() as u32;
        if !self.atoms.insert(atom)? {
            return Ok(false);
        }
        let atom = self.atoms.get_index(number as usize).unwrap();
        match push(&mut self.by_predicate, &mut self.by_term, atom, number) {
            Ok(()) => Ok(true),
            Err(NoMemory) => {
                let _ = self.atoms.pop();
                Err(NoMemory)
            }
        }
    }

    /// How many facts are held.
    pub fn len(&self) -> u32
        ensures len { result ≡ length self.now }
        ensures few { length self.now ≤ FACTS }
        ensures once { HasEachOnce self.now }
    {
        self.atoms.len() as u32
    }

    /// The fact at a place, where places count from 0 in the order in which facts were added.
    pub fn atom(&self, place: u32) -> &Atom
        requires place { place < length self.now }
        ensures atom { slice_get self.now place ≡ Some result.now }
    {
        self.atoms.get_index(place as usize).unwrap()
    }

    /// The facts of this name with this number of terms, in the order in which they were added; where a place and a term
    /// are given, those with that term at that place.
    pub fn matching<'f>(&'f self, name: u32, arity: u32, bound: Option<(u32, Term)>) -> Matches<'f>
        ensures { result ≡ matching self.now name arity bound }
    {
        let places = self.places(name, arity, bound);
        Matches::new(self.atoms.as_slice(), places)
    }

    /// The places of the facts that `matching` gives, in rising order; places count from 0 in the order in which facts were
    /// added.
    pub fn places(&self, name: u32, arity: u32, bound: Option<(u32, Term)>) -> &[u32]
        ensures { result.now ≡ places_from (is_match name arity bound) 0 self.now }
    {
        match bound {
            Some((place, term)) => self.by_term.list(&Position {
                name,
                arity,
                place,
                term,
            }),
            None => self.by_predicate.list(&Predicate { name, arity }),
        }
    }
}

// Puts the number last in the list of the atom's predicate, and in those of its terms. After want of memory all lists are
// as before.
fn push(
    by_predicate: &mut Postings<Predicate>,
    by_term: &mut Postings<Position>,
    atom: &Atom,
    number: u32,
) -> Result<(), NoMemory>
    ensures predicate { OnOk
        result
        (IsPushed predicate_eq by_predicate.old (predicate_of atom.now) number by_predicate.new) }
    ensures terms { OnOk
        result
        (IsPushedBefore by_term.old atom.now (length atom.now.terms) number by_term.new) }
    ensures predicates_kept { OnErr
        result
        (KeepsLists predicate_eq by_predicate.old by_predicate.new) }
    ensures terms_kept { OnErr result (KeepsLists position_eq by_term.old by_term.new) }
{
    push_terms(by_term, atom, number)?;
    match by_predicate.push(Predicate::of(atom), number) {
        Ok(()) => Ok(()),
        Err(NoMemory) => {
            pop_terms(by_term, atom, atom.terms().len() as u32);
            Err(NoMemory)
        }
    }
}

// Puts the number last in the list of each of the atom's terms. After want of memory all lists are as before.
fn push_terms(by_term: &mut Postings<Position>, atom: &Atom, number: u32) -> Result<(), NoMemory>
    ensures pushed { OnOk
        result
        (IsPushedBefore by_term.old atom.now (length atom.now.terms) number by_term.new) }
    ensures err { OnErr result (KeepsLists position_eq by_term.old by_term.new) }
{
    for place in 0..atom.terms().len() as u32 {
        match by_term.push(Position::of(atom, place), number) {
            Ok(()) => {}
            Err(NoMemory) => {
                pop_terms(by_term, atom, place);
                return Err(NoMemory);
            }
        }
    }
    Ok(())
}

// Takes what was put last out of the lists of the atom's terms before a place.
fn pop_terms(by_term: &mut Postings<Position>, atom: &Atom, count: u32)
    requires { count ≤ length atom.now.terms }
    ensures { (first : PostingsValue PositionValue) (number : ℕ) →
        IsPushedBefore first atom.now count number by_term.old →
        KeepsLists position_eq first by_term.new }
{
    let mut place = count;
    while place > 0 {
        place -= 1;
        by_term.pop(&Position::of(atom, place));
    }
}
