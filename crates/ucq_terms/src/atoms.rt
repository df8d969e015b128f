//! Atoms.
ghost use Rattle.std.specs.Prelude.{◌≡◌, ◌<◌, ◌≤◌, ◌+◌, ◌^◌, length, vec_len, OnOk};
ghost use Rattle.ucq_terms.specs.Numbering.{atom_eq, order_with, numbered_atom};
ghost use Rattle.ucq_terms.specs.Equality.{IsPartialEquivalence-atom_eq, IsEquivalence-atom_eq};

use crate::variables::number_terms;
use crate::{NoMemory, Term};
use indexmap::IndexSet;
use std::alloc::AllocError;
use std::hash::{Hash, Hasher};
use std::marker::Model;

/// An atom: a predicate's name, by its number, and from 1 to 16 terms. Two atoms have one predicate when their names and
/// their numbers of terms are equal.
#[derive(Drop)]
pub struct Atom {
    name: u32,
    terms: Vec<Term>,
}

impl Model for Atom {
    ghost use Rattle.std.specs.Prelude.{◌<◌, ◌≤◌, length};
    ghost use Rattle.ucq_terms.specs.Syntax.{Atom as AtomValue};

    ghost Value = { AtomValue };

    ghost view = { λ a. record { name = a.name; terms = a.terms.items } };

    ghost invariant = { λ a. (0 < length a.terms.items) × (length a.terms.items ≤ 16) };
}

impl Atom {
    /// The atom of this name and these terms, of which there are 1 to 16.
    pub fn new(name: u32, terms: Vec<Term>) -> Atom
        requires some { 0 < vec_len terms }
        requires few { vec_len terms ≤ 16 }
        ensures { result ≡ record { name = name; terms = terms.items } }
    {
        Atom { name, terms }
    }

    /// The number of the predicate's name.
    pub fn name(&self) -> u32
        ensures { result ≡ self.now.name }
    {
        self.name
    }

    /// The terms at the predicate's places.
    pub fn terms(&self) -> &[Term]
        ensures terms { result.now ≡ self.now.terms }
        ensures some { 0 < length result.now }
        ensures few { length result.now ≤ 16 }
    {
        self.terms.as_slice()
    }

    /// Numbers the variables by their places in the order, which new ones lengthen. After want of memory some variables
    /// have their new numbers, and some don't.
    pub(crate) fn number(&mut self, order: &mut IndexSet<u32>) -> Result<(), NoMemory>
        requires { length order.old.keys + 16 < 2 ^ 32 }
        ensures order { OnOk result (order.new.keys ≡ order_with order.old.keys self.old.terms) }
        ensures atom { OnOk result (self.new ≡ numbered_atom order.new.keys self.old) }
        ensures few { OnOk result (length order.new.keys ≤ length order.old.keys + 16) }
    {
        number_terms(order, self.terms.as_mut_slice())
    }
}

impl PartialEq for Atom {
    ghost eq = { atom_eq };

    ghost laws = { IsPartialEquivalence-atom_eq };

    fn eq(&self, other: &Atom) -> bool {
        self.name == other.name && self.terms == other.terms
    }
}

impl Eq for Atom {
    ghost laws = { IsEquivalence-atom_eq };
}

impl Hash for Atom {
    ghost use Rattle.std.specs.Hash as fed;
    ghost use Rattle.std.specs.Prelude.{◌++◌};
    ghost use Rattle.std.proofs.Common.{ap};
    ghost use Rattle.ucq_terms.specs.Equality.{Decides-atom_eq};

    ghost hash_input = { λ a. fed.u32 a.name ++ fed.slice ⟦<Term as Hash>⟧.hash_input a.terms };

    ghost respects_eq = { λ a b e.
        ap
        (λ x. fed.u32 x.name ++ fed.slice ⟦<Term as Hash>⟧.hash_input x.terms)
        ((Decides-atom_eq a b).0 e) };

    fn hash<H: Hasher>(&self, state: &mut H) {
        self.name.hash(state);
        self.terms.hash(state);
    }
}

impl Clone for Atom {
    ghost is_clone = { λ a b. b ≡ a };

    fn clone(&self) -> Result<Atom, AllocError> {
        Ok(Atom {
            name: self.name,
            terms: self.terms.clone()?,
        })
    }
}
