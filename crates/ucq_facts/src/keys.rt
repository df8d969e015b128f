//! What facts are found by.
ghost use Rattle.std.specs.Prelude.{◌≡◌, ◌<◌, length};
ghost use Rattle.ucq_facts.specs.Index.{IsAt, predicate_of};

use ucq_terms::{Atom, Term};

/// A predicate: its name, and its number of terms.
#[derive(Clone, Copy, Debug, PartialEq, Eq, Hash)]
pub(crate) struct Predicate {
    pub(crate) name: u32,
    pub(crate) arity: u32,
}

impl Predicate {
    /// The atom's predicate.
    pub(crate) fn of(atom: &Atom) -> Predicate
        ensures { result ≡ predicate_of atom.now }
    {
        Predicate {
            name: atom.name(),
            arity: atom.terms().len() as u32,
        }
    }
}

/// A term at a place of a predicate.
#[derive(Clone, Copy, Debug, PartialEq, Eq, Hash)]
pub(crate) struct Position {
    pub(crate) name: u32,
    pub(crate) arity: u32,
    pub(crate) place: u32,
    pub(crate) term: Term,
}

impl Position {
    /// The atom's term at the place.
    pub(crate) fn of(atom: &Atom, place: u32) -> Position
        requires { place < length atom.now.terms }
        ensures place { result.place ≡ place }
        ensures at { IsAt result atom.now }
    {
        let terms = atom.terms();
        Position {
            name: atom.name(),
            arity: terms.len() as u32,
            place,
            term: terms[place as usize],
        }
    }
}
