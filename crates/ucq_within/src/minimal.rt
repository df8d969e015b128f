//! A store's query without atoms that its rules make needless.
ghost use Rattle.std.specs.Prelude.{◌<◌, ◌↔◌, IfOk, IsTrue, length};
ghost use Rattle.ucq_terms.specs.declared.Term.{Term as TermValue};
ghost use Rattle.std.specs.List.{remove};
ghost use Rattle.ucq_terms.specs.Syntax.{IsSafe, OccursIn};
ghost use Rattle.ucq_hom.specs.Space.{IsClear};
ghost use Rattle.ucq_within.specs.Minimal.{IsHeldWithout, IsMinimised, MaySpare, without};

use crate::containment::first_covering;
use ucq_chase::sound_is_carried;
use ucq_hom::HomSpace;
use ucq_store::Store;
use ucq_store::laws::finished_is_exact;
use ucq_terms::{Atom, NoMemory, Query, Term};

/// The query of the store's problem with atoms left out: from the last to the first, an atom is left out where another one
/// remains, the rest is safe, and a row of the store covers the rest. Under the rules it has the answers of the problem's
/// query; where the store is finished, no query of some of its atoms has. The space is left clear. Takes a search for each
/// atom and each row. Want of memory is the one error.
pub fn minimise(space: &mut HomSpace, of: &Store) -> Result<Query, NoMemory>
    ensures left { IfOk result (IsMinimised of.now) }
    ensures clear { IsClear space.new }
{
    sound_is_carried();
    finished_is_exact();
    space.clear();
    let mut query = of.problem().query().copy()?;
    // A reader tells that the store is lawful.
    let _ = of.rows();
    let mut place = query.atoms().len() as u32;
    while place > 0 {
        place -= 1;
        if may_spare(space, of, &query, place)? {
            query.remove_atom(place);
        }
    }
    Ok(query)
}

/// Whether the query without the atom at the place has an atom, is safe, and is covered by a row of the store.
fn may_spare(space: &mut HomSpace, of: &Store, query: &Query, place: u32) -> Result<bool, NoMemory>
    requires place { place < length query.now.atoms }
    requires clear { IsClear space.old }
    ensures may { IfOk result (λ may. IsTrue may ↔ MaySpare of.now query.now place) }
    ensures clear { IsClear space.new }
{
    if query.atoms().len() == 1 || !is_safe_without(query, place) {
        return Ok(false);
    }
    let mut rest = query.copy()?;
    rest.remove_atom(place);
    Ok(first_covering(space, of, &rest).is_some())
}

/// Whether each variable of the answer list occurs in an atom at another place.
fn is_safe_without(query: &Query, place: u32) -> bool
    requires within { place < length query.now.atoms }
    requires others { 1 < length query.now.atoms }
    ensures { IsTrue result ↔ IsSafe (without query.now place) }
{
    for term in query.answers() {
        if !is_held_without(query.atoms(), place, *term) {
            return false;
        }
    }
    true
}

/// Whether the term is a constant, or occurs in an atom at another place.
fn is_held_without(atoms: &[Atom], place: u32, term: Term) -> bool
    requires { place < length atoms.now }
    ensures { IsTrue result ↔ IsHeldWithout atoms.now place term }
{
    match term {
        Term::Constant(_) => true,
        Term::Variable(_) => occurs_without(atoms, place, term),
    }
}

/// Whether the term occurs in an atom at another place.
fn occurs_without(atoms: &[Atom], place: u32, term: Term) -> bool
    requires { place < length atoms.now }
    ensures { IsTrue result ↔ OccursIn (remove atoms.now place) term }
{
    let place = place as usize;
    occurs(&atoms[..place], term) || occurs(&atoms[place + 1..], term)
}

/// Whether the term stands in one of the atoms.
pub(crate) fn occurs(atoms: &[Atom], term: Term) -> bool
    ensures { IsTrue result ↔ OccursIn atoms.now term }
{
    atoms.iter().any(|atom| atom.terms().contains(&term))
}
