//! The test whether two queries are equal but for the names of their variables and the order of their atoms.
ghost use Rattle.std.specs.Prelude.{◌≡◌, ◌↔◌, length, IsTrue};
ghost use Rattle.ucq_terms.specs.Homomorphism.{AreIsomorphic};
ghost use Rattle.ucq_hom.specs.Space.{IsClear};

use crate::agreement::is_renamed;
use crate::placing::place_rest;
use ucq_hom::{HomSpace, covers, order_atoms};
use ucq_terms::{ATOMS, Query, VARIABLES};

/// Looks for a renaming. The atoms are placed in the order in which a search for homomorphisms visits them.
fn find_renaming(a: &Query, b: &Query) -> bool
    requires { length a.now.atoms ≡ length b.now.atoms }
    ensures { IsTrue result ↔ AreIsomorphic a.now b.now }
{
    if !is_renamed(a.answers(), b.answers()) {
        return false;
    }
    let mut marks = [false; VARIABLES as usize];
    let mut order = [0; ATOMS as usize];
    let mut images = [0; ATOMS as usize];
    let atoms = a.atoms();
    let places = &mut order[..atoms.len()];
    order_atoms(&mut marks, a.answers(), atoms, places, atoms.len());
    place_rest(a, b, places, &mut images, 0)
}

/// Whether a one-to-one renaming of variables carries the answers of the first query to those of the second, and its atoms
/// onto the second's. Leaves the space as after a false answer. Queries that do not cover one another are told apart by
/// that; else the worst case is exponential in the number of atoms, and a core is placed without it.
pub fn isomorphic(space: &mut HomSpace, a: &Query, b: &Query) -> bool
    ensures isomorphic { IsTrue result ↔ AreIsomorphic a.now b.now }
    ensures clear { IsClear space.new }
{
    let equivalent = a.atoms().len() == b.atoms().len()
        && covers(space, a, b)
        && covers(space, b, a);
    space.clear();
    equivalent && find_renaming(a, b)
}
