//! The facts that match, one after another.
ghost use Rattle.std.specs.Prelude.{◌≡◌, ◌<◌, length, All};
ghost use Rattle.std.specs.Iterator.{YieldsFirstRef, item_count};
ghost use Rattle.ucq_facts.specs.Index.{atoms_at};

use std::marker::Model;
use ucq_terms::Atom;

/// The facts that match and are left to give, in the order in which they were added.
#[derive(Drop)]
pub struct Matches<'f> {
    atoms: &'f [Atom],
    places: &'f [u32],
}

impl<'f> Model for Matches<'f> {
    ghost use Rattle.std.specs.Prelude.{List, ◌<◌, length, All};
    ghost use Rattle.ucq_terms.specs.Syntax.{Atom as AtomValue};

    ghost Value = { List AtomValue };

    ghost use Rattle.ucq_facts.specs.Index.{atoms_at};

    ghost view = { λ m. atoms_at m.atoms.now m.places.now };

    ghost invariant = { λ m. All (λ place. place < length m.atoms.now) m.places.now };
}

impl<'f> Matches<'f> {
    /// The atoms at these places, which all stand in the list.
    pub(crate) fn new(atoms: &'f [Atom], places: &'f [u32]) -> Matches<'f>
        requires { All (λ place. place < length atoms.now) places.now }
        ensures { result ≡ atoms_at atoms.now places.now }
    {
        Matches { atoms, places }
    }

    /// How many facts are left.
    pub fn len(&self) -> usize
        ensures { result ≡ length self.now }
    {
        self.places.len()
    }
}

impl<'f> Iterator for Matches<'f> {
    type Item = &'f Atom;

    ghost next_gives = { YieldsFirstRef (λ left. left) };

    ghost remaining = { item_count (λ left. left) };

    fn next(&mut self) -> Option<&'f Atom> {
        let (place, others) = self.places.split_first()?;
        let place = *place as usize;
        self.places = others;
        Some(&self.atoms[place])
    }

    fn size_hint(&self) -> (usize, Option<usize>) {
        let len = Matches::len(self);
        (len, Some(len))
    }
}

impl<'f> ExactSizeIterator for Matches<'f> {
    fn len(&self) -> usize {
        Matches::len(self)
    }
}
