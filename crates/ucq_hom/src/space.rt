//! The space of a search, and the two questions that it answers.
ghost use Rattle.std.specs.Prelude.{◌≡◌, ◌<◌, ◌↔◌, length, IfOk, IsTrue, true, false, remove};
ghost use Rattle.ucq_terms.specs.Homomorphism.{MapsInto, Covers};
ghost use Rattle.ucq_terms.specs.declared.TheConstants.{ATOMS, VARIABLES};
ghost use Rattle.ucq_hom.specs.Space.{image, IsClear, GivesHomomorphism};

use crate::bindings::Bindings;
use crate::images::have_images;
use crate::levels::note_since;
use crate::matching::match_terms;
use crate::order::order_atoms;
use crate::search::extend;
use std::alloc::Global;
use std::marker::Model;
use ucq_terms::{ATOMS, Atom, NoMemory, Query, Term, VARIABLES};

/// Room for the search of any homomorphism between stored queries, and the images that the last search found. Contracts
/// see it as those images, by variable.
#[derive(Drop)]
pub struct HomSpace {
    bindings: Bindings,
    levels: Vec<u32>,
    order: Vec<u32>,
    marks: Vec<bool>,
}

impl Model for HomSpace {
    ghost use Rattle.std.specs.Prelude.{◌≡◌, List, Option, length};
    ghost use Rattle.ucq_terms.specs.declared.Term.{Term};
    ghost use Rattle.ucq_terms.specs.declared.TheConstants.{ATOMS, VARIABLES};

    ghost Value = { List (Option Term) };

    ghost view = { λ s. s.bindings.images };

    ghost invariant = { λ s. (length s.levels.items ≡ VARIABLES) × (length s.order.items ≡ ATOMS) };
}

impl HomSpace {
    /// Room for every query. No other call takes memory.
    pub fn new(alloc: Global) -> Result<HomSpace, NoMemory>
        ensures { IfOk result (λ s. IsClear s) }
    {
        let bindings = Bindings::new(alloc)?;
        let levels = vec![in alloc; 0; VARIABLES as usize]?;
        let order = vec![in alloc; 0; ATOMS as usize]?;
        let marks = vec![in alloc; false; VARIABLES as usize]?;
        Ok(HomSpace {
            bindings,
            levels,
            order,
            marks,
        })
    }

    /// The image of the variable under the homomorphism that the last call with this space found. It is `None` if that
    /// call answered false or was of another kind, and for a variable that does not occur in the query that was mapped.
    pub fn image_of(&self, variable: u32) -> Option<Term>
        ensures { result ≡ image self.now variable }
    {
        self.bindings.get(variable)
    }

    /// Leaves the space as after a false answer. Takes the time of what was found.
    pub fn clear(&mut self)
        ensures { IsClear self.new }
    {
        self.bindings.clear();
    }
}

/// Looks for a homomorphism from the query to the atoms of `to` other than the one at `skip`, and to those answers. What it
/// finds is left in the bindings.
fn find(
    bindings: &mut Bindings,
    levels: &mut [u32],
    order: &mut [u32],
    marks: &mut [bool],
    from: &Query,
    answers: &[Term],
    to: &[Atom],
    skip: usize,
) -> bool
    requires levels { length levels.old ≡ VARIABLES }
    requires order { length order.old ≡ ATOMS }
    ensures found { result ≡ true →
        GivesHomomorphism bindings.new.images from.now (remove to.now skip) answers.now }
    ensures none { result ≡ false → MapsInto from.now (remove to.now skip) answers.now → ⊥ }
    ensures clear { result ≡ false → IsClear bindings.new.images }
{
    bindings.clear();
    let atoms = from.atoms();
    if !match_terms(bindings, from.answers(), answers) {
        return false;
    }
    note_since(bindings, 0, levels, ATOMS);
    let places = &mut order[..atoms.len()];
    order_atoms(marks, from.answers(), atoms, places, skip);
    if extend(bindings, levels, atoms, to, skip, places, 0).is_none() {
        return true;
    }
    bindings.clear();
    false
}

/// Whether some map that keeps the answers may send each atom of the one query, by itself, to one of the other. Mostly where
/// no homomorphism leads from the one to the other this is not so, and that is told without an order of the atoms.
fn may_map(bindings: &mut Bindings, from: &Query, to: &Query) -> bool
    ensures none { result ≡ false → Covers from.now to.now → ⊥ }
    ensures clear { IsClear bindings.new.images }
{
    bindings.clear();
    if !match_terms(bindings, from.answers(), to.answers()) {
        return false;
    }
    let found = have_images(bindings, from.atoms(), to.atoms());
    bindings.clear();
    found
}

/// Whether a homomorphism leads from the one query to the other. If so, `image_of` tells it.
pub fn covers(space: &mut HomSpace, from: &Query, to: &Query) -> bool
    ensures covers { IsTrue result ↔ Covers from.now to.now }
    ensures found { result ≡ true →
        GivesHomomorphism space.new from.now to.now.atoms to.now.answers }
    ensures clear { result ≡ false → IsClear space.new }
{
    if !may_map(&mut space.bindings, from, to) {
        return false;
    }
    let atoms = to.atoms();
    find(
        &mut space.bindings,
        space.levels.as_mut_slice(),
        space.order.as_mut_slice(),
        space.marks.as_mut_slice(),
        from,
        to.answers(),
        atoms,
        atoms.len(),
    )
}

/// Whether some map that keeps the answers sends the atom at the place to another one of the query. Most atoms have no other
/// image, and this is told without an order of the atoms and a search for all of them.
fn has_other_image(bindings: &mut Bindings, levels: &mut [u32], query: &Query, place: u32) -> bool
    requires within { place < length query.now.atoms }
    requires levels { length levels.old ≡ VARIABLES }
    ensures none { result ≡ false →
        MapsInto query.now (remove query.now.atoms place) query.now.answers →
        ⊥ }
    ensures clear { IsClear bindings.new.images }
    ensures levels { length levels.new ≡ VARIABLES }
{
    bindings.clear();
    let atoms = query.atoms();
    if !match_terms(bindings, query.answers(), query.answers()) {
        return false;
    }
    let found = extend(bindings, levels, atoms, atoms, place as usize, &[place], 0).is_none();
    bindings.clear();
    found
}

/// Whether some map that keeps the answers sends the atom at the place to another one of the query. Where there is none, the
/// query needs this atom. Leaves the space as after a false answer.
pub fn may_spare(space: &mut HomSpace, query: &Query, place: u32) -> bool
    requires { place < length query.now.atoms }
    ensures none { result ≡ false →
        MapsInto query.now (remove query.now.atoms place) query.now.answers →
        ⊥ }
    ensures clear { IsClear space.new }
{
    has_other_image(
        &mut space.bindings,
        space.levels.as_mut_slice(),
        query,
        place,
    )
}

/// Whether a homomorphism leads from the query to itself without the atom at `skip`, with the same answers. If so,
/// `image_of` tells it.
pub fn find_without(space: &mut HomSpace, query: &Query, skip: u32) -> bool
    requires { skip < length query.now.atoms }
    ensures maps { IsTrue result
        ↔ MapsInto query.now (remove query.now.atoms skip) query.now.answers }
    ensures found { result ≡ true →
        GivesHomomorphism space.new query.now (remove query.now.atoms skip) query.now.answers }
    ensures clear { result ≡ false → IsClear space.new }
{
    has_other_image(
        &mut space.bindings,
        space.levels.as_mut_slice(),
        query,
        skip,
    ) && find(
        &mut space.bindings,
        space.levels.as_mut_slice(),
        space.order.as_mut_slice(),
        space.marks.as_mut_slice(),
        query,
        query.answers(),
        query.atoms(),
        skip as usize,
    )
}
