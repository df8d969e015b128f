//! The search for a map that sends every atom of one list to an atom of another.
ghost use Rattle.std.specs.Prelude.{◌≡◌, ◌≤◌, ◌+◌, ℕ, length, None, Some, IsSome, remove};
ghost use Rattle.ucq_terms.specs.declared.TheConstants.{ATOMS, VARIABLES};
ghost use Rattle.ucq_hom.specs.Levels.{KeepsLevels};
ghost use Rattle.ucq_hom.specs.Search.{HasLowAtoms, ArePlaces, IsMappedFurther, IsBlocked};

use crate::bindings::Bindings;
use crate::levels::{binders, has_level, note_since, union};
use crate::matching::match_atom;
use ucq_terms::Atom;

/// Extends the bindings to a map that sends the atoms at these places, which are visited in this order, to atoms of `to`
/// other than the one at `skip`. It answers `None` then. Where there is no such map that agrees with what is bound, nothing
/// changes, and the answer is a set of levels whose bindings alone rule such maps out: a search that comes back to an atom
/// at another level need not try its other images.
pub fn extend(
    bindings: &mut Bindings,
    levels: &mut [u32],
    from: &[Atom],
    to: &[Atom],
    skip: usize,
    places: &[u32],
    level: u32,
) -> Option<u128>
    requires places { ArePlaces from.now places.now }
    requires low { HasLowAtoms from.now }
    requires room { length levels.old ≡ VARIABLES }
    requires deep { level + length places.now ≤ ATOMS }
    ensures found { result ≡ None →
        IsMappedFurther bindings.old bindings.new from.now places.now (remove to.now skip) }
    ensures blocked { (set : ℕ) →
        result ≡ Some set →
        IsBlocked bindings.old levels.old set from.now places.now (remove to.now skip) }
    ensures undone { IsSome result → bindings.new ≡ bindings.old }
    ensures levels { KeepsLevels bindings.old levels.old levels.new }
{
    let Some((place, rest)) = places.split_first() else {
        return None;
    };
    let atom = &from[*place as usize];
    let mark = bindings.mark();
    let mut blocking = binders(bindings, levels, atom.terms());
    for j in 0..to.len() {
        if j != skip && match_atom(bindings, atom, &to[j]) {
            note_since(bindings, mark, levels, level);
            let Some(deeper) = extend(bindings, levels, from, to, skip, rest, level + 1) else {
                return None;
            };
            bindings.undo(mark);
            if !has_level(deeper, level) {
                return Some(deeper);
            }
            blocking = union(blocking, deeper);
        }
    }
    Some(blocking)
}
