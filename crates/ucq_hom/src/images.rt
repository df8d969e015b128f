//! The test whether atoms have images one by one. Most searches fail at an atom that has none under the answers alone, and
//! this is told without an order of the atoms.
ghost use Rattle.std.specs.Prelude.{◌≡◌, ℕ, false, Contains};
ghost use Rattle.ucq_terms.specs.declared.Term.{Term};
ghost use Rattle.ucq_terms.specs.Syntax.{IsSubset, atom_image, atoms_image};
ghost use Rattle.ucq_hom.specs.Bindings.{Extends};
ghost use Rattle.ucq_hom.specs.Search.{HasLowTerms, HasLowAtoms};

use crate::bindings::Bindings;
use crate::matching::match_atom;
use ucq_terms::Atom;

/// Whether some map that agrees with what is bound sends the atom to one of the targets. Nothing stays bound by it.
fn has_image(bindings: &mut Bindings, atom: &Atom, targets: &[Atom]) -> bool
    requires { HasLowTerms atom.now.terms }
    ensures none { result ≡ false →
        (h : ℕ → Term) →
        Extends h bindings.old →
        Contains targets.now (atom_image h atom.now) →
        ⊥ }
    ensures undone { bindings.new ≡ bindings.old }
{
    let mark = bindings.mark();
    for target in targets {
        if match_atom(bindings, atom, target) {
            bindings.undo(mark);
            return true;
        }
    }
    false
}

/// The same for each of the atoms by itself. Where one has no image, no map that agrees with what is bound sends all of them
/// to targets.
pub fn have_images(bindings: &mut Bindings, atoms: &[Atom], targets: &[Atom]) -> bool
    requires { HasLowAtoms atoms.now }
    ensures none { result ≡ false →
        (h : ℕ → Term) →
        Extends h bindings.old →
        IsSubset (atoms_image h atoms.now) targets.now →
        ⊥ }
    ensures undone { bindings.new ≡ bindings.old }
{
    for atom in atoms {
        if !has_image(bindings, atom, targets) {
            return false;
        }
    }
    true
}
