//! Lists of atoms.
ghost use Rattle.std.specs.Prelude.{◌≡◌, ◌<◌, ◌≤◌, ◌*◌, ◌^◌, length, IfOk, OnOk, IsTrue, ◌↔◌};
ghost use Rattle.ucq_terms.specs.Syntax.{OccursIn};
ghost use Rattle.ucq_terms.specs.Numbering.{with_atom, each_once as atoms_each_once};

use crate::{Atom, NoMemory, Term};
use std::alloc::Global;

/// How many terms the atoms have, together.
pub(crate) fn term_count(atoms: &[Atom]) -> usize
    requires { length atoms.now < 2 ^ 32 }
    ensures { result ≤ 16 * length atoms.now }
{
    let mut count = 0;
    for atom in atoms {
        count += atom.terms().len();
    }
    count
}

/// The atoms, each once, where it first stands.
pub(crate) fn each_once(alloc: Global, atoms: Vec<Atom>) -> Result<Vec<Atom>, NoMemory>
    ensures { IfOk result (λ kept. kept.items ≡ atoms_each_once atoms.items) }
{
    let mut kept = Vec::with_capacity(alloc, atoms.len())?;
    for atom in atoms {
        keep(&mut kept, atom)?;
    }
    Ok(kept)
}

// Keeps the atom, which stands last, where no equal one is kept.
fn keep(kept: &mut Vec<Atom>, atom: Atom) -> Result<(), NoMemory>
    ensures { OnOk result (kept.new.items ≡ with_atom kept.old.items atom) }
{
    if kept.contains(&atom) {
        return Ok(());
    }
    kept.push(atom)?;
    Ok(())
}

/// Whether the term stands in one of the atoms.
pub(crate) fn occurs(atoms: &[Atom], term: Term) -> bool
    ensures { IsTrue result ↔ OccursIn atoms.now term }
{
    atoms.iter().any(|atom| atom.terms().contains(&term))
}
